ghost use Rattle.kt_cli.specs.Common.{Keeps};

use std::io::Write;

/// An error that exists only if a flush of a writer failed. Only `flush_writer` creates it.
#[derive(Clone, Copy)]
pub struct FlushFault {
    /// A value that only this module can create, so that only this module can create a
    /// `FlushFault`.
    flush: FlushSeal,
}

/// The field of a `FlushFault`. The type is private, so that no other module can create a
/// `FlushFault`.
#[derive(Clone, Copy)]
struct FlushSeal;

/// Flushes a writer, and converts the error of a failed flush to a `FlushFault`.
///
/// # Errors
///
/// - `FlushFault`: the flush fails.
pub fn flush_writer<W: Write>(out: &mut W) -> Result<(), FlushFault>
    ensures { Keeps (W.contents out.old) (W.contents out.new) }
{
    match out.flush() {
        Ok(()) => Ok(()),
        Err(_fault) => Err(FlushFault { flush: FlushSeal }),
    }
}
