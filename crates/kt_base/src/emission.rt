ghost use Rattle.std.specs.Prelude.{◌≡◌, ◌≤◌, ◌<◌, true, false, is_err, length, map, take};
ghost use Rattle.kt_base.specs.Common.{Appends, Emits, joined};

use std::io::Write;
use thiserror::Error;

/// A failed write: the writer returned an error or wrote none of the remaining bytes.
///
/// Only `emit` creates an `OutputFault`, after such a write. Callers return it with `?`.
#[derive(Clone, Copy, Debug, Error)]
#[error("output could not be written")]
pub struct OutputFault {
    write: FailedWrite,
}

/// The private type of the field of `OutputFault`, so that no other module can create the error.
#[derive(Clone, Copy, Debug)]
struct FailedWrite;

/// Writes `bytes` to `out` until all bytes are written or a write fails.
///
/// Returns the number of bytes written, and `true` if a write failed. A write that is interrupted
/// or writes no byte is a failed write. The runner writes all output through this function.
pub fn write_until_failure<W: Write>(bytes: &[u8], out: &mut W) -> (usize, bool)
    ensures bound { result.0 ≤ length bytes.now }
    ensures all { result.1 ≡ false → result.0 ≡ length bytes.now }
    ensures short { result.1 ≡ true → result.0 < length bytes.now }
    ensures sent { Appends (W.contents out.old) (W.contents out.new) (take result.0 bytes.now) }
{
    let mut sent = 0;
    while sent < bytes.len() {
        match out.write(&bytes[sent..]) {
            Ok(0) => return (sent, true),
            Ok(n) => sent += n,
            Err(_fault) => return (sent, true),
        }
    }
    (sent, false)
}

/// Writes all of `bytes` to `out`.
///
/// # Errors
///
/// - `OutputFault`: a write failed, was interrupted or wrote no byte. A proper prefix of `bytes`
///   was written.
pub fn emit<W: Write>(bytes: &[u8], out: &mut W) -> Result<(), OutputFault>
    ensures { Emits (W.contents out.old) (W.contents out.new) (is_err result) bytes.now }
{
    let (_, failed) = write_until_failure(bytes, out);
    if failed {
        return Err(OutputFault { write: FailedWrite });
    }
    Ok(())
}

/// Writes the byte strings `parts` to `out`, one after the other.
///
/// # Errors
///
/// - `OutputFault`: a write failed, was interrupted or wrote no byte. A proper prefix of the joined
///   `parts` was written.
pub fn emit_all<W: Write>(parts: &[&[u8]], out: &mut W) -> Result<(), OutputFault>
    ensures { Emits (W.contents out.old) (W.contents out.new) (is_err result)
        (joined (map (λ part. part.now) parts.now)) }
{
    for part in parts {
        emit(part, out)?;
    }
    Ok(())
}
