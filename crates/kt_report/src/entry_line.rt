ghost use Rattle.std.specs.Prelude.{is_err};
ghost use Rattle.kt_report.specs.Common.{Emits, line_bytes, printable_reason};

use crate::moments::write_seconds;
use kt_base::{Entry, Kind, OutputFault, Verdict, emit, emit_all};
use std::io::Write;

/// Writes a colon, a space and the reason of `verdict`, or nothing for the verdict of a passed
/// case.
fn write_reason<W: Write>(verdict: &Verdict, out: &mut W) -> Result<(), OutputFault>
    ensures { Emits (W.contents out.old) (W.contents out.new) (is_err result)
        (printable_reason verdict.now.kind verdict.now.reason) }
{
    match verdict.kind() {
        Kind::Passed => Ok(()),
        _ => {
            emit(b": ", out)?;
            verdict.print_reason(out)
        }
    }
}

/// Writes the line that `kyua test` and the text report print for `entry` (this profile).
///
/// The line has the program and the case, the kind and the reason of the verdict, and the duration
/// in seconds.
///
/// The function doesn't allocate.
///
/// # Errors
///
/// - `OutputFault`: a write fails. A proper prefix of the line was written.
pub fn line<W: Write>(entry: &Entry, out: &mut W) -> Result<(), OutputFault>
    ensures { Emits (W.contents out.old) (W.contents out.new) (is_err result)
        (line_bytes entry.now) }
{
    let case_name = entry.case_name.as_bytes();
    emit_all(&[entry.program.as_bytes(), b":", case_name, b"  ->  "], out)?;
    emit(entry.verdict.kind().word().as_bytes(), out)?;
    write_reason(&entry.verdict, out)?;
    emit(b"  [", out)?;
    write_seconds(u128::from(entry.millis), out)?;
    emit(b"s]\n", out)
}
