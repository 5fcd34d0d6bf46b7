//! The error messages and warnings of commands.

ghost use Rattle.std.specs.Prelude.{◌≡◌, chars, is_err, slice_get};
ghost use Rattle.kt_cli.specs.Common.{Emits, utf8, ClosesResults, fault_line, memory_line, store_fault_line, run_line, WritesNext, Printed, driver_line, command_text, command_exit, failure_exit, PrintedWithStatus, stop_exit, stop_line, warning_at, warnings};

use crate::Exit;
use crate::output::exit::{FAILURE, exit_after_write};
use kt_args::{CaseOptions, CommandFault};
use kt_base::{NoMemory, OUT_OF_MEMORY, OutputFault, Text, emit, emit_all};
use kt_child::DriverFault;
use kt_plan::SelectionError;
use kt_sched::RunFault;
use kt_store::StoreFault;
use std::io::Write;

/// The exit status of a command with wrong arguments (kyua(1)).
const USAGE_STATUS: u8 = 3;

/// Writes an error line with the message `words`: `kyua: E: MESSAGE` (this profile).
fn write_error_line<O: Write>(words: &str, out: &mut O) -> Result<(), OutputFault>
    ensures { Emits (O.contents out.old) (O.contents out.new) (is_err result)
        (utf8 (fault_line (chars words.now))) }
{
    emit_all(&[b"kyua: E: ", words.as_bytes(), b"\n"], out)
}

/// Writes the error line of a failed allocation.
///
/// `_refusal` isn't printed. It is a parameter so that only a caller with a failed allocation can
/// print this line.
///
/// # Errors
///
/// - `OutputFault`: a write fails. A proper prefix of the line was written.
#[tactic(auto, unfolding(crate::proofs::Common::chars))]
pub fn write_memory_error<O: Write>(_refusal: NoMemory, out: &mut O) -> Result<(), OutputFault>
    ensures { Emits (O.contents out.old) (O.contents out.new) (is_err result) (utf8 memory_line) }
{
    write_error_line(OUT_OF_MEMORY, out)
}

/// Writes the error line of a run that failed with `fault`. If `written`, the result of the earlier
/// writes, is an error, writes nothing and returns this error.
///
/// # Errors
///
/// - `OutputFault`: a write fails, or `written` is an error. A proper prefix of the line was
///   written.
pub fn write_run_fault<O: Write>(
    written: Result<(), OutputFault>,
    fault: RunFault,
    out: &mut O,
) -> Result<(), OutputFault>
    ensures { WritesNext (O.contents out.old) (is_err written) (O.contents out.new) (is_err result)
        (utf8 (run_line fault)) }
{
    written?;
    write_error_line(fault.message(), out)
}

/// Writes the error line of a failed call of the results store.
///
/// # Errors
///
/// - `OutputFault`: a write fails. A proper prefix of the line was written.
pub fn write_store_error<O: Write>(fault: StoreFault, out: &mut O) -> Result<(), OutputFault>
    ensures { Emits (O.contents out.old) (O.contents out.new) (is_err result)
        (utf8 (store_fault_line fault)) }
{
    write_error_line(fault.message(), out)
}

/// Writes the error line of `stop`, the fault that stopped a command (this profile).
fn write_selection_error<O: Write>(stop: &SelectionError, out: &mut O) -> Result<(), OutputFault>
    ensures { Emits (O.contents out.old) (O.contents out.new) (is_err result)
        (utf8 (stop_line stop.now)) }
{
    emit(b"kyua: E: ", out)?;
    stop.print(out)?;
    emit(b"\n", out)
}

/// Returns the exit status of a command that `stop` stopped: 3 if the arguments are wrong, else 2.
fn selection_error_status(stop: &SelectionError) -> u8
    ensures { result ≡ stop_exit stop.now }
{
    match stop {
        SelectionError::Variable(_, _) | SelectionError::Filter(_, _) | SelectionError::NeedsCase =>
            3,
        _ => 2,
    }
}

/// Prints the error line of the fault that stopped a command, and returns the exit status: 3 if the
/// arguments are wrong, else 2. The status is also 2 if the write fails.
pub fn print_selection_error<O: Write>(fault: SelectionError, out: &mut O) -> Exit
    ensures { Printed (O.contents out.old) (O.contents out.new) result.status
        (utf8 (stop_line fault)) (stop_exit fault) }
{
    exit_after_write(
        write_selection_error(&fault, out),
        selection_error_status(&fault),
    )
}

/// Prints the error line of a driver that could not be created, and returns exit status 2.
pub fn print_driver_fault<O: Write>(fault: DriverFault, out: &mut O) -> Exit
    ensures { Printed (O.contents out.old) (O.contents out.new) result.status
        (utf8 (driver_line fault)) failure_exit }
{
    exit_after_write(write_error_line(fault.message(), out), FAILURE)
}

/// Prints the error line of a failed call of the results store, and returns exit status 2.
pub fn print_store_fault<O: Write>(fault: StoreFault, out: &mut O) -> Exit
    ensures { Printed (O.contents out.old) (O.contents out.new) result.status
        (utf8 (store_fault_line fault)) failure_exit }
{
    exit_after_write(write_store_error(fault, out), FAILURE)
}

/// Prints an error line if the close of the results file failed, and returns the exit status of the
/// command.
///
/// `exit` is the exit status before the close, and `closed` is the result of the close. The result
/// is 2 if the close failed, and otherwise `exit`. Nothing is printed if `exit` is already 2.
pub fn print_close_fault<O: Write>(exit: Exit, closed: Result<(), StoreFault>, out: &mut O) -> Exit
    ensures { ClosesResults closed (O.contents out.old) (O.contents out.new) exit.status
        result.status }
{
    match closed {
        Err(fault) if exit.status != FAILURE => print_store_fault(fault, out),
        _ => exit,
    }
}

/// Writes the text of `fault`, the fault of rejected arguments: the text of a `Usage` fault, and an
/// error line for another fault.
fn write_command_fault<O: Write>(fault: &CommandFault, out: &mut O) -> Result<(), OutputFault>
    ensures { Emits (O.contents out.old) (O.contents out.new) (is_err result)
        (utf8 (command_text fault.now)) }
{
    match fault {
        CommandFault::Usage(text) => emit(text.as_bytes(), out),
        _ => write_error_line(fault.message(), out),
    }
}

/// Returns the exit status of a command whose arguments are rejected: 2 if memory ran out, else 3.
fn command_fault_status(fault: &CommandFault) -> u8
    ensures { result ≡ command_exit fault.now }
{
    match fault {
        CommandFault::NoMemory(_) => FAILURE,
        _ => USAGE_STATUS,
    }
}

/// Prints the text of `fault`, the fault of rejected arguments, and returns exit status 3, or 2 if
/// memory ran out.
///
/// A failed write does not change the status.
pub fn print_command_fault<O: Write>(fault: &CommandFault, out: &mut O) -> Exit
    ensures { PrintedWithStatus (O.contents out.old) (O.contents out.new) result.status
        (utf8 (command_text fault.now)) (command_exit fault.now) }
{
    let _ = write_command_fault(fault, out);
    Exit {
        status: command_fault_status(fault),
    }
}

/// Writes the warning that the filter at index `position` of `words` matches no case. Writes
/// nothing if there is no such filter.
fn write_warning_at<O: Write>(
    words: &[Text],
    position: usize,
    out: &mut O,
) -> Result<(), OutputFault>
    ensures { Emits (O.contents out.old) (O.contents out.new) (is_err result)
        (utf8 (warning_at (slice_get words.now position))) }
{
    match words.get(position) {
        None => Ok(()),
        Some(word) => emit_all(
            &[
                b"kyua: W: No test cases matched by the filter '",
                word.as_bytes(),
                b"'.\n",
            ],
            out,
        ),
    }
}

/// Writes a warning for each filter that matches no case, in the order of the filters. The warning
/// quotes the filter as it was given. `unmatched` are the indexes of these filters in `options`.
///
/// # Errors
///
/// - `OutputFault`: a write fails. A proper prefix of the warnings was written.
pub fn write_warnings<O: Write>(
    options: &CaseOptions,
    unmatched: &[usize],
    out: &mut O,
) -> Result<(), OutputFault>
    ensures { Emits (O.contents out.old) (O.contents out.new) (is_err result)
        (utf8 (warnings options.now.filters unmatched.now)) }
{
    let words = options.filters.as_slice();
    for position in unmatched {
        write_warning_at(words, *position, out)?;
    }
    Ok(())
}
