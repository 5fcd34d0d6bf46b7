ghost use Rattle.std.specs.Prelude.{◌≡◌, if◌then◌else◌, is_err};
ghost use Rattle.kt_cli.specs.Testing.{exit_status};

use kt_base::OutputFault;

/// The exit status of a command after an error, such as a failed read or write (kyua(1)).
pub const FAILURE: u8 = 2;

/// An exit status of a command (kyua(1)).
#[derive(Clone, Copy)]
pub struct Exit {
    /// The exit status: 0 for success, and 1 if a case failed or is broken or a filter selects no
    /// case. It is 3 if the arguments are wrong, and 2 after any other error.
    pub status: u8,
}

/// Returns the exit status `intended_exit`, or 2 if `written`, the result of writing the output, is
/// an error.
pub fn exit_after_write(written: Result<(), OutputFault>, intended_exit: u8) -> Exit
    ensures { result.status ≡ (if is_err written then 2 else intended_exit) }
{
    Exit {
        status: if written.is_err() {
            FAILURE
        } else {
            intended_exit
        },
    }
}

/// Returns the exit status of `list` or `test`.
///
/// `bad` is the number of cases that failed or are broken. `unmatched` are the indexes of the
/// filters that select no case. The status is 0 if `bad` is 0 and every filter selects a case, else
/// 1.
pub fn exit_status(bad: u64, unmatched: &[usize]) -> u8
    ensures { result ≡ exit_status bad unmatched.now }
{
    if bad == 0 && unmatched.is_empty() {
        0
    } else {
        1
    }
}
