//! The implementation of `Os` by the standard library.

pub(crate) mod background;
pub(crate) mod children;
pub(crate) mod command;
pub(crate) mod file_start;
pub(crate) mod host_child;
pub(crate) mod host_os;
pub(crate) mod leases;
pub(crate) mod outputs;
pub(crate) mod pace;
pub(crate) mod reads;

ghost use Rattle.std.specs.Prelude.{◌≡◌, Ok, IsErr, MatchResult};
ghost use Rattle.kt_os.specs.Common.{error_kind, IsFaultOf};

use crate::OsFault;
use kt_base::NoMemory;
use std::io;

/// Returns `Memory` if an I/O error reports a failed allocation, and otherwise `Failed`.
pub(crate) fn os_fault_of(error: &io::Error) -> OsFault
    ensures { IsFaultOf (error_kind error.now) result }
{
    match NoMemory::from_io_error(error) {
        Some(refusal) => OsFault::Memory(refusal),
        None => OsFault::Failed,
    }
}

/// Returns `answer` with its I/O error, if any, converted to an `OsFault`.
pub(crate) fn into_os_result<T: Drop>(answer: io::Result<T>) -> Result<T, OsFault>
    ensures { MatchResult result (λ value. answer ≡ Ok value) (λ _. IsErr answer) }
{
    match answer {
        Ok(value) => Ok(value),
        Err(error) => Err(os_fault_of(&error)),
    }
}
