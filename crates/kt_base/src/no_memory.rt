use std::alloc::{AllocError, AllocFailed};
use std::io;
use std::io::ErrorKind;
use thiserror::Error;

/// The message for a failed allocation (this profile).
pub const OUT_OF_MEMORY: &str = "out of memory";

/// A failed allocation in this program or in the system.
///
/// Only this module creates a `NoMemory`: from an allocator's error (`From`), or from a system
/// error of kind `OutOfMemory` (`from_io_error`). Callers return it with `?`.
#[derive(Clone, Copy, Debug, Error)]
#[error("{OUT_OF_MEMORY}")]
pub struct NoMemory {
    refusal: Refusal,
}

/// The private type of the field of `NoMemory`, so that no other module can create the error.
#[derive(Clone, Copy, Debug)]
struct Refusal;

impl NoMemory {
    ghost use Rattle.std.specs.Prelude.{◌≡◌, is_some, true};
    ghost use Rattle.kt_base.specs.Common.{error_kind};

    /// Returns `NoMemory` if the kind of `error` is `OutOfMemory`, otherwise `None`.
    pub fn from_io_error(error: &io::Error) -> Option<NoMemory>
        ensures told { error_kind error.now ≡ ErrorKind.OutOfMemory → is_some result ≡ true }
        ensures only { is_some result ≡ true → error_kind error.now ≡ ErrorKind.OutOfMemory }
    {
        if error.kind() == ErrorKind::OutOfMemory {
            return Some(NoMemory { refusal: Refusal });
        }
        None
    }
}

impl From<AllocError> for NoMemory {
    ghost use Rattle.std.specs.Prelude.{◌≡◌};

    ghost from_gives = { λ _ e. e ≡ record { refusal = record {} } };

    fn from(_error: AllocError) -> NoMemory {
        NoMemory { refusal: Refusal }
    }
}

impl<T: Drop> From<AllocFailed<T>> for NoMemory {
    ghost use Rattle.std.specs.Prelude.{◌≡◌};

    ghost from_gives = { λ _ e. e ≡ record { refusal = record {} } };

    fn from(_error: AllocFailed<T>) -> NoMemory {
        NoMemory { refusal: Refusal }
    }
}
