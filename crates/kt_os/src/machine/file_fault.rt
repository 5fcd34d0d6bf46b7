ghost use Rattle.std.specs.Prelude.{◌≡◌};
ghost use Rattle.kt_os.specs.Machines.{file_fault_of};

use crate::OsFault;
use kt_base::NoMemory;
use thiserror::Error;

/// Errors returned by [`HostFiles::read_start`](crate::HostFiles::read_start). No command prints
/// them.
#[derive(Clone, Copy, Debug, Error)]
pub enum FileFault {
    /// The file does not exist.
    #[error("no such file")]
    Missing,
    /// The read failed, or the path is not a regular file.
    #[error("file could not be read")]
    Failed,
    /// An allocation failed during the read.
    #[error(transparent)]
    Memory(NoMemory),
}

impl From<OsFault> for FileFault {
    ghost from_gives = { λ from to. to ≡ file_fault_of from };

    fn from(fault: OsFault) -> FileFault {
        match fault {
            OsFault::Failed => FileFault::Failed,
            OsFault::Memory(refusal) => FileFault::Memory(refusal),
        }
    }
}
