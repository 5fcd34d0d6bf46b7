ghost use Rattle.std.specs.Prelude.{◌≡◌};
ghost use Rattle.kt_sched.specs.declared.run_fault.RunFault.TheVariants as fault;

use crate::SinkFault;
use kt_base::{NoMemory, OUT_OF_MEMORY};
use thiserror::Error;

/// Errors returned by [`run_cases`].
#[derive(Clone, Copy, Debug, Error)]
#[error("{}", self.message())]
pub enum RunFault {
    /// An allocation failed before the first launcher call.
    NoMemory(NoMemory),
    /// The put of an entry into the sink failed. The run still waited for each running child, and
    /// requested the start of the declared cleanup of each body that ended.
    SinkFailed(SinkFault),
}

impl RunFault {
    ghost use Rattle.kt_sched.specs.FaultMessages.{run_message};

    /// Returns the message of the error, which `Display` prints (this profile).
    pub fn message(&self) -> &'static str
        ensures { result.now ≡ run_message self.now }
    {
        match self {
            RunFault::NoMemory(_) => OUT_OF_MEMORY,
            RunFault::SinkFailed(fault) => fault.message(),
        }
    }
}

impl From<NoMemory> for RunFault {
    ghost from_gives = { λ refusal f. f ≡ fault.NoMemory refusal };

    fn from(refusal: NoMemory) -> RunFault {
        RunFault::NoMemory(refusal)
    }
}
