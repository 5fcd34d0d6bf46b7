ghost use Rattle.std.specs.Prelude.{◌≡◌};
ghost use Rattle.kt_metadata.specs.declared.fault.PropFault.TheVariants as prop;

use kt_base::{NoMemory, OUT_OF_MEMORY};
use thiserror::Error;

/// Errors returned by [`Props::set`](crate::Props::set).
#[derive(Clone, Copy, Debug, Error)]
#[error("{}", self.message())]
pub enum PropFault {
    /// An allocation failed.
    NoMemory(NoMemory),
    /// No property has the given name.
    UnknownProperty,
    /// The property does not accept the given text as its value (kyuafile(5)).
    BadValue,
}

impl PropFault {
    ghost use Rattle.kt_metadata.specs.FaultMessages.{prop_message};

    /// Returns the message of the error (this profile), which `Display` prints.
    pub fn message(&self) -> &'static str
        ensures { result.now ≡ prop_message self.now }
    {
        match self {
            PropFault::NoMemory(_) => OUT_OF_MEMORY,
            PropFault::UnknownProperty => "unknown property",
            PropFault::BadValue => "bad value",
        }
    }
}

impl From<NoMemory> for PropFault {
    ghost from_gives = { λ error fault. fault ≡ prop.NoMemory error };

    fn from(error: NoMemory) -> PropFault {
        PropFault::NoMemory(error)
    }
}
