ghost use Rattle.std.specs.Prelude.{◌≡◌};
ghost use Rattle.kt_config.specs.declared.fault.ConfigFault.TheVariants as fault;

use kt_base::{NoMemory, OUT_OF_MEMORY};
use kt_script::ScriptFault;
use thiserror::Error;

/// Errors returned by [`Config::read`](crate::Config) and [`Config::set`](crate::Config).
#[derive(Clone, Copy, Debug, Error)]
#[error("{}", self.message())]
pub enum ConfigFault {
    /// An allocation failed.
    NoMemory(NoMemory),
    /// No variable has the given name.
    UnknownVariable,
    /// A variable does not accept the value in its definition.
    BadValue,
    /// The file can't be parsed as a script, for example because it is too long. The field is the
    /// parser's error.
    Script(ScriptFault),
    /// The file has no statement, or its first statement is not `syntax(2)`.
    NoSyntax,
    /// A statement after `syntax(2)` is not an assignment.
    NotAssignment,
}

impl ConfigFault {
    ghost use Rattle.kt_config.specs.FaultMessages.{config_message};

    /// Returns the message of the fault, without a line number (this profile).
    ///
    /// `Display` prints this message.
    pub fn message(&self) -> &'static str
        ensures { result.now ≡ config_message self.now }
    {
        match self {
            ConfigFault::NoMemory(_) => OUT_OF_MEMORY,
            ConfigFault::UnknownVariable => "unknown variable",
            ConfigFault::BadValue => "bad value",
            ConfigFault::Script(fault) => fault.message(),
            ConfigFault::NoSyntax => "syntax(2) expected",
            ConfigFault::NotAssignment => "not an assignment",
        }
    }
}

impl From<NoMemory> for ConfigFault {
    ghost from_gives = { λ refusal e. e ≡ fault.NoMemory refusal };

    fn from(refusal: NoMemory) -> ConfigFault {
        ConfigFault::NoMemory(refusal)
    }
}
