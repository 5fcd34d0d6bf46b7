ghost use Rattle.std.specs.Prelude.{◌≡◌};
ghost use Rattle.kt_script.specs.declared.fault.ScriptFault.TheVariants as fault;

use kt_base::{NoMemory, OUT_OF_MEMORY};
use thiserror::Error;

/// Errors returned by [`parse`](crate::parse).
///
/// The number in an error is a line, counted from 1: the line of the faulty token, of the unclosed
/// bracket or of the unfinished statement.
#[derive(Clone, Copy, Debug, Error)]
#[error("{}", self.message())]
pub enum ScriptFault {
    /// An allocation failed.
    NoMemory(NoMemory),
    /// The text is not UTF-8.
    NotUtf8,
    /// A byte, a number or an escape on this line is not allowed (this profile).
    BadToken(u32),
    /// A token on this line is not allowed (kyuafile(5)), or a statement that begins on this line
    /// is not finished.
    NotLiteral(u32),
    /// A string, a comment or a bracket that begins on this line is not closed.
    Unclosed(u32),
    /// The text has more than 1,048,576 bytes.
    TooLong,
}

impl ScriptFault {
    ghost use Rattle.kt_script.specs.FaultMessages.{script_message};

    /// Returns the message of the fault, without its line number (this profile).
    ///
    /// `Display` prints this message. The caller prints the line number.
    pub fn message(&self) -> &'static str
        ensures { result.now ≡ script_message self.now }
    {
        match self {
            ScriptFault::NoMemory(_) => OUT_OF_MEMORY,
            ScriptFault::NotUtf8 => "not UTF-8",
            ScriptFault::BadToken(_) => "bad token",
            ScriptFault::NotLiteral(_) => "not in the literal profile",
            ScriptFault::Unclosed(_) => "unclosed string, comment or bracket",
            ScriptFault::TooLong => "file too long",
        }
    }
}

impl From<NoMemory> for ScriptFault {
    ghost from_gives = { λ refusal e. e ≡ fault.NoMemory refusal };

    fn from(refusal: NoMemory) -> ScriptFault {
        ScriptFault::NoMemory(refusal)
    }
}
