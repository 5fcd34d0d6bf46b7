ghost use Rattle.std.specs.Prelude.{◌≡◌, chars};
ghost use Rattle.clap.specs.Words.{kind_of};
ghost use Rattle.clap.specs.declared.error.kind.ErrorKind.TheVariants.{OutOfMemory};
ghost use Rattle.kt_args.specs.FaultMessages.{command_message};
ghost use Rattle.kt_args.specs.Reading.{IsArgsFault};
ghost use Rattle.kt_args.specs.declared.command_fault.CommandFault.TheVariants as fault;

use clap::error::ErrorKind;
use kt_base::{NoMemory, OUT_OF_MEMORY, Text};
use std::alloc::Global;
use thiserror::Error;

/// A witness that an allocation failed while a command line was parsed.
///
/// Only a failed allocation, in this crate or in `clap`, creates this value.
#[derive(Clone, Copy, Debug)]
pub struct ParserAllocationFailure {
    refusal: ParserSeal,
}

/// A private type, so that no other module can construct a `ParserAllocationFailure`.
#[derive(Clone, Copy, Debug)]
struct ParserSeal;

/// Errors returned by [`read_command`](crate::read_command) and
/// [`read_process_args`](crate::read_process_args).
#[derive(Debug, Drop, Error)]
#[error("{}", self.message())]
pub enum CommandFault {
    /// An allocation failed.
    NoMemory(ParserAllocationFailure),
    /// The arguments are not UTF-8 or not a command line of kyua(1), or `--help` is given.
    ///
    /// The text is `clap`'s message or help.
    Usage(Text),
    /// An element of the results filter is not `passed`, `skipped`, `xfail`, `broken` or `failed`.
    BadKind,
    /// The run number is not a decimal number from 1 to 1,000,000.
    BadRun,
}

impl From<NoMemory> for CommandFault {
    ghost from_gives = { λ _ e. e ≡ fault.NoMemory (record { refusal = record {} }) };

    fn from(_refusal: NoMemory) -> CommandFault {
        CommandFault::NoMemory(ParserAllocationFailure {
            refusal: ParserSeal,
        })
    }
}

impl CommandFault {
    /// Returns the message of the error (this profile), which `Display` prints.
    ///
    /// The message of `Usage` is the message or the help of `clap`.
    #[tactic(auto, unfolding(crate::proofs::Common::chars))]
    pub fn message(&self) -> &str
        ensures { chars result.now ≡ command_message self.now }
    {
        match self {
            CommandFault::NoMemory(_) => OUT_OF_MEMORY,
            CommandFault::Usage(text) => text.as_str(),
            CommandFault::BadKind => "bad results filter",
            CommandFault::BadRun => "bad run number",
        }
    }

    /// Converts `error`, an error of `clap`, to `Usage` with the message of `clap`.
    ///
    /// Returns `NoMemory` if `error` is a failed allocation, or if an allocation for the message
    /// fails.
    pub(crate) fn from_clap(alloc: Global, error: clap::Error) -> CommandFault
        ensures { IsArgsFault (kind_of error ≡ OutOfMemory) result }
    {
        if error.kind() == ErrorKind::OutOfMemory {
            return CommandFault::NoMemory(ParserAllocationFailure {
                refusal: ParserSeal,
            });
        }
        match error.to_string(alloc) {
            Ok(text) => CommandFault::Usage(Text::from_string(text)),
            Err(refusal) => CommandFault::from(NoMemory::from(refusal)),
        }
    }
}
