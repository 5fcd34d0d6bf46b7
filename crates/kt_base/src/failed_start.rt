use crate::{Phrase, Reason};

/// A cause of the failed start of a child process.
#[derive(Clone, Copy, Debug)]
pub enum Refused {
    /// The work directory could not be created.
    Directory,
    /// The files for standard output and standard error could not be created.
    Output,
    /// The system failed to start the program.
    Spawn,
    /// An allocation failed.
    Memory,
}

impl Refused {
    ghost use Rattle.std.specs.Prelude.{◌≡◌};
    ghost use Rattle.kt_base.specs.Common.{refused_reason};

    /// Returns the reason of the `broken` verdict on a case after a failed start with this cause.
    ///
    /// The failed start is that of the case's body, or of the program that lists its cases.
    pub fn reason(self) -> Reason
        ensures { result ≡ refused_reason self }
    {
        Reason::Fixed(match self {
            Refused::Directory => Phrase::NoDirectory,
            Refused::Output => Phrase::NoOutput,
            Refused::Spawn => Phrase::NotSpawned,
            Refused::Memory => Phrase::NoMemoryToStart,
        })
    }
}
