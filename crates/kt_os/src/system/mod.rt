//! The interface to the system: the trait, its values, and the clock.

pub(crate) mod moments;
pub(crate) mod os;

ghost use Rattle.std.specs.Prelude.{◌≡◌};
ghost use Rattle.kt_os.specs.declared.system.OsFault.TheVariants as fault;

use kt_base::{Bytes, Items, NoMemory, Role, Text, Variables};
use thiserror::Error;

/// Errors returned by the methods of [`Os`]. No command prints them.
#[derive(Clone, Copy, Debug, Error)]
pub enum OsFault {
    /// The call failed for a reason that is not recorded. Some calls return this error for a failed
    /// allocation, too.
    #[error("system call failed")]
    Failed,
    /// An allocation of the call failed.
    #[error(transparent)]
    Memory(NoMemory),
}

impl From<NoMemory> for OsFault {
    ghost from_gives = { λ refusal e. e ≡ fault.Memory refusal };

    fn from(refusal: NoMemory) -> OsFault {
        OsFault::Memory(refusal)
    }
}

/// A name of a child process: the number of its attempt, and its role. The child that lists an ATF
/// program's test cases has the role `Body`.
#[derive(Clone, Copy, PartialEq, Eq, Hash)]
pub struct Child {
    /// The number of the attempt, counted from 0. A driver numbers the starts of bodies, and of
    /// programs that list their test cases, in one sequence. A cleanup has the number of its body.
    pub attempt: u64,
    /// The part of the case that the child runs: its body or its cleanup.
    pub role: Role,
}

/// A set of changes that turn the runner's environment into a child's.
#[derive(Drop)]
pub struct EnvPlan {
    /// The names of the variables that are removed from the runner's environment.
    pub removed: Items<Text>,
    /// The variables that are set in the child's environment after the removal, in order. If a name
    /// occurs twice, its last value counts.
    pub set: Variables,
}

/// A result of reading a file.
#[derive(Drop)]
pub enum FileRead {
    /// There is no such file.
    Missing,
    /// The bytes read, at most as many as requested, and whether more bytes follow.
    Part(Bytes, bool),
}

/// A state of a child, as the system reports it.
#[derive(Clone, Copy)]
pub enum ChildState {
    /// The child is running.
    Running,
    /// The child exited with this exit status.
    Exited(u8),
    /// A signal with this number ended the child. The flag is `true` if the child dumped core.
    Signaled(u8, bool),
}
