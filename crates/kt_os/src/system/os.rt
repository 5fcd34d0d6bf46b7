use crate::{Child, ChildState, EnvPlan, FileRead, OsFault};
use kt_base::{Items, Text};

/// An interface to the system: processes, files and a clock. The relation `leads` describes each
/// call with its result.
pub trait Os {
    ghost use Rattle.std.specs.Prelude.{◌≡◌, ℕ, is_ok};
    ghost use Rattle.kt_os.specs.Common.{Call, Kill, MakeDir, Now, OpenOutput, Pause, Poll, ReadFile, ReadPart, RemoveTree, SetLimit, Spawn, IsReadWithin};

    /// `leads old call new`: the call `call` with its result may lead the system from the state
    /// `old` to `new`.
    ghost leads: { Self → Call → Self → Type 0 };

    /// Sets the timeout of a child, in seconds. The driver calls this before any other call for the
    /// start of that child.
    fn set_limit(&mut self, child: Child, limit: u64)
        ensures { leads self.old (SetLimit child limit) self.new };

    /// Creates a directory.
    ///
    /// # Errors
    ///
    /// - `Failed`: the path exists, or the system can't create the directory.
    /// - `Memory`: an allocation fails.
    fn make_dir(&mut self, path: &Text) -> Result<(), OsFault>
        ensures { leads self.old (MakeDir path.now result) self.new };

    /// Removes a directory with all its contents. Symbolic links are not followed.
    ///
    /// # Errors
    ///
    /// - `Failed`: the system can't remove the directory.
    /// - `Memory`: an allocation fails.
    fn remove_tree(&mut self, path: &Text) -> Result<(), OsFault>
        ensures { leads self.old (RemoveTree path.now (is_ok result)) self.new };

    /// Creates a new file for an output of a child. The first file of a child is for its standard
    /// output, and the second for its standard error.
    ///
    /// # Errors
    ///
    /// - `Failed`: the path exists, or the system can't create the file.
    /// - `Memory`: an allocation fails.
    fn open_output(&mut self, child: Child, path: &Text) -> Result<(), OsFault>
        ensures { leads self.old (OpenOutput child path.now result) self.new };

    /// Starts a program with the given arguments, environment and working directory.
    ///
    /// Standard input is empty. Standard output and standard error go to the two files that were
    /// opened for the child, in that order.
    ///
    /// # Errors
    ///
    /// - `Failed`: the two files are not open, or the system can't start the program.
    /// - `Memory`: an allocation fails.
    fn spawn(
        &mut self,
        child: Child,
        program: &Text,
        words: &Items<Text>,
        env: &EnvPlan,
        dir: &Text,
    ) -> Result<(), OsFault>
        ensures { leads self.old (Spawn child program.now words.now env.now dir.now result)
            self.new };

    /// Returns the state of a child without waiting for its end. The driver measures a timeout in
    /// polls, so a poll may sleep if the polls come faster than 100 in a second.
    ///
    /// # Errors
    ///
    /// - `Failed`: the child was not started, or its state can't be read.
    /// - `Memory`: an allocation fails.
    fn poll(&mut self, child: Child) -> Result<ChildState, OsFault>
        ensures { leads self.old (Poll child result) self.new };

    /// Kills a child. The child can still be polled.
    ///
    /// # Errors
    ///
    /// - `Failed`: the child was not started, or the system can't kill it.
    /// - `Memory`: an allocation fails.
    fn kill(&mut self, child: Child) -> Result<(), OsFault>
        ensures { leads self.old (Kill child (is_ok result)) self.new };

    /// Waits for a short time, nominally 10 milliseconds.
    ///
    /// # Errors
    ///
    /// - `Failed`: the system can't wait.
    /// - `Memory`: an allocation fails.
    fn pause(&mut self) -> Result<(), OsFault>
        ensures { leads self.old (Pause (is_ok result)) self.new };

    /// Reads a file from its beginning, at most `limit` bytes. Returns `Missing` if there is no
    /// such file.
    ///
    /// # Errors
    ///
    /// - `Failed`: the file can't be opened or read. Some failed allocations have this error, too.
    /// - `Memory`: another allocation fails.
    fn read_file(&mut self, path: &Text, limit: u64) -> Result<FileRead, OsFault>
        ensures asked { leads self.old (ReadFile path.now limit result) self.new }
        ensures within { IsReadWithin limit result };

    /// Reads a file from the byte `from`, counted from 0, at most `limit` bytes. Returns `Missing`
    /// if there is no such file.
    ///
    /// # Errors
    ///
    /// - `Failed`: the file can't be opened or read. Some failed allocations have this error, too.
    /// - `Memory`: another allocation fails.
    fn read_part(&mut self, path: &Text, from: u64, limit: u64) -> Result<FileRead, OsFault>
        ensures asked { leads self.old (ReadPart path.now from limit result) self.new }
        ensures within { IsReadWithin limit result };

    /// Returns the current time, in milliseconds since 1970 in UTC.
    ///
    /// # Errors
    ///
    /// - `Failed`: the clock can't be read, or its time is before 1970.
    /// - `Memory`: an allocation fails.
    fn now(&mut self) -> Result<u64, OsFault>
        ensures { leads self.old (Now result) self.new };
}
