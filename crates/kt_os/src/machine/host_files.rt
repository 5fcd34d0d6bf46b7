use crate::FileFault;
use kt_base::Bytes;

/// An interface to the files and the clock of the host. Symbolic links are followed.
///
/// An implementation may return any result that the contracts allow. The contracts of commands are
/// about the results that were returned.
pub trait HostFiles {
    ghost use Rattle.std.specs.Prelude.{◌≤◌, IfOk, length};
    ghost use Rattle.kt_base.specs.Moments.{IsMoment};
    ghost use Rattle.kt_os.specs.Machines.{HostResponse, ReadsFile, IsFile, PathExists, IsProgram, ReadsClock, read_limit};

    /// `answers old call new`: `call` with its result leads the host from state `old` to `new`.
    ghost answers: { Self → HostResponse → Self → Type 0 };

    /// Reads at most the first 1,048,577 bytes of a regular file. This is one byte more than a
    /// Kyuafile or a configuration file may have.
    ///
    /// # Errors
    ///
    /// - `Missing`: there is no such file.
    /// - `Failed`: the path is not a regular file, or the read fails.
    /// - `Memory`: an allocation fails.
    fn read_start(&mut self, path: &str) -> Result<Bytes, FileFault>
        ensures answered { answers self.old (ReadsFile path.now result) self.new }
        ensures short { IfOk result (λ bytes. length bytes ≤ read_limit) };

    /// Returns `true` if `path` names a regular file. Returns `false` if it can't be examined.
    fn is_file(&mut self, path: &str) -> bool
        ensures { answers self.old (IsFile path.now result) self.new };

    /// Returns `true` if `path` names a file of any type. Returns `false` if it can't be examined.
    fn path_exists(&mut self, path: &str) -> bool
        ensures { answers self.old (PathExists path.now result) self.new };

    /// Returns `true` if `path` names a regular file with an execute permission bit.
    ///
    /// The bit of the owner, of the group or of others is enough. Returns `false` if `path` can't
    /// be examined.
    fn is_program(&mut self, path: &str) -> bool
        ensures { answers self.old (IsProgram path.now result) self.new };

    /// Returns the current time in milliseconds since 1970 in UTC, or 0 if the clock fails. Times
    /// before 1970 or after the year 9999 are returned as 0, too.
    fn moment(&mut self) -> u64
        ensures answered { answers self.old (ReadsClock result) self.new }
        ensures moment { IsMoment result };
}
