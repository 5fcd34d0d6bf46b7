use kt_atflist::Listing;
use kt_base::{Bytes, Text, Variables};
use kt_metadata::Need;
use kt_sched::Launcher;
use kt_suite::{Program, ReadFault, Tree};

/// An interface to the files of a test suite, the case lists, the launcher and the host that a
/// command uses.
pub trait World: Tree + Launcher {
    ghost use Rattle.std.specs.Prelude.{ℕ, ◌≡◌};
    ghost use Rattle.kt_plan.specs.Common.{Role, IsIdle, IsMoment, Asked, Reply, ReadConfig, Lists, Finds, IsRoot, HasMemory, HasDisk, Now};

    /// `replies old reply new`: `reply`, a call to the host with its result, may lead the world
    /// from the state `old` to the state `new`.
    ghost replies: { Self → Reply → Self → Type 0 };

    /// Returns the bytes of the configuration file at `path`.
    ///
    /// A relative path starts at the working directory. If the file has more than 1,048,577 bytes,
    /// only the first 1,048,577 may be returned. This is one byte more than a script may have (1
    /// MiB).
    ///
    /// # Errors
    ///
    /// - `Missing`: the file does not exist.
    /// - `Failed`: the file can't be read or is not a regular file.
    /// - `Memory`: an allocation fails.
    fn config(&mut self, path: &Text) -> Result<Bytes, ReadFault>
        ensures { replies self.old (ReadConfig path.now result) self.new };

    /// Lists the test cases of the ATF program `program` by running the program. Returns the cause
    /// if the program can't be started, and otherwise its outcome and output.
    ///
    /// `variables` are the variables of the program's test suite. No other test program may be
    /// running.
    fn list(&mut self, program: &Program, variables: &Variables) -> Listing
        requires { IsIdle (Self.running self.old) (Self.pending self.old) }
        ensures { replies self.old (Lists program.now variables.now result) self.new };

    /// Returns `true` if a file of any type exists at the absolute path `path`.
    ///
    /// The property `required_files` (kyuafile(5)) requires such files.
    fn file_exists(&mut self, path: &Text) -> bool
        ensures { replies self.old (Finds Need.File path.now result) self.new };

    /// Returns `true` if the program `name` exists as an executable regular file.
    ///
    /// `name` is an absolute path, or a name that is searched for in the directories of `PATH`. The
    /// property `required_programs` (kyuafile(5)) requires such programs.
    fn program_found(&mut self, name: &Text) -> bool
        ensures { replies self.old (Finds Need.Program name.now result) self.new };

    /// Returns `true` if the user who runs the command is root.
    fn is_root(&mut self) -> bool
        ensures { replies self.old (IsRoot result) self.new };

    /// Returns the physical memory of the computer in bytes, or `None` if the host can't report it.
    fn memory(&mut self) -> Option<u64>
        ensures { replies self.old (HasMemory result) self.new };

    /// Returns the free disk space for the work directories of cases in bytes, or `None` if the
    /// host can't report it.
    fn disk(&mut self) -> Option<u64>
        ensures { replies self.old (HasDisk result) self.new };

    /// Returns the current time, in milliseconds since 1970-01-01 UTC.
    ///
    /// The result is 0 if the clock fails, or if its time is before 1970 or after the year 9999.
    fn now(&mut self) -> u64
        ensures reply { replies self.old (Now result) self.new }
        ensures moment { IsMoment result };

    /// A call to the files of the test suite doesn't change which children are running.
    ghost tree_keeps_running: { (s t : Self) (q : Asked) → Self.asks s q t → (k : ℕ) (r : Role)
        → Self.running t k r ≡ Self.running s k r };

    /// A call to the files of the test suite doesn't change which cases wait for the start of their
    /// cleanup.
    ghost tree_keeps_pending: { (s t : Self) (q : Asked) → Self.asks s q t → (k : ℕ)
        → Self.pending t k ≡ Self.pending s k };

    /// A call to the host doesn't change which children are running.
    ghost host_keeps_running: { (s t : Self) (q : Reply) → Self.replies s q t → (k : ℕ) (r : Role)
        → Self.running t k r ≡ Self.running s k r };

    /// A call to the host doesn't change which cases wait for the start of their cleanup.
    ghost host_keeps_pending: { (s t : Self) (q : Reply) → Self.replies s q t → (k : ℕ)
        → Self.pending t k ≡ Self.pending s k };
}
