use kt_base::Text;
use kt_os::{OsFault, ProcessEnv};
use kt_store::{Access, ResultStore, StoreFault};

/// An interface to the results files and the environment of the process.
///
/// An implementation may return any result that the contracts allow. The contracts of commands hold
/// for each such result.
pub trait ResultsHost {
    ghost use Rattle.kt_cli.specs.Platforms.{HostCall, Opened, Closed, ReadProcessEnv};

    /// A store of the runs in an open results file.
    type Results: ResultStore + Drop;

    /// `provides old call new`: `call` with its result leads the results host from state `old` to
    /// `new`.
    ghost provides: { Self → HostCall Self.Results → Self → Type 0 };

    /// Opens the results file with the path `file`, to add a run or only to read runs, as `access`
    /// selects.
    ///
    /// # Errors
    ///
    /// - `Store`: the file can't be opened, read or written, or is not a results file.
    /// - `UnknownSchema`: the schema number in the file is missing or unknown.
    /// - `NoMemory`: an allocation fails.
    fn open(&mut self, file: &Text, access: Access) -> Result<Self::Results, StoreFault>
        ensures { provides self.old (Opened file.now access result) self.new };

    /// Closes a results file. Its log is copied into the file, so that all runs are in the file
    /// alone.
    ///
    /// # Errors
    ///
    /// This contract doesn't state which runs are left after an error. An implementation that
    /// closes a `RunsFile` leaves them in the file and its log, by the clause `left` of
    /// `RunsFile::close`.
    ///
    /// - `Store`: the log can't be copied into the file.
    /// - `NoMemory`: an allocation fails.
    fn close(&mut self, results: Self::Results) -> Result<(), StoreFault>
        ensures { provides self.old (Closed results result) self.new };

    /// Returns the working directory and the environment of the process.
    ///
    /// # Errors
    ///
    /// - `Failed`: the system returned no working directory.
    /// - `Memory`: an allocation fails.
    fn process_env(&mut self) -> Result<ProcessEnv, OsFault>
        ensures { provides self.old (ReadProcessEnv result) self.new };
}
