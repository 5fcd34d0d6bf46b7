use kt_base::{NoMemory, Text};
use kt_cli::ResultsHost;
use kt_examples::ExampleOutput;
use kt_os::{OsFault, ProcessEnv};
use kt_store::{Access, ResultStore, StoreFault};
use std::alloc::Global;

/// A `ResultsHost` that opens the same results store for any file name, and logs its calls.
#[derive(Drop)]
pub struct ScriptedResultsHost<R: ResultStore + Drop> {
    /// The results store, or `None` while it is open.
    pub results: Option<R>,
    /// The error with which opening the results store fails, or `None` if it succeeds.
    pub open_error: Option<StoreFault>,
    /// The error with which closing the results store fails, or `None` if it succeeds.
    pub close_error: Option<StoreFault>,
    /// The error with which reading the process environment (`ProcessEnv`) fails, or `None` if it
    /// succeeds.
    pub env_error: Option<OsFault>,
    /// The value of the environment variable `PATH`, or `None` if it is unset.
    pub path: Option<Text>,
    /// The value of the environment variable `USER`, or `None` if it is unset.
    pub user: Option<Text>,
    /// The calls of the host so far, separated by commas: `open FILE`, `close`, and `surroundings`
    /// for `process_env`.
    pub calls: ExampleOutput,
}

impl<R: ResultStore + Drop> ScriptedResultsHost<R> {
    /// Creates a results host with the closed results store `results`. The calls of the host don't
    /// fail.
    pub fn new(alloc: Global, results: R) -> ScriptedResultsHost<R> {
        ScriptedResultsHost {
            results: Some(results),
            open_error: None,
            close_error: None,
            env_error: None,
            path: None,
            user: None,
            calls: ExampleOutput::new(alloc),
        }
    }

    /// Logs the call `name` with the file name `file`, and fails if this is the first call whose
    /// allocation in the log fails.
    fn log_host_call(&mut self, name: &str, file: &str) -> Result<(), NoMemory> {
        let was_refused = self.calls.as_str().is_err();
        self.calls.push_separator(", ");
        write!(self.calls, "{name}{file}");
        if !was_refused {
            self.calls.as_str()?;
        }
        Ok(())
    }

    /// Returns the process environment: the working directory `/here`, and the variables `PATH` and
    /// `USER`.
    fn create_process_env(&self) -> Result<ProcessEnv, NoMemory> {
        let working_dir = Text::from_str(self.calls.alloc, "/here")?;
        let path = self.path.as_ref().map(Text::copy).transpose()?;
        let user = self.user.as_ref().map(Text::copy).transpose()?;
        Ok(ProcessEnv {
            working_dir,
            path,
            user,
        })
    }
}

impl<R: ResultStore + Drop> ResultsHost for ScriptedResultsHost<R> {
    type Results = R;

    // The script decides the result of each call, so the relation is trivial.
    ghost provides = { λ _ _ _. Unit {0} };

    fn open(&mut self, file: &Text, _access: Access) -> Result<R, StoreFault> {
        self.log_host_call("open ", file.as_str())?;
        match self.open_error {
            Some(fault) => Err(fault),
            None => self.results.take().ok_or(StoreFault::UnknownSchema),
        }
    }

    fn close(&mut self, results: R) -> Result<(), StoreFault> {
        self.results = Some(results);
        self.log_host_call("close", "")?;
        self.close_error.map_or(Ok(()), Err)
    }

    fn process_env(&mut self) -> Result<ProcessEnv, OsFault> {
        self.log_host_call("surroundings", "")
            .map_err(OsFault::Memory)?;
        match self.env_error {
            Some(fault) => Err(fault),
            None => self.create_process_env().map_err(OsFault::Memory),
        }
    }
}
