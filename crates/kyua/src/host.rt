//! The implementation of `ResultsHost` for the computer that runs `kyua`.

use kt_base::Text;
use kt_cli::ResultsHost;
use kt_dbfile::{RunsFile, TrustedContents};
use kt_os::{OsFault, ProcessEnv};
use kt_store::{Access, StoreFault};
use sqlite::{FileFrom, FileStore, Unknown};

/// Specification of the path and the initial contents of the results file.
pub(crate) trait InitialContents: TrustedContents {
    ghost use Rattle.std.specs.Prelude.{ℕ, List};

    /// The path of the results file, in characters.
    ghost path: { List ℕ };
}

impl InitialContents for Unknown {
    ghost use Rattle.std.specs.Prelude.{[]};

    ghost path = { [] };
}

/// A `ResultsHost` for the computer that runs `kyua`, whose results file is an SQLite database.
///
/// Only contracts use `S`: it represents the initial contents of the results file.
#[derive(Drop)]
pub(crate) struct KyuaHost<'a, S> {
    /// The runtime, through which files and the environment are read.
    pub(crate) rt: &'a HostRuntime,
    /// The value of `S` until the first open of a results file, which consumes it.
    pub(crate) start: Option<S>,
}

impl<S: InitialContents> ResultsHost for KyuaHost<'_, S> {
    ghost use Rattle.sqlite_wal.specs.Files.{image_at};
    ghost use Rattle.kt_cli.specs.Platforms.{IsHostOfFiles};

    type Results = RunsFile<FileStore<FileFrom<S>>>;

    ghost provides = { λ _ asked _. IsHostOfFiles S.path (image_at S.Start) asked };

    fn open(&mut self, file: &Text, access: Access) -> Result<Self::Results, StoreFault> {
        match RunsFile::open(self.rt, file, access, self.start.take()) {
            Ok(results) => Ok(results),
            Err((fault, _leftover)) => Err(fault),
        }
    }

    fn close(&mut self, results: Self::Results) -> Result<(), StoreFault> {
        match results.close() {
            Ok(()) => Ok(()),
            Err((fault, _left)) => Err(fault),
        }
    }

    fn process_env(&mut self) -> Result<ProcessEnv, OsFault> {
        ProcessEnv::from_process(self.rt)
    }
}
