use kt_base::{Entry, Variables};
use kt_store::{CaseOutputs, ResultStore, RunHead, StoreFault, StoreSpec};
use std::marker::Model;

/// A store without runs, to which none can be added.
///
/// `list` and `debug` record nothing. They get this store and never call it.
#[derive(Drop)]
pub struct NoStore;

impl Model for NoStore {
    ghost Value = { Unit {0} };

    ghost view = { λ _. tt };
}

impl StoreSpec for NoStore {
    ghost use Rattle.kt_cli.specs.NoStores.{AllowsAnyCall, HasNoRuns, IsNeverSound, LeavesAny};

    ghost answers = { AllowsAnyCall };

    ghost stands = { HasNoRuns };

    ghost sound = { IsNeverSound };

    ghost leaves = { LeavesAny };

    ghost numbered = { λ s runs h. h.1 };

    ghost ordered = { λ s runs h sound. h.2 };
}

impl ResultStore for NoStore {
    fn begin(&mut self, _total: u32, _moment: u64) -> Result<u64, StoreFault> {
        Err(StoreFault::NoRun)
    }

    fn put(&mut self, _run: u64, _entry: &Entry) -> Result<(), StoreFault> {
        Err(StoreFault::NoRun)
    }

    fn finish(&mut self, _run: u64) -> Result<(), StoreFault> {
        Err(StoreFault::NoRun)
    }

    fn head(&mut self, _number: Option<u64>) -> Result<Option<RunHead>, StoreFault> {
        Ok(None)
    }

    fn outline(&mut self, _run: u64) -> Result<Vec<Entry>, StoreFault> {
        Err(StoreFault::NoRun)
    }

    fn properties(&mut self, _run: u64, _position: u32) -> Result<Variables, StoreFault> {
        Err(StoreFault::NoRun)
    }

    fn outputs(&mut self, _run: u64, _position: u32) -> Result<CaseOutputs, StoreFault> {
        Err(StoreFault::NoRun)
    }
}
