use kt_base::{Entry, Variables};
use kt_doubles::{FailingCalls, MemRuns};
use kt_examples::Example;
use kt_store::{CaseOutputs, ResultStore, RunHead, StoreFault, StoreSpec};
use std::alloc::Global;

/// A `ResultStore` in memory, some of whose calls fail.
#[derive(Drop)]
pub struct FailingStore {
    /// The store that executes the calls that don't fail.
    runs: MemRuns,
    /// The counter that makes calls fail.
    failing_calls: FailingCalls,
}

impl FailingStore {
    /// Creates a store without runs, whose calls fail as the lines `refused CALLS` and
    /// `refused-memory CALLS` of an example require.
    ///
    /// # Errors
    ///
    /// - `InvalidExample`: CALLS isn't one or two numbers, or the failure whose error the calls
    ///   return can't be provoked.
    /// - `NoMemory`: an allocation failed.
    pub fn new(alloc: Global, example: &Example<'_>) -> kt_examples::Result<FailingStore> {
        Ok(FailingStore {
            runs: MemRuns::new(alloc),
            failing_calls: FailingCalls::parse(alloc, example)?,
        })
    }
}

impl StoreSpec for FailingStore {
    ghost use Rattle.std.specs.Prelude.{⊤};
    ghost use Rattle.kt_doubles.specs.MemoryRuns.{RepresentsInMemory};

    // The contract of each call states its result, so the relation is trivial.
    ghost answers = { λ _ _ _. Unit {0} };

    ghost stands = { λ s runs. RepresentsInMemory s.runs runs };

    ghost sound = { λ s. ⊤ };

    ghost leaves = { λ s may. ⊤ };

    ghost numbered = { λ s runs h. h.1 };

    ghost ordered = { λ s runs h sound. h.2 };
}

impl ResultStore for FailingStore {
    fn begin(&mut self, total: u32, moment: u64) -> Result<u64, StoreFault> {
        self.failing_calls.count_call()?;
        self.runs.begin(total, moment)
    }

    fn put(&mut self, run: u64, entry: &Entry) -> Result<(), StoreFault> {
        self.failing_calls.count_call()?;
        self.runs.put(run, entry)
    }

    fn finish(&mut self, run: u64) -> Result<(), StoreFault> {
        self.failing_calls.count_call()?;
        self.runs.finish(run)
    }

    fn head(&mut self, number: Option<u64>) -> Result<Option<RunHead>, StoreFault> {
        self.failing_calls.count_call()?;
        self.runs.head(number)
    }

    fn outline(&mut self, run: u64) -> Result<Vec<Entry>, StoreFault> {
        self.failing_calls.count_call()?;
        self.runs.outline(run)
    }

    fn properties(&mut self, run: u64, position: u32) -> Result<Variables, StoreFault> {
        self.failing_calls.count_call()?;
        self.runs.properties(run, position)
    }

    fn outputs(&mut self, run: u64, position: u32) -> Result<CaseOutputs, StoreFault> {
        self.failing_calls.count_call()?;
        self.runs.outputs(run, position)
    }
}
