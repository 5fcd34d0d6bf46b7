use kt_base::{Entry, NoMemory};
use kt_store::{ResultStore, Results, RunHead, StoreFault};
use sqlite::Alter;
use std::alloc::Global;

/// An interface to a results store, with the calls that examples make.
pub trait ExampleStore {
    ghost use Rattle.kt_base.specs.Moments.{IsMoment, IsStorable};

    /// Adds an unfinished run of `total` cases, and returns its number. `moment` is its start time,
    /// in milliseconds since 1970 in UTC.
    ///
    /// # Errors
    ///
    /// - `StoreFull`: the store has the maximum number of runs.
    /// - `NoMemory`, `Store`: an allocation or the store failed.
    fn begin(&mut self, total: u32, moment: u64) -> Result<u64, StoreFault>
        requires { IsMoment moment };

    /// Adds an entry, with its properties and outputs, to run number `run`.
    ///
    /// # Errors
    ///
    /// - `NoRun`: no run has the number.
    /// - `RunClosed`: the run is finished.
    /// - `BadPosition`: the position of the entry is not below the run's total.
    /// - `RepeatedPosition`: the run has an entry at this position.
    /// - `NoMemory`, `Store`: an allocation or the store failed.
    fn put(&mut self, run: u64, entry: &Entry) -> Result<(), StoreFault>
        requires { IsStorable entry.now };

    /// Marks the run number `run` as finished. Entries can't be added to a finished run.
    ///
    /// # Errors
    ///
    /// - `NoRun`: no run has the number.
    /// - `RunClosed`: the run is finished.
    /// - `Incomplete`: the run has fewer entries than its total.
    /// - `NoMemory`, `Store`: an allocation or the store failed.
    fn finish(&mut self, run: u64) -> Result<(), StoreFault>;

    /// Returns all runs without their entries, in the order of their numbers.
    ///
    /// # Errors
    ///
    /// - `NoMemory`, `Store`: an allocation or the store failed.
    fn runs(&mut self) -> Result<Vec<RunHead>, StoreFault>;

    /// Returns the entries of run `run` with their properties and outputs, in the order of their
    /// positions.
    ///
    /// # Errors
    ///
    /// - `NoRun`: no run has the number.
    /// - `NoMemory`, `Store`: an allocation or the store failed.
    fn entries(&mut self, run: u64) -> Result<Vec<Entry>, StoreFault>;
}

impl<S: Alter> ExampleStore for Results<S> {
    fn begin(&mut self, total: u32, moment: u64) -> Result<u64, StoreFault> {
        Results::begin(self, total, moment)
    }

    fn put(&mut self, run: u64, entry: &Entry) -> Result<(), StoreFault> {
        Results::put(self, run, entry)
    }

    fn finish(&mut self, run: u64) -> Result<(), StoreFault> {
        Results::finish(self, run)
    }

    fn runs(&mut self) -> Result<Vec<RunHead>, StoreFault> {
        Results::runs(self)
    }

    fn entries(&mut self, run: u64) -> Result<Vec<Entry>, StoreFault> {
        Results::entries(self, run)
    }
}

/// An `ExampleStore` over a results store. It reads the entries of a run as reports do: first their
/// outline, then the properties and outputs of one entry at a time.
#[derive(Drop)]
pub struct SplitReadStore<'a, R: ResultStore> {
    /// The results store that executes the calls.
    pub store: &'a mut R,
    /// The allocator of the returned lists of heads and of entries.
    pub alloc: Global,
}

/// Reads the properties and outputs of `entry` of the run `run` from `store`, and appends the
/// completed entry to `entries`.
fn push_full_entry<R: ResultStore>(
    entries: &mut Vec<Entry>,
    store: &mut R,
    run: u64,
    entry: Entry,
) -> Result<(), StoreFault> {
    let pairs = store.properties(run, entry.position)?;
    let outputs = store.outputs(run, entry.position)?;
    let mut whole = entry;
    whole.meta = pairs;
    whole.body = outputs.body;
    whole.cleanup = outputs.cleanup;
    match entries.push(whole) {
        Ok(()) => Ok(()),
        Err(refusal) => Err(StoreFault::from(NoMemory::from(refusal))),
    }
}

/// Appends `head`, the head of a run, to `heads`.
fn push_head(heads: &mut Vec<RunHead>, head: RunHead) -> Result<(), StoreFault> {
    match heads.push(head) {
        Ok(()) => Ok(()),
        Err(refusal) => Err(StoreFault::from(NoMemory::from(refusal))),
    }
}

impl<R: ResultStore> ExampleStore for SplitReadStore<'_, R> {
    fn begin(&mut self, total: u32, moment: u64) -> Result<u64, StoreFault> {
        self.store.begin(total, moment)
    }

    fn put(&mut self, run: u64, entry: &Entry) -> Result<(), StoreFault> {
        self.store.put(run, entry)
    }

    fn finish(&mut self, run: u64) -> Result<(), StoreFault> {
        self.store.finish(run)
    }

    fn runs(&mut self) -> Result<Vec<RunHead>, StoreFault> {
        let mut heads = Vec::new(self.alloc);
        let Some(last) = self.store.head(None)? else {
            return Ok(heads);
        };
        for number in 1..=last.number {
            if let Some(head) = self.store.head(Some(number))? {
                push_head(&mut heads, head)?;
            }
        }
        Ok(heads)
    }

    fn entries(&mut self, run: u64) -> Result<Vec<Entry>, StoreFault> {
        let outline = self.store.outline(run)?;
        let mut entries = Vec::new(self.alloc);
        for entry in outline {
            push_full_entry(&mut entries, self.store, run, entry)?;
        }
        Ok(entries)
    }
}
