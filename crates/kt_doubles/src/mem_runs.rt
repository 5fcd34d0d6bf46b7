use crate::entry_copies::{copy_entry_outlines, copy_full_entry, copy_outputs};
use kt_base::{Entry, Items, NoMemory, Run, Variables};
use kt_store::put::check_put;
use kt_store::run_rows::check_finish;
use kt_store::{CaseOutputs, ResultStore, RunHead, StoreFault, StoreSpec};
use std::alloc::Global;
use std::marker::Model;
use std::mem;

/// The maximum number of runs in a store (this profile).
const RUN_LIMIT: usize = 1_000_000;

/// A store of recorded runs in memory.
///
/// In contracts, the value of a `MemRuns` is the list of its runs. The number of a run is its index
/// in the list plus 1.
#[derive(Drop)]
pub struct MemRuns {
    runs: Vec<Run>,
    alloc: Global,
}

impl Model for MemRuns {
    ghost use Rattle.std.specs.Prelude.{List};
    ghost use Rattle.kt_base.specs.declared.entry.Run.{Run};

    ghost Value = { List Run };

    ghost view = { λ m. m.runs.items };
}

impl MemRuns {
    ghost use Rattle.std.specs.Prelude.{◌≡◌, ◌==◌, [], IfSome, length, option_map, unwrap_or};
    ghost use Rattle.kt_base.specs.declared.entry.Run.{Run};
    ghost use Rattle.kt_doubles.specs.Common.{Began, Put, Finished, IsNumbered, Outline, Pairs, Outputs, find, head_of, map_success, FindsRunIndex, ServesInMemory};

    /// Creates a store without runs. Allocates nothing.
    pub fn new(alloc: Global) -> MemRuns
        ensures { result ≡ [] }
    {
        MemRuns {
            runs: Vec::new(alloc),
            alloc,
        }
    }

    /// Appends an unfinished run of `total` cases without entries, and returns its number. `moment`
    /// is its start, in milliseconds since 1970-01-01 UTC.
    ///
    /// Fails with `StoreFull` if there are 1,000,000 runs, and with `NoMemory` if the allocation
    /// fails.
    fn add_run(&mut self, total: u32, moment: u64) -> Result<u64, StoreFault>
        ensures { ServesInMemory self.old (Began total moment result) self.new }
    {
        let count = self.runs.len();
        if count >= RUN_LIMIT {
            return Err(StoreFault::StoreFull);
        }
        let number = count as u64 + 1;
        let run = Run {
            number,
            started: moment,
            total,
            finished: false,
            entries: Items::new(self.alloc),
        };
        match self.runs.push(run) {
            Ok(()) => Ok(number),
            Err(refusal) => Err(convert_no_memory(NoMemory::from(refusal))),
        }
    }

    /// Returns the index of run `number` in the store's list of runs.
    ///
    /// Fails with `NoRun` if there is no such run.
    fn run_index(&self, number: u64) -> Result<usize, StoreFault>
        ensures { FindsRunIndex self.now number result }
    {
        if number == 0 || number > self.runs.len() as u64 {
            return Err(StoreFault::NoRun);
        }
        Ok((number - 1) as usize)
    }

    /// Inserts a copy of an entry into run `number`, in the order of positions.
    ///
    /// Fails with `NoRun` if there is no such run, and with the error of [`check_put`] if the
    /// run rejects the entry. Fails with `NoMemory` if an allocation fails.
    fn put_entry(&mut self, number: u64, entry: &Entry) -> Result<(), StoreFault>
        ensures { ServesInMemory self.old (Put number entry.now result) self.new }
    {
        let place = self.run_index(number)?;
        let alloc = self.alloc;
        let run = &mut self.runs[place];
        let is_taken = has_position(run.entries.as_slice(), entry.position);
        check_put(run.finished, run.total, entry.position, is_taken)?;
        if let Err(refusal) = insert_entry_copy(alloc, &mut run.entries, entry) {
            return Err(convert_no_memory(refusal));
        }
        Ok(())
    }

    /// Marks run `number` as finished.
    ///
    /// Fails with `NoRun` if there is no such run, and with the error of [`check_finish`] if
    /// the run can't be finished.
    fn finish_run(&mut self, number: u64) -> Result<(), StoreFault>
        ensures { ServesInMemory self.old (Finished number result) self.new }
    {
        let place = self.run_index(number)?;
        let run = &mut self.runs[place];
        let count = run.entries.len() as u64;
        check_finish(run.finished, run.total, count)?;
        run.finished = true;
        Ok(())
    }

    /// Returns the entries of run `number`, without their properties and outputs. Fails with
    /// `NoRun` if there is no such run, and with `NoMemory` if an allocation fails.
    fn copy_outline(&self, number: u64) -> Result<Vec<Entry>, StoreFault>
        ensures { ServesInMemory self.now
            (Outline number (map_success (λ found. found.items) result)) self.now }
    {
        let place = self.run_index(number)?;
        match copy_entry_outlines(self.alloc, self.runs[place].entries.as_slice()) {
            Ok(entries) => Ok(entries),
            Err(refusal) => Err(convert_no_memory(refusal)),
        }
    }

    /// Returns the properties of the entry at `position` of run `number`. Returns no properties if
    /// there is no such run or entry. Fails with `NoMemory` if an allocation fails.
    fn copy_properties(&self, number: u64, position: u32) -> Result<Variables, StoreFault>
        ensures { ServesInMemory self.now (Pairs number position result) self.now }
    {
        let Ok(place) = self.run_index(number) else {
            return Ok(Variables::new(self.alloc));
        };
        let Some(entry) = entry_at(self.runs[place].entries.as_slice(), position) else {
            return Ok(Variables::new(self.alloc));
        };
        match entry.meta.copy() {
            Ok(pairs) => Ok(pairs),
            Err(refusal) => Err(convert_no_memory(refusal)),
        }
    }

    /// Returns the outputs of the entry at `position` of run `number`.
    ///
    /// Fails with `NoRun` if there is no such run or entry, and with `NoMemory` if an allocation
    /// fails.
    fn copy_outputs_at(&self, number: u64, position: u32) -> Result<CaseOutputs, StoreFault>
        ensures { ServesInMemory self.now (Outputs number position result) self.now }
    {
        let place = self.run_index(number)?;
        let Some(entry) = entry_at(self.runs[place].entries.as_slice(), position) else {
            return Err(StoreFault::NoRun);
        };
        match copy_outputs(entry) {
            Ok(outputs) => Ok(outputs),
            Err(refusal) => Err(convert_no_memory(refusal)),
        }
    }

    /// Returns the head of run `number`, or of the last run if `number` is `None`. Returns `None`
    /// if there is no such run.
    fn select_head(&self, number: Option<u64>) -> Option<RunHead>
        ensures found { result ≡ option_map head_of (find (λ (r : Run). r.number
            == unwrap_or number (length self.now)) self.now) }
        ensures numbered { IfSome result (IsNumbered number) }
    {
        let run = find_run(&self.runs, number.unwrap_or(self.runs.len() as u64))?;
        Some(run_head(run))
    }
}

impl StoreSpec for MemRuns {
    ghost use Rattle.std.specs.Prelude.{◌≡◌, ⊤};
    ghost use Rattle.kt_doubles.specs.Common.{AreNumbered, AreOrdered};

    // Each call has its own contract, so this relation is trivial.
    ghost answers = { λ _ _ _. Unit {0} };

    ghost stands = { λ m runs. (m ≡ runs) × AreNumbered 1 runs × AreOrdered runs };

    ghost sound = { λ m. ⊤ };

    // A crash leaves no runs at all, so it can't leave wrong runs.
    ghost leaves = { λ m may. ⊤ };

    ghost numbered = { λ m runs h. h.1 };

    ghost ordered = { λ m runs h sound. h.2 };
}

impl ResultStore for MemRuns {
    fn begin(&mut self, total: u32, moment: u64) -> Result<u64, StoreFault> {
        self.add_run(total, moment)
    }

    fn put(&mut self, run: u64, entry: &Entry) -> Result<(), StoreFault> {
        self.put_entry(run, entry)
    }

    fn finish(&mut self, run: u64) -> Result<(), StoreFault> {
        self.finish_run(run)
    }

    fn head(&mut self, number: Option<u64>) -> Result<Option<RunHead>, StoreFault> {
        Ok(self.select_head(number))
    }

    fn outline(&mut self, run: u64) -> Result<Vec<Entry>, StoreFault> {
        self.copy_outline(run)
    }

    fn properties(&mut self, run: u64, position: u32) -> Result<Variables, StoreFault> {
        self.copy_properties(run, position)
    }

    fn outputs(&mut self, run: u64, position: u32) -> Result<CaseOutputs, StoreFault> {
        self.copy_outputs_at(run, position)
    }
}

ghost use Rattle.std.specs.Prelude.{◌≡◌, ◌≤◌, ◌==◌, IfSome, length, insert, OnOk, OnErr};
ghost use Rattle.kt_doubles.specs.Common.{find, option_copied, IsDatabaseFault, head_of, has_position, insert_by_position, insert_index};
ghost use Rattle.kt_base.specs.declared.entry.Entry.{Entry as Recorded};
ghost use Rattle.kt_base.specs.declared.entry.Run.{Run as RunValue};

/// Converts the failed allocation `refusal` to the error that a store returns for it.
fn convert_no_memory(refusal: NoMemory) -> StoreFault
    ensures { IsDatabaseFault result }
{
    StoreFault::from(refusal)
}

/// Returns the head of a run, which is the run without its entries.
fn run_head(run: &Run) -> RunHead
    ensures { result ≡ head_of run.now }
{
    RunHead {
        number: run.number,
        started: run.started,
        total: run.total,
        finished: run.finished,
    }
}

/// Returns the first of `runs` with the number `number`, or `None` if there is no such run.
fn find_run(runs: &[Run], number: u64) -> Option<&Run>
    ensures found { option_copied result ≡ find (λ (r : RunValue). r.number == number) runs.now }
    ensures numbered { IfSome (option_copied result) (λ r. r.number ≡ number) }
{
    runs.iter().find(|run| run.number == number)
}

/// Returns the index in `entries` at which an entry with the position `position` is inserted.
///
/// The index is the number of entries before the first entry with a greater position, or of all
/// entries if there is no such entry.
fn insert_index(entries: &[Entry], position: u32) -> usize
    ensures { result ≡ insert_index position entries.now }
{
    let mut place = 0;
    for entry in entries {
        if position < entry.position {
            return place;
        }
        place += 1;
    }
    place
}

/// Inserts `entry` into `entries`, before the first entry with a greater position. If the
/// allocation fails, `entries` is unchanged.
fn insert_entry(alloc: Global, entries: &mut Items<Entry>, entry: Entry) -> Result<(), NoMemory>
    ensures ok { OnOk result (entries.new ≡ insert_by_position entry entries.old) }
    ensures err { OnErr result (entries.new ≡ entries.old) }
{
    let mut kept = mem::replace(entries, Items::new(alloc)).into_vec();
    let place = insert_index(&kept, entry.position);
    let inserted = kept.insert(place, entry);
    *entries = Items::from_vec(kept);
    inserted?;
    Ok(())
}

/// Inserts a copy of `entry` into `entries`, before the first entry with a greater position. If an
/// allocation fails, `entries` is unchanged.
fn insert_entry_copy(
    alloc: Global,
    entries: &mut Items<Entry>,
    entry: &Entry,
) -> Result<(), NoMemory>
    ensures ok { OnOk result (entries.new ≡ insert_by_position entry.now entries.old) }
    ensures err { OnErr result (entries.new ≡ entries.old) }
{
    let copy = copy_full_entry(alloc, entry)?;
    insert_entry(alloc, entries, copy)?;
    Ok(())
}

/// Returns the first of `entries` with the position `position`, or `None` if there is no such
/// entry.
fn entry_at(entries: &[Entry], position: u32) -> Option<&Entry>
    ensures { option_copied result ≡ find (λ (e : Recorded). e.position == position) entries.now }
{
    entries.iter().find(|x| x.position == position)
}

/// Returns `true` if one of `entries` has the position `position`.
fn has_position(entries: &[Entry], position: u32) -> bool
    ensures { result ≡ has_position position entries.now }
{
    entries.iter().any(|x| x.position == position)
}
