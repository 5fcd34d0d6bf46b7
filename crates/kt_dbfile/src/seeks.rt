ghost use Rattle.std.specs.Prelude.{◌≡◌, ◌⊎◌, ◌<◌, ◌≤◌, ℕ, Some, None, drop, length, map, IfOk, IfErr, IfSome, OnOk};
ghost use Rattle.kt_dbfile.specs.Common.{IsNumbered, HoldsForTrees, IsDatabaseFault, OnlyReadsStore, ReadsUnbrokenStore, Run, AreValidRuns, Entry, column, entry_row, key_before, greatest_run_number, outputs_of, run_row, head_of, Serves, Head, Outline, Outputs, Pairs, entries_of, outline_entry, run_at, map_success};
ghost use Rattle.kt_dbfile.specs.Inner.Known.{read_only_spec};

use crate::result_trees::ResultTrees;
use crate::tables::{
    RUNS_TREE, create_entry_key, entry_table, head_from_stored_row, property_table,
};
use crate::trees::{copy_blob, create_number_key, positive_rowid};
use kt_base::{Entry, NoMemory, Output, Variables};
use kt_store::lookup::run_key;
use kt_store::outlines::{outline_from_rows, properties_from_rows};
use kt_store::store_fault::{DatabaseError, ensure_sound};
use kt_store::{CaseOutputs, RunHead, StoreFault};
use sqlite_trees::store::{Shape, Store};
use sqlite_value::row;
use std::alloc::Global;

impl<S: Store> ResultTrees<S> {
    /// Returns the number of the last run, or 0 if there are no runs.
    pub(crate) fn read_last_number(&mut self) -> Result<u64, DatabaseError>
        ensures last { HoldsForTrees S.Store self.old.store self.new.store (λ runs.
            IfOk result (λ n. n ≡ length runs)) }
        ensures looks { ReadsUnbrokenStore S.Store self.old.store self.new.store result }
    {
        let Some(row) = self.read_last_row(RUNS_TREE)? else {
            return Ok(0);
        };
        let number = positive_rowid(&row)?;
        Ok(number)
    }

    /// Returns the head of run `number`, or of the last run if `number` is `None`. A head is a run
    /// without its entries. Returns `None` if there is no such run. Fails if `number` is from 1 to
    /// the number of the last run, but the file lacks this run.
    pub(crate) fn read_head(&mut self, number: Option<u64>) -> Result<Option<RunHead>, StoreFault>
        ensures served { Serves (read_only_spec S.Store) (Head number result) self.old.store
            self.new.store }
        // Holds even in a damaged file: the returned head has the requested number.
        ensures numbered { IfOk result (λ found. IfSome found (IsNumbered number)) }
        ensures failed { IfErr result IsDatabaseFault }
        ensures looks { OnlyReadsStore S.Store self.old.store self.new.store }
    {
        let last = self.read_last_number()?;
        self.check_last_run(last)?;
        let number = number.unwrap_or(last);
        if number == 0 || number > last {
            return Ok(None);
        }
        let head = self.require_head(number)?;
        Ok(Some(head))
    }

    /// Returns the row of run `run` in the table `runs`. Fails with `NoRun` if no run has this
    /// number.
    pub(crate) fn find_run_row(&mut self, run: u64) -> Result<row::Row, StoreFault>
        ensures small { OnOk result (run ≤ greatest_run_number) }
        ensures found { HoldsForTrees S.Store self.old.store self.new.store (λ runs.
            IfOk result (λ row. (r : Run) × (run_at runs run ≡ Some r) × (row ≡ run_row r)
            × AreValidRuns runs)) }
        ensures refused { HoldsForTrees S.Store self.old.store self.new.store (λ runs.
            IfErr result (λ e. IsDatabaseFault e ⊎ ((e ≡ StoreFault.NoRun)
            × (run_at runs run ≡ None)))) }
        ensures looks { ReadsUnbrokenStore S.Store self.old.store self.new.store result }
    {
        let number = run_key(run);
        ensure_sound(self.store.shape(RUNS_TREE) == Shape::Table)?;
        let mut row = row::Row::new(self.alloc);
        if !self.store.get(RUNS_TREE, number as i64, &mut row)? || u64::from(number) != run {
            return Err(StoreFault::NoRun);
        }
        Ok(row)
    }

    /// Returns the head of run `run`. A head is a run without its entries. Fails with `NoRun` if no
    /// run has this number.
    pub(crate) fn find_run_head(&mut self, run: u64) -> Result<RunHead, StoreFault>
        ensures small { OnOk result (run ≤ greatest_run_number) }
        ensures found { HoldsForTrees S.Store self.old.store self.new.store (λ runs.
            IfOk result (λ head. (r : Run) × (run_at runs run ≡ Some r) × (head ≡ head_of r)
            × AreValidRuns runs)) }
        ensures refused { HoldsForTrees S.Store self.old.store self.new.store (λ runs.
            IfErr result (λ e. IsDatabaseFault e ⊎ ((e ≡ StoreFault.NoRun)
            × (run_at runs run ≡ None)))) }
        ensures looks { ReadsUnbrokenStore S.Store self.old.store self.new.store result }
    {
        let row = self.find_run_row(run)?;
        let head = head_from_stored_row(self.alloc, &row)?;
        Ok(head)
    }

    /// Reads the entries of the run with the key `run`, ordered by position, without their
    /// properties and outputs. Returns no entries if there is no such run.
    fn read_outlines(&mut self, run: u32) -> Result<Vec<Entry>, DatabaseError>
        ensures all { HoldsForTrees S.Store self.old.store self.new.store (λ runs.
            IfOk result (λ found. found.items ≡ map outline_entry (entries_of (run_at runs run)))) }
        ensures looks { OnlyReadsStore S.Store self.old.store self.new.store }
    {
        let before = create_number_key(self.alloc, run.saturating_sub(1))?;
        let key = create_number_key(self.alloc, run)?;
        let columns = &[2, 3, 4, 5, 6, 7, 8];
        let rows = self.read_rows_after(&entry_table(), &before, &key, columns)?;
        outline_from_rows(self.alloc, &rows)
    }

    /// Reads the entries of run `run`, ordered by position, without their properties and outputs.
    /// Fails with `NoRun` if no run has this number. Also fails if the run's head or a property
    /// shows that an entry is missing.
    pub(crate) fn read_run_outline(&mut self, run: u64) -> Result<Vec<Entry>, StoreFault>
        ensures served { Serves (read_only_spec S.Store) (Outline run
            (map_success (λ found. found.items) result)) self.old.store self.new.store }
        ensures looks { OnlyReadsStore S.Store self.old.store self.new.store }
    {
        let head = self.find_run_head(run)?;
        let found = self.read_outlines(run_key(run))?;
        self.check_entries(head, &found)?;
        Ok(found)
    }

    /// Reads the properties of the entry at `position` of run `run`, in their recorded order.
    /// Returns no properties if the run has no such entry.
    pub(crate) fn find_properties(
        &mut self,
        run: u64,
        position: u32,
    ) -> Result<Variables, StoreFault>
        ensures served { Serves (read_only_spec S.Store) (Pairs run position result) self.old.store
            self.new.store }
        ensures looks { OnlyReadsStore S.Store self.old.store self.new.store }
    {
        let number = run_key(run);
        let before = key_before_entry(self.alloc, number, position)?;
        let place = create_entry_key(self.alloc, number, position)?;
        let rows = self.read_rows_after(&property_table(), &before, &place, &[4, 5])?;
        Ok(properties_from_rows(self.alloc, &rows)?)
    }

    /// Reads the outputs of the body and the cleanup of the entry at `position` of run `run`. Fails
    /// with `NoRun` if the run has no such entry.
    pub(crate) fn find_outputs(
        &mut self,
        run: u64,
        position: u32,
    ) -> Result<CaseOutputs, StoreFault>
        ensures served { Serves (read_only_spec S.Store) (Outputs run position result)
            self.old.store self.new.store }
        ensures looks { OnlyReadsStore S.Store self.old.store self.new.store }
    {
        let number = run_key(run);
        let place = create_entry_key(self.alloc, number, position)?;
        match self.find_row_by_key(&entry_table(), &place)? {
            Some(row) if u64::from(number) == run => outputs_from_row(self.alloc, &row),
            _ => Err(StoreFault::NoRun),
        }
    }
}

/// Returns a key that sorts before all keys of the entry at `position` of run `run`, in the index
/// of the table `entries` and in that of `props`.
///
/// It is the key of the previous position or, for position 0, of the previous run. For position 0
/// of run 0, which doesn't exist, it is the key of run 0.
fn key_before_entry(alloc: Global, run: u32, position: u32) -> Result<row::Row, NoMemory>
    ensures { IfOk result (λ key. key ≡ key_before run position) }
{
    if position == 0 {
        return create_number_key(alloc, run.saturating_sub(1));
    }
    create_entry_key(alloc, run, position - 1)
}

/// Returns the outputs in `row`, a stored row of the table `entries`. Fails if an output isn't a
/// blob.
fn outputs_from_row(alloc: Global, row: &row::Row) -> Result<CaseOutputs, StoreFault>
    ensures outputs { (n : ℕ) (e : Entry) → drop 1 row.now ≡ entry_row n e
        → IfOk result (λ o. o ≡ outputs_of e) }
    ensures failed { IfErr result IsDatabaseFault }
{
    let out = copy_blob(alloc, row, 9)?;
    let err = copy_blob(alloc, row, 10)?;
    let body = Output { out, err };
    let out = copy_blob(alloc, row, 11)?;
    let err = copy_blob(alloc, row, 12)?;
    let cleanup = Output { out, err };
    Ok(CaseOutputs { body, cleanup })
}
