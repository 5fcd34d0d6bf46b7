//! Writes runs and entries into the trees of a store, without a commit.

ghost use Rattle.std.specs.Prelude.{◌≡◌, ◌⊎◌, ◌<◌, ◌≤◌, ◌^◌, map, suc, length, Some, None, false, IfOk, IfErr, OnOk};
ghost use Rattle.kt_dbfile.specs.Common.{AllByRecursion, Began, IsValidWithEntry, Finished, HasNoReasonIfPassed, IsComplete, IsMoment, IsEncodableProperty, IsStorable, IsDatabaseFault, IsEncodable, ReadsUnbrokenStore, HoldsForTrees, Put, Run, WritesRows, finished_run_row, entries_of, entry_row, finish_refusal, has_position, greatest_run_number, owned, pair_row, pair_rows_from, put_refusal, run_at, run_row, row_without_rowid};
ghost use Rattle.sqlite_trees.specs.View.{IsClean};
ghost use Rattle.sqlite_catalog.specs.Listing.{IsSound};

use crate::result_trees::ResultTrees;
use crate::rules::TableEdit;
use crate::tables::{
    ENTRIES_AT, PROPS_AT, RUNS_AT, create_entry_key, entry_table, head_from_stored_row,
};
use crate::trees::create_number_key;
use kt_base::{Entry, NoMemory, Text, Variable};
use kt_store::StoreFault;
use kt_store::heads::push_item;
use kt_store::lookup::{MAX_RUNS, run_key};
use kt_store::put::{check_put, copy_reason_text};
use kt_store::run_rows::check_finish;
use kt_store::store_fault::DatabaseError;
use kt_store::value::{blob_value, int_value, kind_code, text_value};
use sqlite_rules::error::Rowids;
use sqlite_schema::schema::Schema;
use sqlite_trees::store::{Alter, Store};
use sqlite_value::row::Row;
use sqlite_value::value::ValueRef;
use std::alloc::Global;
use std::slice;

impl<S: Alter> ResultTrees<S> {
    /// Returns the number of the next run. Fails with `StoreFull` if there are 1,000,000 runs. Also
    /// fails if the last entry or the last property is damaged, as [`ResultTrees::check_last_run`]
    /// checks.
    fn find_next_number(&mut self) -> Result<u64, StoreFault>
        ensures number { HoldsForTrees S.Store self.old.store self.new.store (λ runs.
            IfOk result (λ n. (n ≡ suc (length runs)) × (length runs < greatest_run_number))) }
        ensures refused { HoldsForTrees S.Store self.old.store self.new.store (λ runs.
            IfErr result (λ e. IsDatabaseFault e ⊎ ((e ≡ StoreFault.StoreFull)
            × (greatest_run_number ≤ length runs)))) }
        ensures looks { ReadsUnbrokenStore S.Store self.old.store self.new.store result }
    {
        let last = self.read_last_number()?;
        self.check_last_run(last)?;
        if last >= u64::from(MAX_RUNS) {
            return Err(StoreFault::StoreFull);
        }
        Ok(last + 1)
    }

    /// Writes an unfinished run after the last run, without a commit, and returns its number. The
    /// run has `total` selected cases, and starts at `moment`, in milliseconds since 1970-01-01
    /// UTC, up to the end of the year 9999. Fails with `StoreFull` if there are 1,000,000 runs.
    pub(crate) fn write_run(
        &mut self,
        schema: &Schema,
        total: u32,
        moment: u64,
    ) -> Result<u64, StoreFault>
        requires moment { IsMoment moment }
        requires sound { IsClean (S.Store.view self.old.store)
            → (S.Store.view self.old.store).is_broken ≡ false
            → IsSound schema.now (S.Store.view self.old.store).trees }
        ensures { WritesRows S.Store schema.now (λ r. Began total moment r) self.old.store
            self.new.store result }
    {
        let number = self.find_next_number()?;
        let row = create_row(
            self.alloc,
            &[
                ValueRef::Null,
                ValueRef::Null,
                int_value(moment),
                int_value(u64::from(total)),
                int_value(0),
            ],
        )?;
        let edit = TableEdit {
            table_index: RUNS_AT,
            removed_rowids: &[],
            rowids: Rowids::Chosen,
            first_column: 0,
            sources: slice::from_ref(&row),
        };
        self.put_rows(schema, edit)?;
        Ok(number)
    }

    /// Returns `true` if run `run` has an entry at `position`.
    fn has_entry_at(&mut self, run: u32, position: u32) -> Result<bool, DatabaseError>
        ensures found { HoldsForTrees S.Store self.old.store self.new.store (λ runs.
            IfOk result (λ b. b ≡ has_position position (entries_of (run_at runs run)))) }
        ensures looks { ReadsUnbrokenStore S.Store self.old.store self.new.store result }
    {
        let place = create_entry_key(self.alloc, run, position)?;
        let count = self.count_rows_by_key(&entry_table(), &place)?;
        Ok(count > 0)
    }

    /// Checks that `entry` can be added to the run with the number `run`. The run must exist and be
    /// unfinished, and the entry's position must be valid and free. Fails with the first of
    /// `NoRun`, `RunClosed`, `BadPosition` and `RepeatedPosition` that applies.
    fn check_can_put(&mut self, run: u64, entry: &Entry) -> Result<(), StoreFault>
        ensures small { OnOk result (run ≤ greatest_run_number) }
        ensures refused { HoldsForTrees S.Store self.old.store self.new.store (λ runs.
            IfErr result (λ e. IsDatabaseFault e ⊎ (put_refusal runs run entry.now ≡ Some e))) }
        ensures accepted { HoldsForTrees S.Store self.old.store self.new.store (λ runs.
            OnOk result (HasNoReasonIfPassed entry.now → (put_refusal runs run entry.now ≡ None)
            × IsValidWithEntry run entry.now runs)) }
        ensures looks { ReadsUnbrokenStore S.Store self.old.store self.new.store result }
    {
        let head = self.find_run_head(run)?;
        let is_taken = self.has_entry_at(run_key(run), entry.position)?;
        check_put(head.finished, head.total, entry.position, is_taken)
    }

    /// Writes `entry` and its properties to the run with the number `run`, without a commit, after
    /// a check that the run accepts `entry`. Fails with the first of `NoRun`, `RunClosed`,
    /// `BadPosition` and `RepeatedPosition` that applies.
    pub(crate) fn write_entry(
        &mut self,
        schema: &Schema,
        run: u64,
        entry: &Entry,
    ) -> Result<(), StoreFault>
        requires moments { IsStorable entry.now }
        requires sound { IsClean (S.Store.view self.old.store)
            → (S.Store.view self.old.store).is_broken ≡ false
            → IsSound schema.now (S.Store.view self.old.store).trees }
        ensures { WritesRows S.Store schema.now (λ r. Put run entry.now r) self.old.store
            self.new.store result }
    {
        let reason = copy_reason_text(self.alloc, entry)?;
        self.check_can_put(run, entry)?;
        let number = run_key(run);
        let row = create_entry_row(self.alloc, number, entry, &reason)?;
        let edit = TableEdit {
            table_index: ENTRIES_AT,
            removed_rowids: &[],
            rowids: Rowids::Chosen,
            first_column: 0,
            sources: slice::from_ref(&row),
        };
        self.put_rows(schema, edit)?;
        let meta = entry.meta.as_slice();
        let pairs = create_property_rows(self.alloc, number, entry.position, meta)?;
        let edit = TableEdit {
            table_index: PROPS_AT,
            removed_rowids: &[],
            rowids: Rowids::Chosen,
            first_column: 0,
            sources: pairs.as_slice(),
        };
        self.put_rows(schema, edit)?;
        Ok(())
    }

    /// Returns the number of entries of run `run`.
    fn count_run_entries(&mut self, run: u32) -> Result<u64, DatabaseError>
        ensures count { HoldsForTrees S.Store self.old.store self.new.store (λ runs.
            IfOk result (λ n. n ≡ length (entries_of (run_at runs run)))) }
        ensures looks { ReadsUnbrokenStore S.Store self.old.store self.new.store result }
    {
        let place = create_number_key(self.alloc, run)?;
        let count = self.count_rows_by_key(&entry_table(), &place)?;
        Ok(count)
    }

    /// Checks that the run with the number `run` can be finished, and returns its row in the table
    /// `runs`. A run can be finished once if it has an entry for each selected case. Fails with the
    /// first of `NoRun`, `RunClosed` and `Incomplete` that applies.
    fn check_can_finish(&mut self, run: u64) -> Result<Row, StoreFault>
        ensures small { OnOk result (run ≤ greatest_run_number) }
        ensures refused { HoldsForTrees S.Store self.old.store self.new.store (λ runs.
            IfErr result (λ e. IsDatabaseFault e ⊎ (finish_refusal runs run ≡ Some e))) }
        ensures accepted { HoldsForTrees S.Store self.old.store self.new.store (λ runs.
            IfOk result (λ row. (r : Run) × (run_at runs run ≡ Some r) × (row ≡ run_row r)
            × (finish_refusal runs run ≡ None) × IsComplete run runs)) }
        ensures looks { ReadsUnbrokenStore S.Store self.old.store self.new.store result }
    {
        let row = self.find_run_row(run)?;
        let head = head_from_stored_row(self.alloc, &row)?;
        let count = self.count_run_entries(run_key(run))?;
        check_finish(head.finished, head.total, count)?;
        Ok(row)
    }

    /// Marks the run with the number `run` as finished, in its row of the table `runs`, without a
    /// commit. Fails with the first of `NoRun`, `RunClosed` and `Incomplete` that applies.
    pub(crate) fn mark_run_finished(&mut self, schema: &Schema, run: u64) -> Result<(), StoreFault>
        requires sound { IsClean (S.Store.view self.old.store)
            → (S.Store.view self.old.store).is_broken ≡ false
            → IsSound schema.now (S.Store.view self.old.store).trees }
        ensures { WritesRows S.Store schema.now (λ r. Finished run r) self.old.store
            self.new.store result }
    {
        let row = self.check_can_finish(run)?;
        let done = create_finished_row(self.alloc, &row)?;
        let removed_rowids = [run_key(run) as i64];
        let edit = TableEdit {
            table_index: RUNS_AT,
            removed_rowids: &removed_rowids,
            rowids: Rowids::Given,
            first_column: 1,
            sources: slice::from_ref(&done),
        };
        self.put_rows(schema, edit)?;
        Ok(())
    }
}

/// Creates a row with the values `values`, in the same order.
fn create_row(alloc: Global, values: &[ValueRef<'_>]) -> Result<Row, NoMemory>
    ensures { IfOk result (λ row. row ≡ map owned values.now) }
{
    let mut row = Row::new(alloc);
    for value in values {
        row.push(*value)?;
    }
    Ok(row)
}

/// Creates the row of the property `pair` for the table `props`, with NULL in place of the rowid.
/// `place` is the index of `pair` among the properties of the entry at `position` of run `run`.
fn create_property_row(
    alloc: Global,
    run: u32,
    position: u32,
    place: u64,
    pair: &Variable,
) -> Result<Row, NoMemory>
    requires { place < 2 ^ 63 }
    ensures row { IfOk result (λ row. row ≡ row_without_rowid (pair_row run position place
        pair.now)) }
    ensures texts { IsEncodableProperty pair.now }
{
    create_row(
        alloc,
        &[
            ValueRef::Null,
            int_value(u64::from(run)),
            int_value(u64::from(position)),
            int_value(place),
            text_value(&pair.name),
            text_value(&pair.value),
        ],
    )
}

/// Creates the rows of `pairs` for the table `props`, with NULL in place of the rowid. `pairs` are
/// the properties of the entry at `position` of run `run`, in order.
fn create_property_rows(
    alloc: Global,
    run: u32,
    position: u32,
    pairs: &[Variable],
) -> Result<Vec<Row>, NoMemory>
    ensures rows { IfOk result (λ rows. rows.items
        ≡ map row_without_rowid (pair_rows_from run position 0 pairs.now)) }
    ensures texts { OnOk result (AllByRecursion IsEncodableProperty pairs.now) }
{
    let mut rows = Vec::new(alloc);
    let mut place = 0u64;
    for pair in pairs {
        let row = create_property_row(alloc, run, position, place, pair)?;
        push_item(&mut rows, row)?;
        place += 1;
    }
    Ok(rows)
}

/// Creates the row of the entry `entry` of run `run` for the table `entries`, with NULL in place of
/// the rowid. `reason` is the text of the reason of the entry's verdict.
fn create_entry_row<'a>(
    alloc: Global,
    run: u32,
    entry: &'a Entry,
    reason: &'a Text,
) -> Result<Row, NoMemory>
    requires reason { reason.now ≡ entry.now.verdict.reason }
    requires moments { IsStorable entry.now }
    ensures row { IfOk result (λ row. row ≡ row_without_rowid (entry_row run entry.now)) }
    ensures texts { IsEncodable entry.now.program × IsEncodable entry.now.case_name
        × IsEncodable entry.now.verdict.reason }
{
    create_row(
        alloc,
        &[
            ValueRef::Null,
            int_value(u64::from(run)),
            int_value(u64::from(entry.position)),
            text_value(&entry.program),
            text_value(&entry.case_name),
            int_value(kind_code(entry.verdict.kind())),
            text_value(reason),
            int_value(entry.started),
            int_value(entry.millis),
            blob_value(&entry.body.out),
            blob_value(&entry.body.err),
            blob_value(&entry.cleanup.out),
            blob_value(&entry.cleanup.err),
        ],
    )
}

/// Creates the row of a finished run from `row`, the row of the run while it is unfinished. The
/// created row has the rowid as an extra first column, which the edit of the table skips.
fn create_finished_row(alloc: Global, row: &Row) -> Result<Row, NoMemory>
    ensures { (r : Run) → row.now ≡ run_row r → IfOk result (λ done. done ≡ finished_run_row r) }
{
    create_row(
        alloc,
        &[
            row.get(0),
            row.get(0),
            ValueRef::Null,
            row.get(2),
            row.get(3),
            int_value(1),
        ],
    )
}
