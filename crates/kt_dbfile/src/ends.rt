//! Checks of the last rows of the tables and of the last keys of their indexes.
//!
//! The checks are made before heads or entries are returned and before a run begins. The indexes
//! must have the last rows, and a run must have its entries. A lost or outdated page then seldom
//! hides a result. The cost of the checks hardly grows with the size of the file.

ghost use Rattle.std.specs.Prelude.{◌≡◌, ◌<◌, ◌≤◌, Some, length, map, option_map, true, IfOk};
ghost use Rattle.kt_dbfile.specs.Common.{AllByRecursion, Entry as Stored, IsAscending, OnlyReadsStore, ReadsUnbrokenStore, HoldsForTrees, Run, is_possible_last_key, head_of, greatest_run_number, outline_entry, run_at};
ghost use Rattle.kt_store.specs.Runs.{IsValidRun};

use crate::result_trees::ResultTrees;
use crate::tables::{
    RUNS_TREE, create_entry_key, entry_table, head_from_stored_row, property_table,
};
use crate::trees::{TreeTable, copy_columns, create_number_key};
use kt_base::{Entry, NoMemory};
use kt_store::RunHead;
use kt_store::lookup::run_key;
use kt_store::store_fault::{DatabaseError, ensure_sound};
use sqlite_trees::store::{Direction, Shape, Store};
use sqlite_value::keys::Order;
use sqlite_value::row::Row;
use sqlite_value::value::ValueRef;
use std::alloc::Global;
use std::cmp::Ordering;

/// A run head with the number 0, which replaces the head of the last run if there are no runs.
pub(crate) const HEAD_BEFORE_FIRST: RunHead = RunHead {
    number: 0,
    started: 0,
    total: 0,
    finished: false,
};

impl<S: Store> ResultTrees<S> {
    /// Finds the greatest key in the index of `table` that is at most `key`, and returns its run
    /// number and position. Both values are NULL if there is no such key. Only as many columns as
    /// `key` has are compared, so an empty `key` finds the greatest key of the index. Fails if the
    /// row of the found key is missing or has another key.
    fn find_last_key(&mut self, table: &TreeTable, key: &Row) -> Result<Row, DatabaseError>
        ensures looks { OnlyReadsStore S.Store self.old.store self.new.store }
    {
        ensure_sound(self.has_expected_shapes(table))?;
        self.store.seek(0, table.index, key, Direction::Backward)?;
        let mut place = Row::new(self.alloc);
        let mut row = Row::new(self.alloc);
        self.read_next_row(table, key, &mut place, &mut row)?;
        Ok(copy_columns(self.alloc, &place, &[0, 1])?)
    }

    /// Returns `true` if the index of `table` has exactly one entry for the key of the table's last
    /// row, or if the table is empty.
    fn is_last_row_indexed(&mut self, table: &TreeTable) -> Result<bool, DatabaseError>
        ensures looks { OnlyReadsStore S.Store self.old.store self.new.store }
    {
        let Some(row) = self.read_last_row(table.tree)? else {
            return Ok(true);
        };
        let own = copy_columns(self.alloc, &row, table.key)?;
        let count = self.count_rows_by_key(table, &own)?;
        Ok(count == 1)
    }

    /// Returns the run number and the position in the greatest key of the index of `table`, or two
    /// NULLs if the index is empty. Fails unless the index has exactly one entry for the key of the
    /// table's last row.
    fn read_last_key(&mut self, table: &TreeTable) -> Result<Row, DatabaseError>
        ensures looks { OnlyReadsStore S.Store self.old.store self.new.store }
    {
        ensure_sound(self.is_last_row_indexed(table)?)?;
        self.find_last_key(table, &Row::new(self.alloc))
    }

    /// Returns `true` if the entry to which a property belongs exists, or if there is no property.
    /// `pair` has the run number and the position of the entry, or two NULLs if there is no
    /// property.
    fn has_entry(&mut self, pair: &Row) -> Result<bool, DatabaseError>
        ensures looks { ReadsUnbrokenStore S.Store self.old.store self.new.store result }
    {
        let count = self.count_rows_by_key(&entry_table(), pair)?;
        Ok(count == 1 || matches!(pair.get(0), ValueRef::Null))
    }

    /// Checks that the index of the table `entries` has the last row of the table. The greatest key
    /// of the index must also agree with `last`, the head of the last run
    /// ([`is_possible_last_key`]). Fails otherwise.
    fn check_last_entry(&mut self, last: RunHead) -> Result<(), DatabaseError>
        ensures looks { OnlyReadsStore S.Store self.old.store self.new.store }
    {
        let end = self.read_last_key(&entry_table())?;
        ensure_sound(is_possible_last_key(self.alloc, &end, last)?)
    }

    /// Checks that the index of the table `props` has the last row of the table. The last property
    /// in the index must also belong to an existing entry. Fails otherwise.
    fn check_last_property(&mut self) -> Result<(), DatabaseError>
        ensures looks { ReadsUnbrokenStore S.Store self.old.store self.new.store result }
    {
        let pair = self.read_last_key(&property_table())?;
        ensure_sound(self.has_entry(&pair)?)
    }

    /// Checks that the indexes of the tables `entries` and `props` have the last rows of the
    /// tables. The greatest key of the first index must agree with `last`, the head of the last
    /// run. The last property in the second index must belong to an existing entry. Fails
    /// otherwise.
    pub(crate) fn check_last_rows(&mut self, last: RunHead) -> Result<(), DatabaseError>
        ensures looks { ReadsUnbrokenStore S.Store self.old.store self.new.store result }
    {
        self.check_last_entry(last)?;
        self.check_last_property()
    }

    /// Returns the head of run `number`, which must exist. A head is a run without its entries.
    /// Fails if the run is missing or its row has another number.
    pub(crate) fn require_head(&mut self, number: u64) -> Result<RunHead, DatabaseError>
        ensures head { HoldsForTrees S.Store self.old.store self.new.store
            (λ runs. IfOk result (λ head. Some head ≡ option_map head_of (run_at runs number))) }
        ensures numbered { IfOk result (λ head. head.number ≡ number) }
        ensures looks { OnlyReadsStore S.Store self.old.store self.new.store }
    {
        ensure_sound(self.store.shape(RUNS_TREE) == Shape::Table)?;
        let mut row = Row::new(self.alloc);
        let key = run_key(number);
        ensure_sound(self.store.get(RUNS_TREE, key as i64, &mut row)?)?;
        let head = head_from_stored_row(self.alloc, &row)?;
        ensure_sound(head.number == number)?;
        Ok(head)
    }

    /// Returns the head of run `last`, or [`HEAD_BEFORE_FIRST`] if `last` is 0.
    fn read_last_head(&mut self, last: u64) -> Result<RunHead, DatabaseError>
        ensures looks { OnlyReadsStore S.Store self.old.store self.new.store }
    {
        if last == 0 {
            return Ok(HEAD_BEFORE_FIRST);
        }
        self.require_head(last)
    }

    /// Checks that the last entry agrees with the head of the last run, and that the last property
    /// belongs to an entry. Fails otherwise, or if the index of the entries or of the properties
    /// lacks the last row. `last` is the number of the last run, or 0 if there are no runs. The
    /// check is made before a run begins and before a head is returned.
    pub(crate) fn check_last_run(&mut self, last: u64) -> Result<(), DatabaseError>
        ensures looks { ReadsUnbrokenStore S.Store self.old.store self.new.store result }
    {
        let head = self.read_last_head(last)?;
        self.check_last_rows(head)
    }

    /// Returns the number of properties of `entries` that are in the index of `table`. `entries`
    /// are entries of run `run`, and `table` is the table `props`.
    fn count_properties(
        &mut self,
        table: &TreeTable,
        run: u32,
        entries: &[Entry],
    ) -> Result<u64, DatabaseError>
        ensures looks { OnlyReadsStore S.Store self.old.store self.new.store }
    {
        let mut count: u64 = 0;
        for entry in entries {
            let place = create_entry_key(self.alloc, run, entry.position)?;
            count = count.saturating_add(self.count_rows_by_key(table, &place)?);
        }
        Ok(count)
    }

    /// Returns `true` if each property of the run with the head `head` belongs to one of `entries`,
    /// the entries of the run. A finished run has all its entries, so only the entry of its last
    /// property is looked up.
    fn properties_have_entries(
        &mut self,
        head: RunHead,
        entries: &[Entry],
    ) -> Result<bool, DatabaseError>
        ensures looks { OnlyReadsStore S.Store self.old.store self.new.store }
    {
        let table = property_table();
        let run = run_key(head.number);
        let place = create_number_key(self.alloc, run)?;
        if head.finished {
            let pair = self.find_last_key(&table, &place)?;
            return self.has_entry(&pair);
        }
        let all = self.count_rows_by_key(&table, &place)?;
        Ok(all == self.count_properties(&table, run, entries)?)
    }

    /// Checks that `entries` can be the complete list of entries of the run with the head `head`.
    /// Fails if the number or the positions of `entries` contradict the head, or if a checked
    /// property of the run has no entry.
    pub(crate) fn check_entries(
        &mut self,
        head: RunHead,
        entries: &[Entry],
    ) -> Result<(), DatabaseError>
        ensures looks { OnlyReadsStore S.Store self.old.store self.new.store }
    {
        ensure_sound(is_possible_entry_list(head, entries))?;
        ensure_sound(self.properties_have_entries(head, entries)?)
    }
}

/// Returns `true` if `end` can be the greatest key of the index of the table `entries`. `last` is
/// the head of the last run. If this run is finished and has cases, `end` must be the key of its
/// last position. Otherwise, `end` must be below the key of the position `last.total`, at which the
/// run can't have an entry.
fn is_possible_last_key(alloc: Global, end: &Row, last: RunHead) -> Result<bool, NoMemory>
    ensures { last.number ≤ greatest_run_number
        → IfOk result (λ is. is ≡ is_possible_last_key last end.now) }
{
    let number = run_key(last.number);
    if last.finished && last.total > 0 {
        let whole = create_entry_key(alloc, number, last.total - 1)?;
        return Ok(end.cmp_prefix(Order::PLAIN, &whole) == Ordering::Equal);
    }
    let past = create_entry_key(alloc, number, last.total)?;
    Ok(end.cmp_prefix(Order::PLAIN, &past) == Ordering::Less)
}

/// Returns `true` if the position of each of `entries` is its index in the list.
fn has_contiguous_positions(entries: &[Entry]) -> bool
    ensures { IsAscending (λ (a b : Stored). a.position < b.position) entries.now
        → AllByRecursion (λ (e : Stored). e.position < length entries.now) entries.now
        → result ≡ true }
{
    for (place, entry) in entries.iter().enumerate() {
        if entry.position as usize != place {
            return false;
        }
    }
    true
}

/// Returns `true` if `entries` can be the complete list of entries of the run with the head `head`.
/// A finished run has an entry at each position below its total. An unfinished run has at most as
/// many entries as its total.
fn is_possible_entry_list(head: RunHead, entries: &[Entry]) -> bool
    ensures { (r : Run) → IsValidRun r → head ≡ head_of r
        → entries.now ≡ map outline_entry r.entries
        → result ≡ true }
{
    let total = head.total as usize;
    if head.finished {
        entries.len() == total && has_contiguous_positions(entries)
    } else {
        entries.len() <= total
    }
}
