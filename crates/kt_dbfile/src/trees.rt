ghost use Rattle.std.specs.Prelude.{◌≡◌, ◌++◌, ◌<◌, ℕ, ℤ, pos, List, [], ◌∷◌, map, length, false, Some, IsSome, IsTrue, IfOk, OnOk};
ghost use Rattle.std.specs.List.{list_all};
ghost use Rattle.kt_dbfile.specs.Common.{Blob, column, Int, AreWide, FindsFirstUnderKey, CursorReturns, OnlyReadsStore, ReadsUnbrokenStore, SelectsUnderKey, CountsUnderKey, is_blob, selected_columns};
ghost use Rattle.sqlite_exec.specs.Calls.{OnlyReads};
ghost use Rattle.sqlite_exec.specs.Loops.{left_of};
ghost use Rattle.sqlite_trees.specs.Tree.{rowid};
ghost use Rattle.sqlite_trees.specs.View.{IsClean};
ghost use Rattle.sqlite_trees.specs.declared.store.Shape.TheVariants as kind;
ghost use Rattle.sqlite_value.specs.Keys.{plain};
ghost use Rattle.sqlite_value.specs.Order.{Row as Values};

use crate::result_trees::ResultTrees;
use kt_base::{Bytes, NoMemory};
use kt_store::heads::push_item;
use kt_store::store_fault::{DATABASE_FAILURE, DatabaseError, ensure_sound, require_present};
use kt_store::value::int_value;
use sqlite::Row;
use sqlite_exec::work::FromRow;
use sqlite_trees::store::{Direction, Shape, Store};
use sqlite_value::keys::Order;
use sqlite_value::row;
use sqlite_value::value::ValueRef;
use std::alloc::Global;
use std::cmp::Ordering;

/// A description of a table and of the index of its key, by the numbers of their B-trees.
#[derive(Clone, Copy)]
pub(crate) struct TreeTable<'a> {
    /// The number of the B-tree of the table: its position in the schema list, from 0.
    pub(crate) tree: u32,
    /// The number of the B-tree of the index of the table's key.
    pub(crate) index: u32,
    /// The indexes of the key's columns in a stored row, which has the rowid at index 0.
    pub(crate) key: &'a [usize],
    /// The indexes of the blob columns in a stored row, which has the rowid at index 0.
    pub(crate) blobs: &'a [usize],
}

impl<S: Store> ResultTrees<S> {
    /// Returns `true` if the two B-trees of `table` have the expected shapes. The first must be the
    /// tree of a table. The second must be the tree of an index whose columns ascend by their
    /// bytes.
    pub(crate) fn has_expected_shapes(&self, table: &TreeTable) -> bool
        ensures table { IsTrue result
            → (S.Store.view self.now.store).shape table.now.tree ≡ kind.Table }
        ensures index { IsTrue result
            → (S.Store.view self.now.store).shape table.now.index ≡ kind.Index plain }
    {
        self.store.shape(table.tree) == Shape::Table
            && self.store.shape(table.index) == Shape::Index(Order::PLAIN)
    }

    /// Reads the next index entry of the store's cursor 0 into `place`, and the row of this entry
    /// into `row`. Returns `true` if the entry begins with `key`, and `false` if it doesn't or if
    /// there is no entry. Fails if the row is missing, if it has another key than the entry, or if
    /// a blob column of the row has no blob.
    pub(crate) fn read_next_row(
        &mut self,
        table: &TreeTable,
        key: &row::Row,
        place: &mut row::Row,
        row: &mut row::Row,
    ) -> Result<bool, DatabaseError>
        requires cursor { IsSome ((S.Store.view self.old.store).cursors 0) }
        requires table { (S.Store.view self.old.store).shape table.now.tree ≡ kind.Table }
        ensures goes { IfOk result (λ is_ours. IsClean (S.Store.view self.new.store)
            → CursorReturns key.now ((S.Store.view self.old.store).trees table.now.tree)
            (left_of (S.Store.view self.old.store) 0) place.new row.new
            (left_of (S.Store.view self.new.store) 0) is_ours) }
        ensures live { OnOk result (IsSome ((S.Store.view self.new.store).cursors 0)) }
        ensures reads { OnOk result (IsClean (S.Store.view self.new.store)
            → OnlyReads (S.Store.view self.old.store) (S.Store.view self.new.store)) }
        ensures looks { OnlyReadsStore S.Store self.old.store self.new.store }
    {
        if !self.store.next(0, place)? {
            return Ok(false);
        }
        let id = require_present(index_entry_rowid(place))?;
        ensure_sound(self.store.get(table.tree, id, row)?)?;
        let own = copy_columns(self.alloc, row, table.key)?;
        if place.cmp_prefix(Order::PLAIN, &own) != Ordering::Equal || !has_blobs(row, table.blobs) {
            return Err(DATABASE_FAILURE);
        }
        Ok(place.cmp_prefix(Order::PLAIN, key) == Ordering::Equal)
    }

    /// Returns the first row of a table whose index entry begins with `key`, or `None` if there is
    /// no such row. Reads at most one row.
    pub(crate) fn find_row_by_key(
        &mut self,
        table: &TreeTable,
        key: &row::Row,
    ) -> Result<Option<row::Row>, DatabaseError>
        ensures found { IfOk result (λ found. IsClean (S.Store.view self.new.store)
            → FindsFirstUnderKey table.now.tree table.now.index key.now
            (S.Store.view self.old.store).trees found) }
        ensures sound { OnOk result (IsClean (S.Store.view self.new.store)
            → (S.Store.view self.old.store).is_broken ≡ false) }
        ensures looks { OnlyReadsStore S.Store self.old.store self.new.store }
    {
        ensure_sound(self.has_expected_shapes(table))?;
        self.store.seek(0, table.index, key, Direction::Forward)?;
        let mut place = row::Row::new(self.alloc);
        let mut row = row::Row::new(self.alloc);
        if !self.read_next_row(table, key, &mut place, &mut row)? {
            return Ok(None);
        }
        Ok(Some(row))
    }

    /// Reads the values in `columns` of each row whose index entry begins with `key`, in the order
    /// of the index. Keeps at most one stored row in memory at a time.
    fn read_rows_by_key(
        &mut self,
        table: &TreeTable,
        key: &row::Row,
        columns: &[usize],
    ) -> Result<Vec<Row>, DatabaseError>
        ensures all { IfOk result (λ rows. IsClean (S.Store.view self.new.store)
            → SelectsUnderKey table.now.tree table.now.index key.now columns.now
            (S.Store.view self.old.store).trees rows.items) }
        ensures wide { IfOk result (λ rows. AreWide (length columns.now) rows.items) }
        ensures sound { OnOk result (IsClean (S.Store.view self.new.store)
            → (S.Store.view self.old.store).is_broken ≡ false) }
        ensures looks { OnlyReadsStore S.Store self.old.store self.new.store }
    {
        ensure_sound(self.has_expected_shapes(table))?;
        self.store.seek(0, table.index, key, Direction::Forward)?;
        let mut place = row::Row::new(self.alloc);
        let mut row = row::Row::new(self.alloc);
        let mut rows = Vec::new(self.alloc);
        // A faulty disk could keep a cursor going, so the loop counts.
        'places: for _ in 0..u64::MAX {
            // Read one entry past the last match: if it is damaged, its row could be a match.
            if !self.read_next_row(table, key, &mut place, &mut row)? {
                return Ok(rows);
            }
            let selected = select_columns(self.alloc, &row, columns)?;
            push_item(&mut rows, selected)?;
        }
        Err(DATABASE_FAILURE)
    }

    /// Reads the values in `columns` of each row whose index entry begins with `key`, in the order
    /// of the index. First reads the row of the last index entry at or before the key `before`.
    /// Fails if this row is missing or has another key than the entry, since it could belong to
    /// `key`.
    pub(crate) fn read_rows_after(
        &mut self,
        table: &TreeTable,
        before: &row::Row,
        key: &row::Row,
        columns: &[usize],
    ) -> Result<Vec<Row>, DatabaseError>
        ensures all { IfOk result (λ rows. IsClean (S.Store.view self.new.store)
            → SelectsUnderKey table.now.tree table.now.index key.now columns.now
            (S.Store.view self.old.store).trees rows.items) }
        ensures wide { IfOk result (λ rows. AreWide (length columns.now) rows.items) }
        ensures sound { OnOk result (IsClean (S.Store.view self.new.store)
            → (S.Store.view self.old.store).is_broken ≡ false) }
        ensures looks { OnlyReadsStore S.Store self.old.store self.new.store }
    {
        ensure_sound(self.has_expected_shapes(table))?;
        self.store
            .seek(0, table.index, before, Direction::Backward)?;
        let mut place = row::Row::new(self.alloc);
        let mut row = row::Row::new(self.alloc);
        self.read_next_row(table, before, &mut place, &mut row)?;
        self.read_rows_by_key(table, key, columns)
    }

    /// Returns the number of a table's index entries that begin with `key`.
    pub(crate) fn count_rows_by_key(
        &mut self,
        table: &TreeTable,
        key: &row::Row,
    ) -> Result<u64, DatabaseError>
        ensures counted { IfOk result (λ n. IsClean (S.Store.view self.new.store)
            → CountsUnderKey table.now.tree table.now.index key.now
            (S.Store.view self.old.store).trees n) }
        ensures looks { ReadsUnbrokenStore S.Store self.old.store self.new.store result }
    {
        ensure_sound(self.has_expected_shapes(table))?;
        self.store.seek(0, table.index, key, Direction::Forward)?;
        let mut place = row::Row::new(self.alloc);
        // A faulty disk could keep a cursor going, so the loop counts.
        'places: for count in 0..u64::MAX {
            if !self.store.next(0, &mut place)? {
                return Ok(count);
            }
            if place.cmp_prefix(Order::PLAIN, key) != Ordering::Equal {
                return Ok(count);
            }
        }
        Err(DATABASE_FAILURE)
    }
}

/// Copies the bytes of the blob in column `at` of a stored row. Fails if the column isn't a blob.
pub(crate) fn copy_blob(alloc: Global, row: &row::Row, at: usize) -> Result<Bytes, DatabaseError>
    ensures bytes { (b : List ℕ) → column row.now at ≡ Blob b → IfOk result (λ x. x ≡ b) }
{
    match row.get(at) {
        ValueRef::Blob(bytes) => {
            let copy = Bytes::from_slice(alloc, bytes)?;
            Ok(copy)
        }
        _ => Err(DATABASE_FAILURE),
    }
}

/// Returns the rowid of a stored row. Fails unless the rowid is an integer above 0.
pub(crate) fn positive_rowid(row: &row::Row) -> Result<u64, DatabaseError>
    ensures { (n : ℕ) → rowid row.now ≡ Int (pos n) → IfOk result (λ number. number ≡ n) }
{
    match row.get(0) {
        ValueRef::Int(number) if number > 0 => Ok(number.unsigned_abs()),
        _ => Err(DATABASE_FAILURE),
    }
}

/// Creates an index key of one column, with the value `number`.
pub(crate) fn create_number_key(alloc: Global, number: u32) -> Result<row::Row, NoMemory>
    ensures { IfOk result (λ key. key ≡ Int (pos number) ∷ []) }
{
    let mut key = row::Row::new(alloc);
    key.push(int_value(u64::from(number)))?;
    Ok(key)
}

/// Copies the values in `columns` of a stored row, in the order of `columns`.
pub(crate) fn copy_columns(
    alloc: Global,
    row: &row::Row,
    columns: &[usize],
) -> Result<row::Row, NoMemory>
    ensures { IfOk result (λ values. values ≡ selected_columns columns.now row.now) }
{
    let mut values = row::Row::new(alloc);
    for at in columns {
        values.push(row.get(*at))?;
    }
    Ok(values)
}

/// Copies the values in `columns` of a stored row into a value of type `T`, in the order of
/// `columns`.
pub(crate) fn select_columns<T: FromRow>(
    alloc: Global,
    row: &row::Row,
    columns: &[usize],
) -> Result<T, NoMemory>
    ensures { IfOk result (λ it. it
        ≡ T.FromRow.from_row_gives (selected_columns columns.now row.now)) }
{
    let values = copy_columns(alloc, row, columns)?;
    let it = T::from_row(alloc, &values)?;
    Ok(it)
}

/// Returns the rowid at the end of the index entry `place`, or `None` if the entry doesn't end in
/// an integer.
fn index_entry_rowid(place: &row::Row) -> Option<i64>
    ensures { (front : Values) (id : ℤ) → place.now ≡ front ++ Int id ∷ [] → result ≡ Some id }
{
    let at = place.len().checked_sub(1)?;
    match place.get(at) {
        ValueRef::Int(id) => Some(id),
        _ => None,
    }
}

/// Returns `true` if a row has a blob in each of `columns`.
fn has_blobs(row: &row::Row, columns: &[usize]) -> bool
    ensures { result ≡ list_all (λ at. is_blob (column row.now at)) columns.now }
{
    columns
        .iter()
        .all(|at| matches!(row.get(*at), ValueRef::Blob(_)))
}

/// Copies the values in `columns` of each of `rows`, in the same order.
pub(crate) fn copy_all_columns<T: FromRow>(
    alloc: Global,
    rows: &[row::Row],
    columns: &[usize],
) -> Result<Vec<T>, NoMemory>
    ensures { IfOk result (λ found. found.items
        ≡ map (λ row. T.FromRow.from_row_gives (selected_columns columns.now row)) rows.now) }
{
    let mut found = Vec::new(alloc);
    for row in rows {
        let selected = select_columns(alloc, row, columns)?;
        push_item(&mut found, selected)?;
    }
    Ok(found)
}
