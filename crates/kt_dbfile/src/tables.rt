ghost use Rattle.std.specs.Prelude.{◌≡◌, [], ◌∷◌, pos, IfOk};
ghost use Rattle.kt_dbfile.specs.Common.{Int, IsLast, ReadsUnbrokenStore, Run, head_of, run_row};
ghost use Rattle.sqlite_trees.specs.View.{IsClean};

use crate::result_trees::ResultTrees;
use crate::trees::{TreeTable, create_number_key, select_columns};
use kt_base::NoMemory;
use kt_store::RunHead;
use kt_store::heads::head_from_row;
use kt_store::store_fault::{DatabaseError, ensure_sound};
use kt_store::value::int_value;
use sqlite_trees::store::{Direction, Shape, Store};
use sqlite_value::row::Row;
use std::alloc::Global;

/// The index of the table `runs` among the tables of the schema.
pub(crate) const RUNS_AT: usize = 1;

/// The index of the table `entries` among the tables of the schema.
pub(crate) const ENTRIES_AT: usize = 2;

/// The index of the table `props`, which has the properties of entries, among the tables of the
/// schema.
pub(crate) const PROPS_AT: usize = 3;

/// The number of the B-tree of the table `runs`.
pub(crate) const RUNS_TREE: u32 = 2;

impl<S: Store> ResultTrees<S> {
    /// Returns the row with the highest rowid in the table whose B-tree has the number `tree`, or
    /// `None` if the table is empty. Fails if the B-tree isn't that of a table.
    pub(crate) fn read_last_row(&mut self, tree: u32) -> Result<Option<Row>, DatabaseError>
        ensures last { IfOk result (λ found. IsClean (S.Store.view self.new.store)
            → IsLast ((S.Store.view self.old.store).trees tree) found) }
        ensures looks { ReadsUnbrokenStore S.Store self.old.store self.new.store result }
    {
        ensure_sound(self.store.shape(tree) == Shape::Table)?;
        let mut row = Row::new(self.alloc);
        self.store.seek(0, tree, &row, Direction::Backward)?;
        if !self.store.next(0, &mut row)? {
            return Ok(None);
        }
        Ok(Some(row))
    }
}

/// Returns the description of the table `entries` and of the index of its key.
pub(crate) fn entry_table() -> TreeTable<'static>
    ensures tree { result.tree ≡ 3 }
    ensures index { result.index ≡ 4 }
{
    TreeTable {
        tree: 3,
        index: 4,
        key: &[1, 2],
        blobs: &[9, 10, 11, 12],
    }
}

/// Returns the description of the table `props`, which has the properties of entries, and of the
/// index of its key.
pub(crate) fn property_table() -> TreeTable<'static>
    ensures tree { result.tree ≡ 5 }
    ensures index { result.index ≡ 6 }
{
    TreeTable {
        tree: 5,
        index: 6,
        key: &[1, 2, 3],
        blobs: &[],
    }
}

/// Creates the index key of the entry at `position` of run `run`: both numbers, in the order run,
/// position. The keys of the entry's properties begin with this key.
pub(crate) fn create_entry_key(alloc: Global, run: u32, position: u32) -> Result<Row, NoMemory>
    ensures { IfOk result (λ place. place ≡ Int (pos run) ∷ Int (pos position) ∷ []) }
{
    let mut place = create_number_key(alloc, run)?;
    place.push(int_value(u64::from(position)))?;
    Ok(place)
}

/// Returns the head of the run that `row`, a stored row of the table `runs`, represents. A head is
/// a run without its entries. Fails if a column isn't a number in the range of its field.
pub(crate) fn head_from_stored_row(alloc: Global, row: &Row) -> Result<RunHead, DatabaseError>
    ensures head { (r : Run) → row.now ≡ run_row r → IfOk result (λ h. h ≡ head_of r) }
{
    let shown = select_columns(alloc, row, &[0, 2, 3, 4])?;
    head_from_row(&shown)
}
