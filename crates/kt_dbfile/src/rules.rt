ghost use Rattle.std.specs.Prelude.{◌≡◌, ◌⊎◌, [], IfOk, OnOk};
ghost use Rattle.kt_dbfile.specs.Common.{ObeysSchema, KeepsLastCommit, PutsRows};
ghost use Rattle.sqlite_schema.specs.Catalog.{IsCatalogOf};
ghost use Rattle.sqlite_trees.specs.View.{IsClean, IsQuiet};

use crate::result_trees::ResultTrees;
use kt_base::NoMemory;
use kt_store::store_fault::{DATABASE_FAILURE, DatabaseError, ensure_sound};
use sqlite_exec::work::Workspace;
use sqlite_items::Items;
use sqlite_rules::edit::Touched;
use sqlite_rules::error::Rowids;
use sqlite_rules::write::{are_kept, write};
use sqlite_schema::schema::{Among, Keys, Schema};
use sqlite_sql::query::Index;
use sqlite_trees::store::Alter;
use sqlite_value::row::Row;
use std::alloc::Global;

/// An edit of a table: the rows that it removes, and the rows that it adds.
#[derive(Clone, Copy)]
pub(crate) struct TableEdit<'a> {
    /// The index of the edited table in the list of tables of the schema.
    pub(crate) table_index: usize,
    /// The rowids of the rows that the edit removes from the table.
    pub(crate) removed_rowids: &'a [i64],
    /// `Chosen` if an added row with NULL in place of the rowid gets the next rowid, and `Given` if
    /// each added row has a rowid.
    pub(crate) rowids: Rowids,
    /// The index of the first column of each of `sources` that is copied to an added row: 0 or 1.
    /// The columns before it are skipped.
    pub(crate) first_column: usize,
    /// The rows from which the added rows are made, one for each added row.
    pub(crate) sources: &'a [Row],
}

impl<S: Alter> ResultTrees<S> {
    /// Applies `edit` to its table and to the indexes of that table, and checks each constraint of
    /// `schema`. `indexes` are the indexes of `schema`, and `work` is a workspace without steps.
    /// Fails if a constraint isn't met. Commits nothing.
    ///
    /// Separate for the prover: this function owns nothing, since values that are dropped on
    /// failure are slow to prove.
    fn apply_edit(
        &mut self,
        work: &mut EditWorkspace,
        schema: &Schema,
        indexes: &[Index<'_>],
        edit: TableEdit<'_>,
    ) -> Result<(), DatabaseError>
        requires obeys { IsClean (S.Store.view self.old.store)
            → ObeysSchema (S.Store.view self.old.store) schema.now }
        requires short { edit.first_column ≡ 0 ⊎ edit.first_column ≡ 1 }
        requires indexes { IsCatalogOf schema.now indexes.now }
        requires untouched { work.old.touched ≡ [] }
        ensures puts { IsClean (S.Store.view self.new.store)
            → OnOk result (PutsRows schema.now edit.entry.table_index
            edit.entry.removed_rowids.now edit.entry.rowids edit.entry.first_column
            edit.entry.sources.now (S.Store.view self.old.store).trees
            (S.Store.view self.new.store).trees) }
        ensures obeys { IsClean (S.Store.view self.new.store)
            → OnOk result (ObeysSchema (S.Store.view self.new.store) schema.now) }
        ensures held { IsClean (S.Store.view self.new.store)
            → KeepsLastCommit (S.Store.view self.old.store) (S.Store.view self.new.store) }
        ensures quiet { IsQuiet S.Store.view S.Store.faults S.Store.recovers S.Store.is_shielded
            self.old.store self.new.store }
    {
        let Some(table) = schema.tables.as_slice().get(edit.table_index) else {
            return Err(DATABASE_FAILURE);
        };
        write(
            &mut self.store,
            &mut work.space,
            self.alloc,
            schema,
            indexes,
            Keys::Enforced,
            edit.table_index,
            table,
            edit.removed_rowids,
            edit.rowids,
            edit.first_column,
            edit.sources,
            &mut work.touched,
        )?;
        let is_kept = are_kept(
            &mut self.store,
            &mut work.space,
            self.alloc,
            schema,
            indexes,
            Among::All,
            work.touched.as_slice(),
        )?;
        ensure_sound(is_kept)?;
        Ok(())
    }

    /// Applies `edit` to its table and to the indexes of that table, and checks each constraint of
    /// `schema`. Fails if a constraint isn't met. Commits nothing.
    pub(crate) fn put_rows(
        &mut self,
        schema: &Schema,
        edit: TableEdit<'_>,
    ) -> Result<(), DatabaseError>
        requires obeys { IsClean (S.Store.view self.old.store)
            → ObeysSchema (S.Store.view self.old.store) schema.now }
        requires short { edit.first_column ≡ 0 ⊎ edit.first_column ≡ 1 }
        ensures puts { IsClean (S.Store.view self.new.store)
            → OnOk result (PutsRows schema.now edit.entry.table_index
            edit.entry.removed_rowids.now edit.entry.rowids edit.entry.first_column
            edit.entry.sources.now (S.Store.view self.old.store).trees
            (S.Store.view self.new.store).trees) }
        ensures obeys { IsClean (S.Store.view self.new.store)
            → OnOk result (ObeysSchema (S.Store.view self.new.store) schema.now) }
        ensures held { IsClean (S.Store.view self.new.store)
            → KeepsLastCommit (S.Store.view self.old.store) (S.Store.view self.new.store) }
        ensures quiet { IsQuiet S.Store.view S.Store.faults S.Store.recovers S.Store.is_shielded
            self.old.store self.new.store }
    {
        let indexes = list_indexes(self.alloc, schema)?;
        let mut work = EditWorkspace {
            space: Workspace::new(self.alloc),
            touched: Items::new(self.alloc),
        };
        self.apply_edit(&mut work, schema, indexes.as_slice(), edit)
    }
}

/// Returns the database indexes of all tables of `schema`, as the functions [`write`] and
/// [`are_kept`] require them.
fn list_indexes(alloc: Global, schema: &Schema) -> Result<Vec<Index<'_>>, NoMemory>
    ensures { IfOk result (λ all. IsCatalogOf schema.now all.items) }
{
    let all = schema.catalog(alloc)?;
    Ok(all)
}

/// A workspace for one edit of a table: reused buffers, and the steps of the edit.
#[derive(Drop)]
struct EditWorkspace {
    /// The buffers for rows, which the functions [`write`] and [`are_kept`] reuse.
    space: Workspace,
    /// The steps of the edit so far: the rows that each step removed and added.
    touched: Items<Touched>,
}
