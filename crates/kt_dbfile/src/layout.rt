//! Checks that a schema has the tables of a results file, with the expected indexes, trees and
//! columns.

ghost use Rattle.std.specs.Prelude.{◌≡◌, ℕ, Some, true, length, map, slice_get};
ghost use Rattle.kt_dbfile.specs.Common.{schema_2, AreNamed};
ghost use Rattle.sqlite_schema.specs.Names.{index_named, table_named};
ghost use Rattle.sqlite_schema.specs.declared.schema.Index.{Index as IndexOf};
ghost use Rattle.sqlite_schema.specs.declared.schema.Table.{Table as TableOf};

use crate::tables::{ENTRIES_AT, PROPS_AT, RUNS_AT};
use sqlite_schema::schema::{Schema, Table};

// The columns, in the order in which they are read and written.

/// The names of the columns of the table `runs`.
const RUN_COLUMNS: [&str; 4] = ["id", "started", "total", "finished"];

/// The names of the columns of the table `entries`.
const ENTRY_COLUMNS: [&str; 12] = [
    "run",
    "position",
    "program",
    "case_name",
    "kind",
    "reason",
    "started",
    "millis",
    "body_out",
    "body_err",
    "clean_out",
    "clean_err",
];

/// The names of the columns of the table `props`.
const PROP_COLUMNS: [&str; 5] = ["run", "position", "place", "name", "value"];

/// Returns `true` if `table` has exactly the columns `names`, in this order.
fn has_columns(table: &Table, names: &[&str]) -> bool
    ensures { length names.now ≡ length table.now.columns
        → AreNamed table.now 0 (map (λ name. name.now) names.now) → result ≡ true }
{
    if names.len() != table.columns.len() {
        return false;
    }
    let mut at = 0usize;
    for name in names {
        if table.column_named(name.as_bytes()) != Some(at) {
            return false;
        }
        at += 1;
    }
    true
}

/// Returns `true` if the table at the index `at` of `schema` is the one named `name`. It must also
/// have the B-tree with the number `tree`, and exactly the columns `columns`, in this order.
fn has_table(schema: &Schema, name: &str, at: usize, tree: u32, columns: &[&str]) -> bool
    ensures { (t : TableOf) → table_named schema.now name.now ≡ Some at
        → slice_get schema.now.tables at ≡ Some t → t.tree ≡ tree
        → length columns.now ≡ length t.columns
        → AreNamed t 0 (map (λ name. name.now) columns.now) → result ≡ true }
{
    let Some(table) = schema.tables.as_slice().get(at) else {
        return false;
    };
    schema.table_named(name.as_bytes()) == Some(at)
        && table.tree == tree
        && has_columns(table, columns)
}

/// Returns `true` if `schema` has an index named `name`, and this index is stored in the B-tree
/// with the number `tree`.
fn has_index(schema: &Schema, name: &str, tree: u32) -> bool
    ensures { (at : ℕ) (i : IndexOf) → index_named schema.now name.now ≡ Some at
        → slice_get schema.now.indexes at ≡ Some i → i.tree ≡ tree → result ≡ true }
{
    let Some(at) = schema.index_named(name.as_bytes()) else {
        return false;
    };
    let Some(index) = schema.indexes.as_slice().get(at) else {
        return false;
    };
    index.tree == tree
}

/// Returns `true` if `schema` has the tables `runs`, `entries` and `props` at the expected indexes,
/// and the key indexes of `entries` and `props`. Each table and key index must have the B-tree with
/// the expected number. Other tables can follow.
pub(crate) fn has_tables(schema: &Schema) -> bool
    ensures { schema.now ≡ schema_2 → result ≡ true }
{
    let runs = has_table(schema, "runs", RUNS_AT, 2, &RUN_COLUMNS);
    let entries = has_table(schema, "entries", ENTRIES_AT, 3, &ENTRY_COLUMNS);
    let pairs = has_table(schema, "props", PROPS_AT, 5, &PROP_COLUMNS);
    let entry_keys = has_index(schema, "sqlite_autoindex_entries_1", 4);
    let pair_keys = has_index(schema, "sqlite_autoindex_props_1", 6);
    runs & entries & pairs & entry_keys & pair_keys
}
