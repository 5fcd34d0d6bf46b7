ghost use Rattle.std.specs.Prelude.{◌≡◌, ◌⊎◌, ◌<◌, ◌≤◌, ◌^◌, length, map, Some, None, IfOk, IfErr, OnOk};
ghost use Rattle.kt_store.specs.Common.{HoldsForRuns, AreWide, AreValidRuns, Entry as Stored, IsValidEntry, IsDatabaseFault, OnlyReadsRuns, entries_of, entry_at, pair_columns, pairs_of, run_at, full_entry_columns};

use crate::StoreFault;
use crate::heads::push_item;
use crate::lookup::{look_up_run, run_key};
use crate::outlines::{entry_from_row, properties_from_rows};
use crate::statements::{get_column, query};
use crate::store_fault::DatabaseError;
use crate::value::int_value;
use kt_base::Entry;
use sqlite::{Alter, Connection, Row};
use std::alloc::Global;

/// Reads the rows of the entries of run `run` from the table `entries`, ordered by position.
/// Returns no rows if there is no such run.
pub(crate) fn read_entry_rows<S: Alter>(
    conn: &mut Connection<S>,
    run: u32,
) -> Result<Vec<Row>, DatabaseError>
    ensures all { HoldsForRuns S.Store conn.old conn.new (λ runs.
        IfOk result (λ rows. rows.items
        ≡ map full_entry_columns (entries_of (run_at runs run)))) }
    ensures wide { IfOk result (λ rows. AreWide 11 rows.items) }
    ensures valid { HoldsForRuns S.Store conn.old conn.new (λ runs. OnOk result (AreValidRuns
        runs)) }
    ensures looked { OnlyReadsRuns S.Store conn.old conn.new }
{
    query(
        conn,
        "SELECT position, program, case_name, kind, reason, started, millis, body_out, body_err, clean_out, clean_err FROM entries WHERE run = ?1 ORDER BY position",
        11,
        &[int_value(u64::from(run))],
    )
}

/// Reads the name and the value of each property of the entry at `position` of run `run`, in their
/// recorded order. Returns no rows if there is no such entry.
fn read_property_rows<S: Alter>(
    conn: &mut Connection<S>,
    run: u32,
    position: u32,
) -> Result<Vec<Row>, DatabaseError>
    ensures all { HoldsForRuns S.Store conn.old conn.new (λ runs.
        IfOk result (λ rows. rows.items
        ≡ map pair_columns (pairs_of (entry_at (run_at runs run) position)))) }
    ensures wide { IfOk result (λ rows. AreWide 2 rows.items) }
    ensures looked { OnlyReadsRuns S.Store conn.old conn.new }
{
    query(
        conn,
        "SELECT name, value FROM props WHERE run = ?1 AND position = ?2 ORDER BY place",
        2,
        &[int_value(u64::from(run)), int_value(u64::from(position))],
    )
}

/// Reads an entry of run `run` from `row`, which has the columns of the query for entries. The
/// properties of the entry are read from the table `props`.
fn read_entry<S: Alter>(
    conn: &mut Connection<S>,
    alloc: Global,
    run: u32,
    row: &Row,
) -> Result<Entry, DatabaseError>
    requires wide { 11 ≤ length row.now }
    ensures entry { HoldsForRuns S.Store conn.old conn.new (λ runs. (e : Stored) → IsValidEntry e
        → entry_at (run_at runs run) e.position ≡ Some e → row.now ≡ full_entry_columns e
        → IfOk result (λ x. x ≡ e)) }
    ensures looked { OnlyReadsRuns S.Store conn.old conn.new }
{
    let position = get_column::<u32>(row, 0)?;
    let pairs = read_property_rows(conn, run, position)?;
    let meta = properties_from_rows(alloc, &pairs)?;
    entry_from_row(alloc, row, meta)
}

/// Reads the entries of run `run` from `rows`, which have the columns of the query for entries. The
/// properties of the entries are read from the table `props`.
fn read_entries<S: Alter>(
    conn: &mut Connection<S>,
    alloc: Global,
    run: u32,
    rows: &[Row],
) -> Result<Vec<Entry>, DatabaseError>
    requires wide { AreWide 11 rows.now }
    ensures entries { HoldsForRuns S.Store conn.old conn.new (λ runs. AreValidRuns runs
        → rows.now ≡ map full_entry_columns (entries_of (run_at runs run))
        → IfOk result (λ found. found.items ≡ entries_of (run_at runs run))) }
    ensures looked { OnlyReadsRuns S.Store conn.old conn.new }
{
    let mut entries = Vec::new(alloc);
    for row in rows {
        let entry = read_entry(conn, alloc, run, row)?;
        push_item(&mut entries, entry)?;
    }
    Ok(entries)
}

/// Reads the entries of run `run` with their properties and outputs, ordered by position. Fails
/// with `NoRun` if no run has this number.
pub(crate) fn read_all_entries<S: Alter>(
    conn: &mut Connection<S>,
    alloc: Global,
    run: u64,
) -> Result<Vec<Entry>, StoreFault>
    ensures entries { HoldsForRuns S.Store conn.old conn.new (λ runs.
        IfOk result (λ found. (r : _) × (run_at runs run ≡ Some r) × (found.items ≡ r.entries))) }
    ensures refused { HoldsForRuns S.Store conn.old conn.new (λ runs.
        IfErr result (λ e. IsDatabaseFault e ⊎ ((e ≡ StoreFault.NoRun)
        × (run_at runs run ≡ None)))) }
    ensures looked { OnlyReadsRuns S.Store conn.old conn.new }
{
    look_up_run(conn, run)?;
    let number = run_key(run);
    let rows = read_entry_rows(conn, number)?;
    Ok(read_entries(conn, alloc, number, &rows)?)
}
