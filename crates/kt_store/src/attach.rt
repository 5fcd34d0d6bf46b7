ghost use Rattle.std.specs.Prelude.{◌≡◌, ◌≢◌, ◌⊎◌, ◌<◌, ℤ, pos, true, false, [], IfOk, OnOk, OnErr, IfErr};
ghost use Rattle.kt_store.specs.Common.{HasCleanDisk, IsLive, IsUnchanged, state, IsUnchangedOrRolledBack, IsDatabaseFault, Blank, Schema1, Describes, AttachSucceeds, AttachFails, IsNotBlank, WasCleanIfClean, CommitsNothing, ReadsSchemaNumber, KeepsDatabase, ChecksTables, StoresSchemaNumber, IsPreparable, select_runs_sql, select_entries_sql, select_props_sql};

use crate::StoreFault;
use crate::batch::{SqlTexts, commit};
use crate::statements::{check_sql, execute_query, get_column};
use crate::store_fault::DatabaseError;
use sqlite::{Alter, Connection};

// The statements that create the tables (docs/formats/store.md).

/// The SQL statement that creates the table `meta`, which stores the number of the schema of a
/// results file: 1 or 2.
pub const CREATE_META: &str =
    "CREATE TABLE meta (name TEXT PRIMARY KEY, value INTEGER NOT NULL) STRICT";

/// The SQL statement that creates the table `runs`, with a row for each run.
pub const CREATE_RUNS: &str =
    "CREATE TABLE runs (id INTEGER PRIMARY KEY, started INTEGER NOT NULL, total INTEGER NOT NULL, finished INTEGER NOT NULL CHECK (finished IN (0, 1))) STRICT";

/// The SQL statement that creates the table `entries`, with a row for each recorded test case.
pub const CREATE_ENTRIES: &str =
    "CREATE TABLE entries (run INTEGER NOT NULL REFERENCES runs (id), position INTEGER NOT NULL, program TEXT NOT NULL, case_name TEXT NOT NULL, kind INTEGER NOT NULL CHECK (kind BETWEEN 0 AND 4), reason TEXT NOT NULL, started INTEGER NOT NULL, millis INTEGER NOT NULL, body_out BLOB NOT NULL, body_err BLOB NOT NULL, clean_out BLOB NOT NULL, clean_err BLOB NOT NULL, PRIMARY KEY (run, position)) STRICT";

/// The SQL statement that creates the table `props`, with a row for each property of an entry.
pub const CREATE_PROPS: &str =
    "CREATE TABLE props (run INTEGER NOT NULL, position INTEGER NOT NULL, place INTEGER NOT NULL, name TEXT NOT NULL, value TEXT NOT NULL, PRIMARY KEY (run, position, place)) STRICT";

/// Theorem: while a connection is open, the rows that it shows and the rows of its last commit obey
/// their schemas.
// No effect: the call states the fact for the prover.
pub fn theorem_of_valid_contents<S: Alter>(conn: &Connection<S>)
    ensures { IsLive (state S.Store conn.now) }
{
    let _ = conn.schema();
}

/// Creates the tables of schema 2 in a database without tables, in one commit. Fails if a statement
/// fails, or if a transaction is open already.
pub(crate) fn create_tables<S: Alter>(conn: &mut Connection<S>) -> Result<(), StoreFault>
    ensures taken { Describes Blank (state S.Store conn.old)
        → OnOk result (AttachSucceeds Blank (state S.Store conn.old) (state S.Store conn.new)) }
    ensures refused { Describes Blank (state S.Store conn.old)
        → IfErr result (AttachFails Blank (state S.Store conn.old) (state S.Store conn.new)) }
    ensures earlier { WasCleanIfClean S.Store conn.old conn.new }
    ensures failed { IfErr result IsDatabaseFault }
{
    let makes = [
        CREATE_META,
        CREATE_RUNS,
        CREATE_ENTRIES,
        CREATE_PROPS,
        "INSERT INTO meta (name, value) VALUES ('schema', 2)",
    ];
    Ok(commit(conn, &SqlTexts { texts: &makes })?)
}

/// Returns `true` if the database has no table.
pub(crate) fn is_blank<S: Alter>(conn: &Connection<S>) -> bool
    ensures blank { result ≡ true → (state S.Store conn.now).now.schema.tables ≡ [] }
    ensures filled { result ≡ false → (state S.Store conn.now).now.schema.tables ≢ [] }
{
    conn.schema().tables.len() == 0
}

/// Reads the schema number of a results file from its table `meta`. Fails with `UnknownSchema` if
/// the table has no schema number. Also fails if the query fails or the number isn't an integer.
pub(crate) fn read_schema_number<S: Alter>(conn: &mut Connection<S>) -> Result<i64, StoreFault>
    ensures asks { ReadsSchemaNumber S.Store conn.old conn.new }
    ensures same { OnOk result (KeepsDatabase S.Store conn.old conn.new) }
    ensures number { (n : ℤ) → StoresSchemaNumber n (state S.Store conn.old)
        → HasCleanDisk (state S.Store conn.new) → IfOk result (λ number. number ≡ n) }
    ensures taken { (n : ℤ) → StoresSchemaNumber n (state S.Store conn.old)
        → HasCleanDisk (state S.Store conn.new) → IfErr result IsDatabaseFault }
    ensures due { IfErr result (λ e. IsDatabaseFault e ⊎ (e ≡ StoreFault.UnknownSchema)) }
{
    let rows = execute_query(conn, "SELECT value FROM meta WHERE name = 'schema'", &[])?;
    let Some(row) = rows.first() else {
        return Err(StoreFault::UnknownSchema);
    };
    if row.column_count() == 0 {
        return Err(StoreFault::UnknownSchema);
    }
    let number = get_column::<i64>(row, 0)?;
    Ok(number)
}

/// Checks that SQLite can prepare the queries for runs, for entries and for properties over the
/// tables of `conn`. If `old` is `true`, the tables have schema 1, which has no table of
/// properties. The query for properties is then not checked.
pub(crate) fn check_tables<S: Alter>(
    conn: &mut Connection<S>,
    old: bool,
) -> Result<(), DatabaseError>
    ensures same { HasCleanDisk (state S.Store conn.new)
        → OnOk result (IsUnchanged (state S.Store conn.old) (state S.Store conn.new)) }
    ensures rests { HasCleanDisk (state S.Store conn.new)
        → OnErr result (IsUnchangedOrRolledBack (state S.Store conn.old) (state S.Store conn.new)) }
    ensures understood { HasCleanDisk (state S.Store conn.new)
        → OnOk result (IsPreparable (state S.Store conn.old) select_runs_sql
        × IsPreparable (state S.Store conn.old) select_entries_sql
        × (old ≡ false → IsPreparable (state S.Store conn.old) select_props_sql)) }
    ensures survives { CommitsNothing S.Store conn.old conn.new }
{
    check_sql(
        conn,
        "SELECT id, started, total, finished FROM runs ORDER BY id",
    )?;
    check_sql(
        conn,
        "SELECT position, program, case_name, kind, reason, started, millis, body_out, body_err, clean_out, clean_err FROM entries WHERE run = ?1 ORDER BY position",
    )?;
    if old {
        return Ok(());
    }
    check_sql(
        conn,
        "SELECT name, value FROM props WHERE run = ?1 AND position = ?2 ORDER BY place",
    )?;
    Ok(())
}

/// Returns `true` if the tables of the database have schema 1, and `false` if they have schema 2.
/// Fails with `UnknownSchema` if the schema number is missing or neither 1 nor 2. Also fails if the
/// tables can't be queried.
pub(crate) fn has_schema_1<S: Alter>(conn: &mut Connection<S>) -> Result<bool, StoreFault>
    ensures asks { ReadsSchemaNumber S.Store conn.old conn.new }
    ensures same { OnOk result (KeepsDatabase S.Store conn.old conn.new) }
    ensures number { (n : ℤ) → StoresSchemaNumber n (state S.Store conn.old)
        → HasCleanDisk (state S.Store conn.new)
        → IfOk result (λ old. (old ≡ true → n ≡ pos 1) × (old ≡ false → n ≡ pos 2)) }
    ensures tables { OnOk result (ChecksTables S.Store conn.old conn.new) }
    ensures taken { (n : ℤ) → StoresSchemaNumber n (state S.Store conn.old)
        → (n ≡ pos 1) ⊎ (n ≡ pos 2)
        → HasCleanDisk (state S.Store conn.new) → IfErr result IsDatabaseFault }
    ensures due { IfErr result (λ e. IsDatabaseFault e ⊎ (e ≡ StoreFault.UnknownSchema)) }
{
    let number = read_schema_number(conn)?;
    if number != 1 && number != 2 {
        return Err(StoreFault::UnknownSchema);
    }
    let old = number == 1;
    check_tables(conn, old)?;
    Ok(old)
}

/// Migrates a database from schema 1 to schema 2, in one commit. Fails if a statement fails, or if
/// a transaction is open already.
pub(crate) fn migrate<S: Alter>(conn: &mut Connection<S>) -> Result<(), StoreFault>
    ensures taken { (runs : _) → Describes (Schema1 runs) (state S.Store conn.old)
        → OnOk result (AttachSucceeds (Schema1 runs) (state S.Store conn.old) (state S.Store
        conn.new)) }
    ensures refused { (runs : _) → Describes (Schema1 runs) (state S.Store conn.old)
        → IfErr result (AttachFails (Schema1 runs) (state S.Store conn.old) (state S.Store
        conn.new)) }
    ensures earlier { WasCleanIfClean S.Store conn.old conn.new }
    ensures failed { IfErr result IsDatabaseFault }
{
    theorem_of_valid_contents(conn);
    let raises = [
        CREATE_PROPS,
        "UPDATE meta SET value = 2 WHERE name = 'schema'",
    ];
    Ok(commit(conn, &SqlTexts { texts: &raises })?)
}

/// Checks the tables of a database of schema 1 or 2, and migrates schema 1 to schema 2. Fails with
/// `UnknownSchema` if the schema number is missing or neither 1 nor 2.
pub(crate) fn adopt_tables<S: Alter>(conn: &mut Connection<S>) -> Result<(), StoreFault>
    ensures taken { (was : _) → IsNotBlank was → Describes was (state S.Store conn.old)
        → OnOk result (AttachSucceeds was (state S.Store conn.old) (state S.Store conn.new)) }
    ensures refused { (was : _) → IsNotBlank was → Describes was (state S.Store conn.old)
        → IfErr result (AttachFails was (state S.Store conn.old) (state S.Store conn.new)) }
    ensures earlier { WasCleanIfClean S.Store conn.old conn.new }
    ensures due { IfErr result (λ e. IsDatabaseFault e ⊎ (e ≡ StoreFault.UnknownSchema)) }
{
    theorem_of_valid_contents(conn);
    if has_schema_1(conn)? {
        migrate(conn)?;
    }
    Ok(())
}

/// Creates the tables of schema 2 in a database without tables. If the database has tables, checks
/// them and migrates schema 1 to schema 2.
pub(crate) fn create_or_adopt_tables<S: Alter>(conn: &mut Connection<S>) -> Result<(), StoreFault>
    ensures taken { (was : _) → Describes was (state S.Store conn.old)
        → OnOk result (AttachSucceeds was (state S.Store conn.old) (state S.Store conn.new)) }
    ensures refused { (was : _) → Describes was (state S.Store conn.old)
        → IfErr result (AttachFails was (state S.Store conn.old) (state S.Store conn.new)) }
    ensures due { IfErr result (λ e. IsDatabaseFault e ⊎ (e ≡ StoreFault.UnknownSchema)) }
{
    theorem_of_valid_contents(conn);
    check_sql(conn, "SELECT 1")?;
    if is_blank(conn) {
        return create_tables(conn);
    }
    adopt_tables(conn)
}
