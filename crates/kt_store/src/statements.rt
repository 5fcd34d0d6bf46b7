ghost use Rattle.std.specs.Prelude.{◌≡◌, ◌<◌, IfOk, OnOk, OnErr, nat_lt, length, []};
ghost use Rattle.kt_store.specs.Common.{HoldsForRuns, bound, IsPlain, understood, HasCleanDisk, Survives, IsUnchanged, state, column, CommitsNothing, OnlyReadsRuns, RunsQuery, AreWide, HasColumns, QueryMayCommit, StatementMayCommit, QueriesRuns, RunsStatement, CommitsNothingYet, IsSchema2Statement, ExecutesOne, IsUnchangedOrRolledBack, IsPreparable, schema_2};

use crate::store_fault::DatabaseError;
use sqlite::types::FromSql;
use sqlite::{Alter, Connection, Row, Transaction};
use sqlite_value::value::ValueRef;

/// Reads a value of type `T` from the column with the index `at` of a row. Fails if the value has
/// another type or is out of range for `T`.
pub(crate) fn get_column<T: FromSql>(row: &Row, at: usize) -> Result<T, DatabaseError>
    requires { at < length row.now }
    ensures value { IfOk result (T.FromSql.reads_as (column row.now at)) }
{
    let value = row.get::<T>(at)?;
    Ok(value)
}

/// Checks that the connection is open and that SQLite can prepare `sql` over the tables of its
/// database.
pub(crate) fn check_sql<S: Alter>(conn: &mut Connection<S>, sql: &str) -> Result<(), DatabaseError>
    requires { IsPlain (understood schema_2 sql.now) }
    ensures same { HasCleanDisk (state S.Store conn.new)
        → OnOk result (IsUnchanged (state S.Store conn.old) (state S.Store conn.new)) }
    ensures rests { HasCleanDisk (state S.Store conn.new)
        → OnErr result (IsUnchangedOrRolledBack (state S.Store conn.old) (state S.Store conn.new)) }
    ensures understood { HasCleanDisk (state S.Store conn.new)
        → OnOk result (IsPreparable (state S.Store conn.old) sql.now) }
    ensures survives { CommitsNothing S.Store conn.old conn.new }
{
    conn.prepare(sql)?;
    Ok(())
}

/// Executes the query `sql` and returns its rows. `params` are the values of the query's
/// parameters. Fails before the execution if SQLite can't prepare the query, for example on a
/// closed connection.
pub(crate) fn execute_query<S: Alter>(
    conn: &mut Connection<S>,
    sql: &str,
    params: &[ValueRef<'_>],
) -> Result<Vec<Row>, DatabaseError>
    requires { IsPlain (understood schema_2 sql.now) }
    ensures rows { HasCleanDisk (state S.Store conn.new)
        → IfOk result (λ rows. RunsQuery S.Store sql.now
        (bound params.now) conn.old conn.new rows.items) }
    ensures rests { HasCleanDisk (state S.Store conn.new)
        → OnErr result (IsUnchangedOrRolledBack (state S.Store conn.old) (state S.Store conn.new)) }
    ensures survives { Survives (state S.Store conn.old) (state S.Store conn.new)
        (QueryMayCommit S.Store sql.now (bound params.now) conn.old) }
{
    let statement = conn.prepare(sql)?;
    let rows = statement.query_all(conn, params)?;
    Ok(rows)
}

/// Checks that each of `rows` has at least `width` columns. Fails with `Failed` if a row has fewer
/// columns.
fn check_columns(rows: &[Row], width: usize) -> Result<(), DatabaseError>
    requires { 0 < width }
    ensures wide { OnOk result (AreWide width rows.now) }
{
    let mut rest = rows;
    while let Some((row, after)) = rest.split_first() {
        row.get_ref(width - 1)?;
        rest = after;
    }
    Ok(())
}

/// Executes the query `sql` over the tables of a store and returns its rows. `params` are the
/// values of the query's parameters. Fails if a row has fewer than `width` columns.
pub(crate) fn query<S: Alter>(
    conn: &mut Connection<S>,
    sql: &str,
    width: usize,
    params: &[ValueRef<'_>],
) -> Result<Vec<Row>, DatabaseError>
    requires plain { IsPlain (understood schema_2 sql.now) }
    requires width { HasColumns width (understood schema_2 sql.now) }
    ensures shown { HoldsForRuns S.Store conn.old conn.new (λ runs.
        IfOk result (λ rows. QueriesRuns S.Store runs sql.now (bound params.now) conn.new
        rows.items)) }
    ensures wide { IfOk result (λ rows. AreWide width rows.items) }
    ensures looked { OnlyReadsRuns S.Store conn.old conn.new }
{
    let rows = execute_query(conn, sql, params)?;
    check_columns(&rows, width)?;
    Ok(rows)
}

/// Executes the statement `sql`, which returns no rows. `params` are the values of the statement's
/// parameters.
pub(crate) fn execute<S: Alter>(
    conn: &mut Connection<S>,
    sql: &str,
    params: &[ValueRef<'_>],
) -> Result<(), DatabaseError>
    requires { IsPlain (understood schema_2 sql.now) }
    ensures executed { HasCleanDisk (state S.Store conn.new)
        → OnOk result (RunsStatement S.Store sql.now (bound params.now) conn.old conn.new) }
    ensures rests { HasCleanDisk (state S.Store conn.new)
        → OnErr result (IsUnchangedOrRolledBack (state S.Store conn.old) (state S.Store conn.new)) }
    ensures survives { Survives (state S.Store conn.old) (state S.Store conn.new)
        (StatementMayCommit S.Store sql.now (bound params.now) conn.old) }
{
    let statement = conn.prepare(sql)?;
    statement.execute(conn, params)?;
    Ok(())
}

/// Executes the statement `sql` in the open transaction `tx`, without committing it. `params` are
/// the values of the statement's parameters.
pub(crate) fn execute_in_transaction<S: Alter>(
    tx: &mut Transaction<'_, S>,
    sql: &str,
    params: &[ValueRef<'_>],
) -> Result<(), DatabaseError>
    requires { IsSchema2Statement sql.now }
    ensures same_reference { tx.new.conn.ghost_name ≡ tx.old.conn.ghost_name }
    ensures runs { OnOk result (ExecutesOne S.Store (sql.now, bound params.now, [])
        tx.old.conn.now tx.new.conn.now) }
    ensures uncommitted { CommitsNothingYet S.Store tx.old.conn.now tx.new.conn.now }
{
    tx.execute(sql, params)?;
    Ok(())
}

/// Returns `true` if `rows`, the result of a query, has at least one row.
pub(crate) fn has_rows(rows: &[Row]) -> bool
    ensures { result ≡ nat_lt 0 (length rows.now) }
{
    rows.len() > 0
}
