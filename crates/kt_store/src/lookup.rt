ghost use Rattle.std.specs.Prelude.{◌≡◌, ◌⊎◌, ◌<◌, ◌≤◌, ◌^◌, IfOk, IfErr, OnOk, Some, None, option_map, unsigned_abs};
ghost use Rattle.kt_store.specs.Common.{HoldsForRuns, greatest_run_number, IsDatabaseFault, OnlyReadsRuns, entries_of, run_at, flag, AreValidRuns, has_position};

use crate::StoreFault;
use crate::statements::{get_column, has_rows, query};
use crate::store_fault::DatabaseError;
use crate::value::int_value;
use sqlite::{Alter, Connection};

/// The maximum number of runs in a store (this profile).
pub const MAX_RUNS: u32 = 1_000_000;

/// Reads two columns of the run with the key `run` in the table `runs`: the number of selected
/// cases, and the finished flag. The flag is 1 for a finished run, else 0. Returns `None` if there
/// is no such run.
pub(crate) fn find_run_state<S: Alter>(
    conn: &mut Connection<S>,
    run: u32,
) -> Result<Option<(u32, u64)>, DatabaseError>
    ensures looked { OnlyReadsRuns S.Store conn.old conn.new }
    ensures valid { HoldsForRuns S.Store conn.old conn.new (λ runs. OnOk result (AreValidRuns
        runs)) }
    ensures found { HoldsForRuns S.Store conn.old conn.new (λ runs.
        IfOk result (λ o. o ≡ option_map (λ r. (r.total, unsigned_abs (flag r.finished))) (run_at
        runs run))) }
{
    let rows = query(
        conn,
        "SELECT total, finished FROM runs WHERE id = ?1",
        2,
        &[int_value(u64::from(run))],
    )?;
    let Some(row) = rows.first() else {
        return Ok(None);
    };
    let total = get_column::<u32>(row, 0)?;
    let finished = get_column::<u64>(row, 1)?;
    Ok(Some((total, finished)))
}

/// Returns the key of the run with number `run` in the tables: the number itself, or 0 for a number
/// above 1,000,000. No run has the key 0. Allocates nothing.
pub fn run_key(run: u64) -> u32
    ensures low { result ≤ greatest_run_number }
    ensures same { run ≤ greatest_run_number → result ≡ run }
    ensures none { greatest_run_number < run → result ≡ 0 }
{
    if run <= u64::from(MAX_RUNS) {
        run as u32
    } else {
        0
    }
}

/// Returns the number of selected cases of run `run`, and `true` if the run is finished. Fails with
/// `NoRun` if no run has this number.
pub(crate) fn look_up_run<S: Alter>(
    conn: &mut Connection<S>,
    run: u64,
) -> Result<(u32, bool), StoreFault>
    ensures small { OnOk result (run ≤ greatest_run_number) }
    ensures looked { OnlyReadsRuns S.Store conn.old conn.new }
    ensures found { HoldsForRuns S.Store conn.old conn.new (λ runs.
        IfOk result (λ p. (r : _) × (run_at runs run ≡ Some r) × (p.0 ≡ r.total)
        × (p.1 ≡ r.finished) × AreValidRuns runs)) }
    ensures refused { HoldsForRuns S.Store conn.old conn.new (λ runs.
        IfErr result (λ e. IsDatabaseFault e ⊎ ((e ≡ StoreFault.NoRun)
        × (run_at runs run ≡ None)))) }
{
    let number = run_key(run);
    let Some((total, finished)) = find_run_state(conn, number)? else {
        return Err(StoreFault::NoRun);
    };
    if u64::from(number) != run {
        return Err(StoreFault::NoRun);
    }
    Ok((total, finished > 0))
}

/// Returns `true` if the table `entries` has an entry at `position` for the run with the key `run`.
pub(crate) fn has_entry_at<S: Alter>(
    conn: &mut Connection<S>,
    run: u32,
    position: u32,
) -> Result<bool, DatabaseError>
    ensures looked { OnlyReadsRuns S.Store conn.old conn.new }
    ensures found { HoldsForRuns S.Store conn.old conn.new (λ runs.
        IfOk result (λ b. b ≡ has_position position (entries_of (run_at runs run)))) }
{
    let rows = query(
        conn,
        "SELECT position FROM entries WHERE run = ?1 AND position = ?2 ORDER BY position",
        1,
        &[int_value(u64::from(run)), int_value(u64::from(position))],
    )?;
    Ok(has_rows(&rows))
}
