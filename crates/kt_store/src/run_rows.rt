ghost use Rattle.std.specs.Prelude.{◌≡◌, ◌<◌, ◌≤◌, ◌++◌, suc, [], ◌∷◌, length, true, false, IfOk, OnOk, OnErr, IfErr, ◌⊎◌, ◌^◌, Some, None};
ghost use Rattle.kt_store.specs.Common.{HoldsForRuns, greatest_run_number, IsMoment, HasCleanDisk, state, IsDatabaseFault, KeepsRuns, OnlyReadsRuns, Changes, MayChange, new_run, StandsFor, IsComplete, finish, finish_fault, finish_refusal};

use crate::StoreFault;
use crate::entries::read_entry_rows;
use crate::lookup::{MAX_RUNS, find_run_state, look_up_run, run_key};
use crate::statements::execute;
use crate::store_fault::DatabaseError;
use crate::value::int_value;
use sqlite::{Alter, Connection};

/// Returns `true` if the store has 1,000,000 runs, the maximum (this profile).
pub(crate) fn is_store_full<S: Alter>(conn: &mut Connection<S>) -> Result<bool, DatabaseError>
    ensures full { HoldsForRuns S.Store conn.old conn.new (λ runs.
        IfOk result (λ full. (full ≡ true → greatest_run_number ≤ length runs) × (full ≡ false
        → length runs < greatest_run_number))) }
    ensures looked { OnlyReadsRuns S.Store conn.old conn.new }
{
    Ok(find_run_state(conn, MAX_RUNS)?.is_some())
}

/// Inserts an unfinished run of `total` cases with the next number, and returns this number.
/// `moment` is the start of the run, in milliseconds since 1970-01-01 UTC, up to the end of the
/// year 9999. The caller has checked that there are fewer than 1,000,000 runs.
pub(crate) fn add_run<S: Alter>(
    conn: &mut Connection<S>,
    total: u32,
    moment: u64,
) -> Result<u64, DatabaseError>
    requires { IsMoment moment }
    ensures number { (runs : _) → StandsFor (state S.Store conn.old) runs
        → (HasCleanDisk (state S.Store conn.old) → length runs < greatest_run_number)
        → HasCleanDisk (state S.Store conn.new) → IfOk result (λ n. n ≡ suc (length runs)) }
    ensures added { OnOk result (Changes S.Store conn.old conn.new
        (λ runs. length runs < greatest_run_number) (λ runs. runs ++ new_run runs total moment ∷
        [])) }
    ensures kept { OnErr result (KeepsRuns S.Store conn.old conn.new) }
    ensures crash { MayChange S.Store conn.old conn.new
        (λ runs. length runs < greatest_run_number) (λ runs. runs ++ new_run runs total moment ∷
        []) }
{
    execute(
        conn,
        "INSERT INTO runs (started, total, finished) VALUES (?1, ?2, 0)",
        &[int_value(moment), int_value(u64::from(total))],
    )?;
    Ok(conn.last_insert_rowid().unsigned_abs())
}

/// Checks that a run of `total` cases with `count` entries can be finished. `finished` is `true` if
/// it is finished already.
///
/// # Errors
///
/// The first of these that applies:
///
/// - `RunClosed`: the run is finished already.
/// - `Incomplete`: `count` is below `total`.
pub fn check_finish(finished: bool, total: u32, count: u64) -> Result<(), StoreFault>
    ensures refused { IfErr result (λ e. finish_fault finished total count ≡ Some e) }
    ensures accepted { OnOk result (finish_fault finished total count ≡ None) }
{
    if finished {
        return Err(StoreFault::RunClosed);
    }
    if count < u64::from(total) {
        return Err(StoreFault::Incomplete);
    }
    Ok(())
}

/// Checks that the run with the number `run` can be finished: it exists, is unfinished, and has an
/// entry for each selected case. Fails with the first of `NoRun`, `RunClosed` and `Incomplete` that
/// applies.
pub(crate) fn check_can_finish<S: Alter>(
    conn: &mut Connection<S>,
    run: u64,
) -> Result<(), StoreFault>
    ensures small { OnOk result (run ≤ greatest_run_number) }
    ensures looked { OnlyReadsRuns S.Store conn.old conn.new }
    ensures refused { HoldsForRuns S.Store conn.old conn.new (λ runs.
        IfErr result (λ e. IsDatabaseFault e ⊎ (finish_refusal runs run ≡ Some e))) }
    ensures taken { HoldsForRuns S.Store conn.old conn.new (λ runs.
        OnOk result ((finish_refusal runs run ≡ None) × IsComplete run runs)) }
{
    let (total, finished) = look_up_run(conn, run)?;
    let rows = read_entry_rows(conn, run_key(run))?;
    check_finish(finished, total, rows.as_slice().len() as u64)
}

/// Marks the run with the key `run` as finished in the table `runs`, in one commit. The caller has
/// checked that the run has an entry for each selected case.
pub(crate) fn mark_finished<S: Alter>(
    conn: &mut Connection<S>,
    run: u32,
) -> Result<(), DatabaseError>
    ensures marked { OnOk result (Changes S.Store conn.old conn.new (IsComplete run) (finish run)) }
    ensures kept { OnErr result (KeepsRuns S.Store conn.old conn.new) }
    ensures crash { MayChange S.Store conn.old conn.new (IsComplete run) (finish run) }
{
    execute(
        conn,
        "UPDATE runs SET finished = 1 WHERE id = ?1",
        &[int_value(u64::from(run))],
    )
}
