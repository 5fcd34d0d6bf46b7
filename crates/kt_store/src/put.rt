ghost use Rattle.std.specs.Prelude.{◌≡◌, ◌⊎◌, Some, None, IfOk, ◌<◌, ◌≤◌, ◌^◌, OnOk, OnErr, IfErr};
ghost use Rattle.kt_store.specs.Common.{HoldsForRuns, greatest_run_number, IsStorable, IsDatabaseFault, KeepsRuns, OnlyReadsRuns, Changes, MayChange, CommitsNothingYet, ExecutesAll, ExecutesOne, IsValidWithEntry, HasNoReasonIfPassed, with_entry, put_fault, put_refusal, entry_statements, pair_statement, pair_statements};

use crate::StoreFault;
use crate::batch::{Batch, commit};
use crate::lookup::{has_entry_at, look_up_run, run_key};
use crate::statements::execute_in_transaction;
use crate::store_fault::DatabaseError;
use crate::value::{blob_value, int_value, kind_code, text_value};
use kt_base::{Entry, NoMemory, Text, Variable};
use sqlite::{Alter, Connection, Transaction};
use std::alloc::Global;

/// Returns the reason of an entry's verdict as a text. The reason of a passed case is empty.
///
/// # Errors
///
/// - `NoMemory`: the allocation failed.
pub fn copy_reason_text(alloc: Global, entry: &Entry) -> Result<Text, NoMemory>
    ensures text { IfOk result (λ t. t ≡ entry.now.verdict.reason) }
    ensures passed { OnOk result (HasNoReasonIfPassed entry.now) }
{
    let mut reason = Text::new(alloc);
    entry.verdict.write_reason(&mut reason)?;
    Ok(reason)
}

/// Inserts the property `pair` into the table `props`, inside a transaction. `place` is the index
/// of `pair` among the properties of the entry at `position` of run `run`.
fn insert_property<S: Alter>(
    tx: &mut Transaction<'_, S>,
    run: u32,
    position: u32,
    place: u64,
    pair: &Variable,
) -> Result<(), DatabaseError>
    requires { place < 2 ^ 63 }
    ensures same_reference { tx.new.conn.ghost_name ≡ tx.old.conn.ghost_name }
    ensures runs { OnOk result (ExecutesOne S.Store (pair_statement run position place pair.now)
        tx.old.conn.now tx.new.conn.now) }
    ensures uncommitted { CommitsNothingYet S.Store tx.old.conn.now tx.new.conn.now }
{
    execute_in_transaction(
        tx,
        "INSERT INTO props (run, position, place, name, value) VALUES (?1, ?2, ?3, ?4, ?5)",
        &[
            int_value(u64::from(run)),
            int_value(u64::from(position)),
            int_value(place),
            text_value(&pair.name),
            text_value(&pair.value),
        ],
    )
}

/// Inserts `pairs`, the properties of the entry at `position` of run `run`, into the table `props`,
/// inside a transaction.
fn insert_properties<S: Alter>(
    tx: &mut Transaction<'_, S>,
    run: u32,
    position: u32,
    pairs: &[Variable],
) -> Result<(), DatabaseError>
    ensures same_reference { tx.new.conn.ghost_name ≡ tx.old.conn.ghost_name }
    ensures runs { OnOk result (ExecutesAll S.Store (pair_statements run position 0 pairs.now)
        tx.old.conn.now tx.new.conn.now) }
    ensures uncommitted { CommitsNothingYet S.Store tx.old.conn.now tx.new.conn.now }
{
    let mut place = 0;
    for pair in pairs {
        insert_property(tx, run, position, place, pair)?;
        place += 1;
    }
    Ok(())
}

/// Inserts an entry and its properties into a run, inside a transaction. `run` is the run's key in
/// the tables, and `reason` is the text of the verdict's reason.
pub(crate) fn insert_entry_rows<S: Alter>(
    tx: &mut Transaction<'_, S>,
    run: u32,
    entry: &Entry,
    reason: &Text,
) -> Result<(), DatabaseError>
    requires reason { reason.now ≡ entry.now.verdict.reason }
    requires moments { IsStorable entry.now }
    ensures same_reference { tx.new.conn.ghost_name ≡ tx.old.conn.ghost_name }
    ensures runs { OnOk result (ExecutesAll S.Store (entry_statements run entry.now)
        tx.old.conn.now tx.new.conn.now) }
    ensures uncommitted { CommitsNothingYet S.Store tx.old.conn.now tx.new.conn.now }
{
    execute_in_transaction(
        tx,
        "INSERT INTO entries (run, position, program, case_name, kind, reason, started, millis, body_out, body_err, clean_out, clean_err) VALUES (?1, ?2, ?3, ?4, ?5, ?6, ?7, ?8, ?9, ?10, ?11, ?12)",
        &[
            int_value(u64::from(run)),
            int_value(u64::from(entry.position)),
            text_value(&entry.program),
            text_value(&entry.case_name),
            int_value(kind_code(entry.verdict.kind())),
            text_value(reason),
            int_value(entry.started),
            int_value(entry.millis),
            blob_value(&entry.body.out),
            blob_value(&entry.body.err),
            blob_value(&entry.cleanup.out),
            blob_value(&entry.cleanup.err),
        ],
    )?;
    insert_properties(tx, run, entry.position, entry.meta.as_slice())
}

/// A batch that inserts an entry and its properties into a run.
#[derive(Clone, Copy)]
pub(crate) struct EntryInsert<'a> {
    /// The key of the run in the tables.
    run: u32,
    /// The entry that is inserted.
    entry: &'a Entry,
    /// The text of the reason of the entry's verdict.
    reason: &'a Text,
}

impl Batch for EntryInsert<'_> {
    ghost use Rattle.std.specs.Prelude.{◌≡◌, ◌<◌, ◌^◌};
    ghost use Rattle.kt_store.specs.Common.{IsStorable, entry_statements};

    ghost statements = { λ n. entry_statements n.run n.entry.now };

    ghost is_ready = { λ n. (n.reason.now ≡ n.entry.now.verdict.reason) × IsStorable n.entry.now };

    fn execute_statements<S: Alter>(
        &self,
        tx: &mut Transaction<'_, S>,
    ) -> Result<(), DatabaseError> {
        insert_entry_rows(tx, self.run, self.entry, self.reason)
    }
}

/// Inserts an entry and its properties into a run, in one commit. `run` is the run's key in the
/// tables, and `reason` is the text of the verdict's reason. The caller has checked that the run
/// accepts the entry.
pub(crate) fn add_entry<S: Alter>(
    conn: &mut Connection<S>,
    run: u32,
    entry: &Entry,
    reason: &Text,
) -> Result<(), DatabaseError>
    requires reason { reason.now ≡ entry.now.verdict.reason }
    requires moments { IsStorable entry.now }
    ensures added { OnOk result (Changes S.Store conn.old conn.new
        (IsValidWithEntry run entry.now) (with_entry run entry.now)) }
    ensures kept { OnErr result (KeepsRuns S.Store conn.old conn.new) }
    ensures crash { MayChange S.Store conn.old conn.new
        (IsValidWithEntry run entry.now) (with_entry run entry.now) }
{
    commit(conn, &EntryInsert { run, entry, reason })
}

/// Checks that a run of `total` cases accepts an entry at `position`. `finished` is `true` if the
/// run is finished, and `is_taken` if it has an entry at `position`.
///
/// # Errors
///
/// The first of these that applies:
///
/// - `RunClosed`: the run is finished.
/// - `BadPosition`: `position` is not below `total`.
/// - `RepeatedPosition`: the run has an entry at `position`.
pub fn check_put(
    finished: bool,
    total: u32,
    position: u32,
    is_taken: bool,
) -> Result<(), StoreFault>
    ensures refused { IfErr result (λ e. put_fault finished total position is_taken ≡ Some e) }
    ensures accepted { OnOk result (put_fault finished total position is_taken ≡ None) }
{
    if finished {
        return Err(StoreFault::RunClosed);
    }
    if position >= total {
        return Err(StoreFault::BadPosition);
    }
    if is_taken {
        return Err(StoreFault::RepeatedPosition);
    }
    Ok(())
}

/// Checks that the run with the number `run` accepts `entry`: the run exists, it isn't finished,
/// and the entry's position is valid and free. Fails with the first of `NoRun`, `RunClosed`,
/// `BadPosition` and `RepeatedPosition` that applies.
pub(crate) fn check_can_put<S: Alter>(
    conn: &mut Connection<S>,
    run: u64,
    entry: &Entry,
) -> Result<(), StoreFault>
    ensures small { OnOk result (run ≤ greatest_run_number) }
    ensures looked { OnlyReadsRuns S.Store conn.old conn.new }
    ensures refused { HoldsForRuns S.Store conn.old conn.new (λ runs.
        IfErr result (λ e. IsDatabaseFault e ⊎ (put_refusal runs run entry.now ≡ Some e))) }
    ensures taken { HoldsForRuns S.Store conn.old conn.new (λ runs.
        OnOk result (HasNoReasonIfPassed entry.now → (put_refusal runs run entry.now ≡ None)
        × IsValidWithEntry run entry.now runs)) }
{
    let (total, finished) = look_up_run(conn, run)?;
    let is_taken = has_entry_at(conn, run_key(run), entry.position)?;
    check_put(finished, total, entry.position, is_taken)
}
