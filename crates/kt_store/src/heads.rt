ghost use Rattle.std.specs.Prelude.{◌≡◌, ◌≤◌, ◌==◌, length, map, List, IfOk, IfSome, ◌++◌, [], ◌∷◌, OnOk, unwrap_or};
ghost use Rattle.kt_store.specs.Common.{AreNumberedFrom, IsNumbered, HoldsForRuns, AreWide, OnlyReadsRuns, find, head_columns, head_of};
ghost use Rattle.std.specs.Option.{option_copied};
ghost use Rattle.kt_base.specs.declared.entry.Run.{Run as Stored};
ghost use Rattle.kt_store.specs.declared.result_store.RunHead.{RunHead as Head};

use crate::RunHead;
use crate::statements::{get_column, query};
use crate::store_fault::{DatabaseError, ensure_sound};
use kt_base::NoMemory;
use sqlite::{Alter, Connection, Row};
use std::alloc::Global;

/// Appends an item to a vector.
///
/// # Errors
///
/// - `NoMemory`: the allocation failed.
pub fn push_item<T: Drop>(items: &mut Vec<T>, item: T) -> Result<(), NoMemory>
    ensures added { OnOk result (items.new.items ≡ items.old.items ++ item ∷ []) }
{
    items.push(item)?;
    Ok(())
}

/// Reads the head of a run from its row. A head is a run without its entries. The first four
/// columns of `row` are the number, the start, the total and the finished flag.
///
/// # Errors
///
/// - `NoMemory`: an allocation failed.
/// - `Failed`: a column isn't an integer, or is outside the range of its field.
pub fn head_from_row(row: &Row) -> Result<RunHead, DatabaseError>
    requires { 4 ≤ length row.now }
    ensures head { (r : Stored) → row.now ≡ head_columns r → IfOk result (λ h. h ≡ head_of r) }
{
    let number = get_column::<u64>(row, 0)?;
    let started = get_column::<u64>(row, 1)?;
    let total = get_column::<u32>(row, 2)?;
    let finished = get_column::<u64>(row, 3)?;
    Ok(RunHead {
        number,
        started,
        total,
        finished: finished > 0,
    })
}

/// Reads the heads of runs from their rows, in the same order. A head is a run without its entries.
/// The columns of a row are those of [`head_from_row`].
///
/// # Errors
///
/// - `NoMemory`: an allocation failed.
/// - `Failed`: a column isn't an integer, or is outside the range of its field, or the runs are not
///   numbered from 1.
pub fn heads_from_rows(alloc: Global, rows: &[Row]) -> Result<Vec<RunHead>, DatabaseError>
    requires { AreWide 4 rows.now }
    ensures heads { (runs : List Stored) → rows.now ≡ map head_columns runs
        → IfOk result (λ heads. heads.items ≡ map head_of runs) }
    ensures numbered { IfOk result (λ heads. AreNumberedFrom 1 heads.items) }
{
    let mut heads = Vec::new(alloc);
    for row in rows {
        let head = head_from_row(row)?;
        ensure_sound(head.number == heads.len() as u64 + 1)?;
        push_item(&mut heads, head)?;
    }
    Ok(heads)
}

/// Reads the heads of all runs of the store, ordered by number. A head is a run without its
/// entries.
pub(crate) fn read_heads<S: Alter>(
    conn: &mut Connection<S>,
    alloc: Global,
) -> Result<Vec<RunHead>, DatabaseError>
    ensures all { HoldsForRuns S.Store conn.old conn.new (λ runs.
        IfOk result (λ heads. heads.items ≡ map head_of runs)) }
    ensures numbered { IfOk result (λ heads. AreNumberedFrom 1 heads.items) }
    ensures looked { OnlyReadsRuns S.Store conn.old conn.new }
{
    let rows = query(
        conn,
        "SELECT id, started, total, finished FROM runs ORDER BY id",
        4,
        &[],
    )?;
    heads_from_rows(alloc, &rows)
}

/// Returns the first of `heads` with the run number `number`, or `None` if there is no such head.
fn find_head(heads: &[RunHead], number: u64) -> Option<&RunHead>
    ensures found { option_copied result ≡ find (λ (head : Head). head.number == number)
        heads.now }
    ensures numbered { IfSome (option_copied result) (λ head. head.number ≡ number) }
{
    heads.iter().find(|head| head.number == number)
}

/// Returns the head of run `number`, or of the last run if `number` is `None`. `heads` are the
/// heads of all runs, ordered by number. Returns `None` if there is no such run.
pub(crate) fn select_head(heads: &[RunHead], number: Option<u64>) -> Option<RunHead>
    ensures found { result ≡ find (λ (head : Head). head.number == unwrap_or number
        (length heads.now)) heads.now }
    ensures numbered { IfSome result (IsNumbered number) }
{
    find_head(heads, number.unwrap_or(heads.len() as u64)).copied()
}
