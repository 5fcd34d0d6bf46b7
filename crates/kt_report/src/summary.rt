ghost use Rattle.std.specs.Prelude.{◌≡◌, sum_by, is_err};
ghost use Rattle.kt_report.specs.Common.{Emits, kind_count_bytes, unfinished_bytes, summary, summary_title_bytes, totals_bytes};

use crate::moments::{write_moment, write_seconds};
use crate::sections::count_kind;
use jiff::civil::Date;
use kt_base::{Decimal, Entry, Kind, OutputFault, Run, emit, emit_all};
use std::io::Write;

/// Returns the sum of the durations of `entries`, in milliseconds.
fn total_millis(entries: &[Entry]) -> u128
    ensures { result ≡ sum_by (λ e. e.millis) entries.now }
{
    let mut total = 0;
    for entry in entries {
        total += u128::from(entry.millis);
    }
    total
}

/// Returns the number of `entries` whose verdict is of the kind `kind`, as decimal digits.
pub fn decimal_count(kind: Kind, entries: &[Entry]) -> Decimal
    ensures { result ≡ kind_count_bytes kind entries.now }
{
    Decimal::new(count_kind(kind, entries) as u64)
}

/// Writes `, unfinished`, unless the run is finished. `finished` is `true` for a finished run.
fn write_unfinished_note<W: Write>(finished: bool, out: &mut W) -> Result<(), OutputFault>
    ensures { Emits (W.contents out.old) (W.contents out.new) (is_err result)
        (unfinished_bytes finished) }
{
    if finished {
        return Ok(());
    }
    emit(b", unfinished", out)
}

/// Writes the title of the text report's summary, the number of the run and the timestamp of its
/// start.
///
/// `date` is the date of the start. If the run is not finished, `, unfinished` follows.
fn write_summary_title<W: Write>(date: Date, run: &Run, out: &mut W) -> Result<(), OutputFault>
    ensures { Emits (W.contents out.old) (W.contents out.new) (is_err result)
        (summary_title_bytes date run.now) }
{
    let number = Decimal::new(run.number);
    emit_all(
        &[b"===> Summary\nRun ", number.as_bytes(), b", started "],
        out,
    )?;
    write_moment(date, run.started, out)?;
    write_unfinished_note(run.finished, out)
}

/// Writes the number of `entries`, and the number of entries of each kind of verdict except
/// `passed`.
fn write_counts<W: Write>(entries: &[Entry], out: &mut W) -> Result<(), OutputFault>
    ensures { Emits (W.contents out.old) (W.contents out.new) (is_err result)
        (totals_bytes entries.now) }
{
    let total = Decimal::new(entries.len() as u64);
    let skipped = decimal_count(Kind::Skipped, entries);
    let expected = decimal_count(Kind::ExpectedFailure, entries);
    let broken = decimal_count(Kind::Broken, entries);
    let failed = decimal_count(Kind::Failed, entries);
    emit_all(
        &[
            b"\nTest cases: ",
            total.as_bytes(),
            b" total, ",
            skipped.as_bytes(),
            b" skipped, ",
            expected.as_bytes(),
            b" expected failures, ",
            broken.as_bytes(),
            b" broken, ",
            failed.as_bytes(),
            b" failed\n",
        ],
        out,
    )
}

/// Writes the summary of a run, which ends the text report. `date` is the date of the run's start.
///
/// The function uses only the verdicts and the durations of the entries.
///
/// # Errors
///
/// - `OutputFault`: a write fails. A proper prefix of the summary was written.
pub fn write_summary<W: Write>(date: Date, run: &Run, out: &mut W) -> Result<(), OutputFault>
    ensures { Emits (W.contents out.old) (W.contents out.new) (is_err result)
        (summary date run.now) }
{
    let entries = run.entries.as_slice();
    write_summary_title(date, run, out)?;
    write_counts(entries, out)?;
    emit(b"Total time: ", out)?;
    write_seconds(total_millis(entries), out)?;
    emit(b"s\n", out)
}
