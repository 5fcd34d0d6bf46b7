ghost use Rattle.std.specs.Prelude.{◌≡◌, is_err, true, None};
ghost use Rattle.kt_cli.specs.Common.{case_options_of, ExecutesWithoutWorld, utf8, Emits, WritesReport, WritesStoredReport, Date, IsDateOf, junit_layout, outputs_reading, pairs_reading, text_layout, entries_by_section, PrintsReport, PrintsJunitReport, IsMissing, ReadsRun, not_shown_line};

use crate::Exit;
use crate::commands::report_error::ReportError;
use crate::commands::stored_details::StoredDetails;
use crate::messages::{write_memory_error, write_store_error};
use crate::output::exit::{FAILURE, exit_after_write};
use kt_args::Command;
use kt_base::{Decimal, Items, Kind, OutputFault, Run, emit, emit_all};
use kt_report::{ReportFault, WriteReportError, text, write_junit_report, write_text_report};
use kt_store::{ResultStore, StoreFault};
use std::alloc::Global;
use std::io::Write;

/// Returns the error of a report whose run is missing: run `number`, or the last run if `number` is
/// `None`.
///
/// The error is `NoRuns` if the store has no runs, `Refused` if it can't be read, else `NoRun`.
fn missing_run_error<R: ResultStore>(number: Option<u64>, results: &mut R) -> ReportError
    ensures { IsMissing R.StoreSpec number results.old results.new result }
{
    let Some(wanted) = number else {
        return ReportError::NoRuns;
    };
    match results.head(None) {
        Ok(Some(_)) => ReportError::NoRun(wanted),
        Ok(None) => ReportError::NoRuns,
        Err(fault) => ReportError::Refused(fault),
    }
}

/// Reads run `number`, or the last run if `number` is `None`, without properties and outputs.
///
/// Fails if there is no such run, or if a call of the store fails.
fn read_run<R: ResultStore>(number: Option<u64>, results: &mut R) -> Result<Run, ReportError>
    ensures { ReadsRun R.StoreSpec number results.old results.new result }
{
    let found = match results.head(number) {
        Ok(found) => found,
        Err(fault) => return Err(ReportError::Refused(fault)),
    };
    let Some(head) = found else {
        return Err(missing_run_error(number, results));
    };
    match results.outline(head.number) {
        Ok(entries) => Ok(Run {
            number: head.number,
            started: head.started,
            total: head.total,
            finished: head.finished,
            entries: Items::from_vec(entries),
        }),
        Err(fault) => Err(ReportError::Refused(fault)),
    }
}

/// Writes the error line of a run that can't be shown because of the error `why`.
fn write_report_error<O: Write>(why: ReportError, out: &mut O) -> Result<(), OutputFault>
    ensures { Emits (O.contents out.old) (O.contents out.new) (is_err result)
        (utf8 (not_shown_line why)) }
{
    match why {
        ReportError::NoRuns => emit(b"kyua: E: no runs\n", out),
        ReportError::NoRun(number) => {
            let digits = Decimal::new(number);
            emit_all(&[b"kyua: E: no run ", digits.as_bytes(), b"\n"], out)
        }
        ReportError::Refused(fault) => write_store_error(fault, out),
    }
}

/// Writes the text report of a run, with the properties of each case. Only cases with a verdict of
/// one of `kinds` are listed.
///
/// The properties are read entry by entry, so that they are held for one entry at a time. Fails if
/// the properties of an entry can't be read, or if a write fails.
fn write_text<R: ResultStore, O: Write>(
    run: &Run,
    kinds: &[Kind],
    results: &mut R,
    out: &mut O,
) -> Result<(), WriteReportError<StoreFault, OutputFault>>
    ensures { (date : Date) × IsDateOf run.now.started date
        × WritesStoredReport R.StoreSpec pairs_reading run.now.number (text_layout date true run.now)
        (entries_by_section kinds.now run.now.entries) results.old results.new
        (O.contents out.old) (O.contents out.new) result }
{
    let number = run.number;
    let mut details = StoredDetails { results, number };
    let written = write_text_report(run, kinds, true, &mut details, out);
    // No effect: this use shows the prover that the borrow of the details ends here.
    let _ = &*details.results;
    written
}

/// Executes `report`: prints a run as text, and returns the exit status.
///
/// Shows run `number`, or the last run if `number` is `None`. Only cases with a verdict of one of
/// `kinds` are listed. If `verbose` is set, the properties of each case follow its line. The exit
/// status is 0, or 2 if the run is missing or can't be read, or if a write fails.
pub fn report<R: ResultStore, O: Write>(
    number: Option<u64>,
    kinds: &[Kind],
    verbose: bool,
    results: &mut R,
    out: &mut O,
) -> Exit
    ensures { WritesReport R.StoreSpec results.old results.new (O.contents out.old)
        (O.contents out.new) result.status
        (λ failed. PrintsReport number kinds.now failed verbose) }
{
    let run = match read_run(number, results) {
        Ok(run) => run,
        Err(why) => return exit_after_write(write_report_error(why, out), FAILURE),
    };
    if !verbose {
        return exit_after_write(text(&run, kinds, false, out), 0);
    }
    match write_text(&run, kinds, results, out) {
        Ok(()) => Exit { status: 0 },
        Err(WriteReportError::Details(fault)) => exit_after_write(
            write_store_error(fault, out),
            FAILURE,
        ),
        Err(WriteReportError::Report(_)) => Exit { status: FAILURE },
    }
}

/// Writes the JUnit report of a run.
///
/// The outputs are read entry by entry, so that they are held for one entry at a time. Fails if the
/// outputs of an entry can't be read, if a write fails, or if an allocation fails.
fn write_junit<R: ResultStore, O: Write>(
    alloc: Global,
    run: &Run,
    results: &mut R,
    out: &mut O,
) -> Result<(), WriteReportError<StoreFault, ReportFault>>
    ensures { WritesStoredReport R.StoreSpec outputs_reading run.now.number (junit_layout run.now)
        run.now.entries results.old results.new (O.contents out.old) (O.contents out.new) result }
{
    let number = run.number;
    let mut details = StoredDetails { results, number };
    let written = write_junit_report(alloc, run, &mut details, out);
    // No effect: this use shows the prover that the borrow of the details ends here.
    let _ = &*details.results;
    written
}

/// Executes `report-junit`: prints a run as a JUnit report, and returns the exit status.
///
/// Shows run `number`, or the last run if `number` is `None`. The exit status is 0, or 2 if the run
/// is missing or can't be read, if a write fails, or if memory runs out.
pub fn report_junit<R: ResultStore, O: Write>(
    alloc: Global,
    number: Option<u64>,
    results: &mut R,
    out: &mut O,
) -> Exit
    ensures { WritesReport R.StoreSpec results.old results.new (O.contents out.old)
        (O.contents out.new) result.status (PrintsJunitReport number) }
{
    let run = match read_run(number, results) {
        Ok(run) => run,
        Err(why) => return exit_after_write(write_report_error(why, out), FAILURE),
    };
    match write_junit(alloc, &run, results, out) {
        Ok(()) => Exit { status: 0 },
        Err(WriteReportError::Details(fault)) => exit_after_write(
            write_store_error(fault, out),
            FAILURE,
        ),
        Err(WriteReportError::Report(ReportFault::Output(_))) => Exit { status: FAILURE },
        Err(WriteReportError::Report(ReportFault::NoMemory(refusal))) => {
            exit_after_write(write_memory_error(refusal, out), FAILURE)
        }
    }
}

/// Executes `report` or `report-junit`, and returns the exit status.
pub fn execute_report<R: ResultStore, O: Write>(
    alloc: Global,
    command: &Command,
    results: &mut R,
    out: &mut O,
) -> Exit
    requires { case_options_of command.now ≡ None }
    ensures { ExecutesWithoutWorld R.StoreSpec command.now results.old results.new
        (O.contents out.old) (O.contents out.new) result.status }
{
    match command {
        Command::Report {
            options,
            kinds,
            verbose,
        } => report(options.run, kinds.as_slice(), *verbose, results, out),
        Command::ReportJunit(options) => report_junit(alloc, options.run, results, out),
        Command::List(_) | Command::Test { .. } | Command::Debug(_) => unreachable!(),
    }
}
