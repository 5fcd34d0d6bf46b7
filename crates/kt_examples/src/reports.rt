use crate::entries::{parse_run, parse_verdict_kinds};
use crate::example::Example;
use crate::example_fault::{ExampleFault, Result};
use crate::example_output::ExampleOutput;
use crate::scripted_writer::ScriptedWriter;
use kt_base::Run;
use kt_report::ReportFault;
use std::alloc::Global;

/// Appends the start time of the run in `report`, a text report. Appends the whole report if it
/// prints no start time.
fn push_start_time(out: &mut ExampleOutput, report: &str) {
    let rest = report.split_once("started ");
    let moment = rest.and_then(|(_, rest)| rest.split_once('\n'));
    out.push(moment.unwrap_or((report, "")).0);
}

/// Prints the text report of `run` to `page`.
///
/// The line `kinds WORDS` of the example selects the sections, by default all of them. The line
/// `verbose` adds the properties that the cases declare.
fn print_text(
    alloc: Global,
    example: &Example<'_>,
    run: &Run,
    page: &mut ScriptedWriter,
) -> Result<()> {
    let all = "failed broken expected_failure skipped passed";
    let kinds = parse_verdict_kinds(alloc, example.find_text("kinds").unwrap_or(all))?;
    let _ = kt_report::text(run, &kinds, example.find_text("verbose").is_some(), page);
    Ok(())
}

/// Prints the JUnit report of `run` to `page`, and appends the message of an error to `out`.
fn print_junit(out: &mut ExampleOutput, run: &Run, page: &mut ScriptedWriter) {
    match kt_report::junit(out.alloc, run, page) {
        Ok(()) => {}
        Err(ReportFault::NoMemory(refusal)) => out.record_failure(refusal),
        Err(fault) => write!(out, "{fault}"),
    }
}

/// Prints a report of `run` to `page`. The line `report` of the example selects the report. If a
/// JUnit report fails, appends the message of the error to `out`.
fn print_report(
    out: &mut ExampleOutput,
    example: &Example<'_>,
    run: &Run,
    page: &mut ScriptedWriter,
) -> Result<()> {
    match example.find_text("report") {
        Some("line") => {
            for entry in run.entries.as_slice() {
                let _ = kt_report::line(entry, page);
            }
        }
        Some("text" | "moment") => return print_text(out.alloc, example, run, page),
        Some("junit") => print_junit(out, run, page),
        Some("fault") => {
            page.failing_write = 1;
            print_junit(out, run, page);
        }
        _ => return Err(ExampleFault::InvalidExample("no such report")),
    }
    Ok(())
}

/// Appends the report of `run` that the line `report` of the example selects. For `report moment`,
/// appends only the start time in the text report.
fn push_report(out: &mut ExampleOutput, example: &Example<'_>, run: &Run) -> Result<()> {
    let mut page = ScriptedWriter::new(out.alloc);
    print_report(out, example, run, &mut page)?;
    let text = page.written_text(out.alloc)?;
    match example.find_text("report") {
        Some("moment") => push_start_time(out, text.as_str()),
        _ => out.push(text.as_str()),
    }
    Ok(())
}

/// Appends a report of the run that an example describes.
///
/// The report is selected by `report line`, `report text`, `report junit` or `report moment`.
/// `report fault` is a JUnit report whose first write fails.
///
/// # Errors
///
/// - `InvalidExample`: a line is missing or invalid.
/// - `NoMemory`: an allocation failed.
pub fn push_output(out: &mut ExampleOutput, example: &Example<'_>) -> Result<()> {
    push_report(out, example, &parse_run(out.alloc, example)?)
}
