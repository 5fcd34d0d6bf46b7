ghost use Rattle.std.specs.Prelude.{◌≡◌, ◌++◌, false, is_err, flat_map, codes};
ghost use Rattle.kt_report.specs.Common.{utf8, Emits, with_outputs, result_element, output_element, case_element, case_bytes, junit_start, junit_end, junit_bytes, junit_layout, WritesEntry, WritesWithDetails};

use crate::case_texts::CaseTexts;
use crate::details::InlineDetails;
use crate::escaping::create_case_texts;
use crate::moments::write_seconds;
use crate::summary::decimal_count;
use crate::{DetailSource, ReportFault, WriteReportError};
use kt_base::{Decimal, Entry, Kind, Output, OutputFault, Run, Text, emit, emit_all};
use std::alloc::Global;
use std::io::Write;

/// Writes the `skipped`, `failure` or `error` element of a case in the JUnit report, if it has one.
///
/// `kind` is the kind of the case's verdict. A passed case and an expected failure have no such
/// element. `reason` is the reason of the verdict, escaped for XML.
fn write_result_element<W: Write>(kind: Kind, reason: &Text, out: &mut W) -> Result<(), OutputFault>
    ensures { Emits (W.contents out.old) (W.contents out.new) (is_err result)
        (result_element kind reason.now) }
{
    match kind {
        Kind::Passed | Kind::ExpectedFailure => Ok(()),
        Kind::Skipped => emit(b"<skipped/>\n", out),
        Kind::Failed => emit_all(&[b"<failure message=\"", reason.as_bytes(), b"\"/>\n"], out),
        Kind::Broken => emit_all(&[b"<error message=\"", reason.as_bytes(), b"\"/>\n"], out),
    }
}

/// Writes the element `name` for the output `text` of a case, unless the output is empty.
///
/// The output is escaped for XML.
fn write_output_element<W: Write>(name: &[u8], text: &Text, out: &mut W) -> Result<(), OutputFault>
    ensures { Emits (W.contents out.old) (W.contents out.new) (is_err result)
        (output_element name.now text.now) }
{
    let bytes = text.as_bytes();
    if bytes.is_empty() {
        return Ok(());
    }
    emit_all(&[b"<", name, b">", bytes, b"</", name, b">\n"], out)
}

/// Writes the `testcase` element of a case in the JUnit report.
///
/// `texts` are the texts of the case, `kind` is the kind of its verdict, and `millis` is its
/// duration in milliseconds.
fn write_case_element<W: Write>(
    texts: &CaseTexts,
    kind: Kind,
    millis: u64,
    out: &mut W,
) -> Result<(), OutputFault>
    ensures { Emits (W.contents out.old) (W.contents out.new) (is_err result)
        (case_element texts.now kind millis) }
{
    emit_all(
        &[
            b"<testcase classname=\"",
            texts.program.as_bytes(),
            b"\" name=\"",
            texts.case_name.as_bytes(),
            b"\" time=\"",
        ],
        out,
    )?;
    write_seconds(u128::from(millis), out)?;
    emit(b"\">\n", out)?;
    write_result_element(kind, &texts.reason, out)?;
    write_output_element(b"system-out", &texts.out, out)?;
    write_output_element(b"system-err", &texts.err, out)?;
    emit(b"</testcase>\n", out)
}

/// Writes the beginning of the JUnit report of `run`, up to its first case.
///
/// The function uses only the verdicts of the entries. It doesn't allocate.
fn write_heading<W: Write>(run: &Run, out: &mut W) -> Result<(), OutputFault>
    ensures { Emits (W.contents out.old) (W.contents out.new) (is_err result) (junit_start run.now) }
{
    let entries = run.entries.as_slice();
    let tests = Decimal::new(entries.len() as u64);
    let failures = decimal_count(Kind::Failed, entries);
    let errors = decimal_count(Kind::Broken, entries);
    let skipped = decimal_count(Kind::Skipped, entries);
    emit_all(
        &[
            b"<?xml version=\"1.0\" encoding=\"utf-8\"?>\n<testsuite tests=\"",
            tests.as_bytes(),
            b"\" failures=\"",
            failures.as_bytes(),
            b"\" errors=\"",
            errors.as_bytes(),
            b"\" skipped=\"",
            skipped.as_bytes(),
            b"\">\n",
        ],
        out,
    )
}

/// Writes the `testcase` element of `entry` in the JUnit report, with the outputs `body` and
/// `cleanup`.
///
/// `body` is the output of the case's body, and `cleanup` is that of its cleanup. The outputs in
/// `entry` itself are not written.
fn write_full_entry<W: Write>(
    alloc: Global,
    entry: &Entry,
    body: &Output,
    cleanup: &Output,
    out: &mut W,
) -> Result<(), ReportFault>
    ensures { Emits (W.contents out.old) (W.contents out.new) (is_err result)
        (case_bytes (with_outputs entry.now body.now cleanup.now)) }
{
    let texts = create_case_texts(alloc, entry, body, cleanup)?;
    write_case_element(&texts, entry.verdict.kind(), entry.millis, out)?;
    Ok(())
}

/// Writes the `testcase` element of `entry` in the JUnit report, with the outputs that `details`
/// reads.
///
/// If `details` returns `None`, the outputs in `entry` are written.
fn write_case<D: DetailSource, W: Write>(
    alloc: Global,
    entry: &Entry,
    details: &mut D,
    out: &mut W,
) -> Result<(), WriteReportError<D::Fault, ReportFault>>
    ensures { WritesEntry D.reads_outputs details.old (W.contents out.old) (W.contents out.new)
        details.new case_bytes entry.now result }
{
    let written = match details.outputs(entry) {
        Ok(Some(read)) => write_full_entry(alloc, entry, &read.body, &read.cleanup, out),
        Ok(None) => write_full_entry(alloc, entry, &entry.body, &entry.cleanup, out),
        Err(fault) => return Err(WriteReportError::Details(fault)),
    };
    match written {
        Ok(()) => Ok(()),
        Err(fault) => Err(WriteReportError::Report(fault)),
    }
}

/// Writes the JUnit report of `run`, with the outputs that `details` reads for each entry (this
/// profile).
///
/// The test suite has a case for each recorded entry, in the order of the entries. The outputs in
/// an entry of `run` are written only if `details` returns `None` for it. The outputs of an entry
/// are read just before its case is written. Only the texts of one entry at a time are in memory.
///
/// # Errors
///
/// - `Details`: reading the outputs of an entry fails. The cases before this entry were written.
/// - `Report`: an allocation or a write fails. A proper prefix of the report was written.
pub fn write_junit_report<D: DetailSource, W: Write>(
    alloc: Global,
    run: &Run,
    details: &mut D,
    out: &mut W,
) -> Result<(), WriteReportError<D::Fault, ReportFault>>
    ensures { WritesWithDetails D.reads_outputs (junit_layout run.now) run.now.entries details.old
        (W.contents out.old) (W.contents out.new) details.new result }
{
    write_heading(run, out)?;
    for entry in run.entries.as_slice() {
        write_case(alloc, entry, details, out)?;
    }
    emit(b"</testsuite>\n", out)?;
    Ok(())
}

/// Writes the JUnit report of `run` with the outputs that its entries have (this profile).
///
/// [`write_junit_report`] describes the report.
///
/// # Errors
///
/// - `NoMemory`: an allocation fails. A proper prefix of the report was written.
/// - `Output`: a write fails. A proper prefix of the report was written.
pub fn junit<W: Write>(alloc: Global, run: &Run, out: &mut W) -> Result<(), ReportFault>
    ensures { Emits (W.contents out.old) (W.contents out.new) (is_err result)
        (junit_bytes run.now) }
{
    match write_junit_report(alloc, run, &mut InlineDetails, out) {
        Ok(()) => Ok(()),
        Err(WriteReportError::Details(fault)) => Err(ReportFault::Output(fault)),
        Err(WriteReportError::Report(fault)) => Err(fault),
    }
}
