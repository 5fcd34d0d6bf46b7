ghost use Rattle.std.specs.Prelude.{is_err, ◌≡◌, Bool, false, List};
ghost use Rattle.kt_report.specs.Common.{Date, Emits, IsDateOf, text_bytes, text_layout, entries_by_section, reads_if_verbose, WritesWithDetails, Entry, Output, Kind, Run, junit_start, case_bytes, with_outputs, ChangesHiddenParts, with_entries};

use crate::details::InlineDetails;
use crate::moments::civil_date;
use crate::sections::write_sections;
use crate::summary::write_summary;
use crate::{DetailSource, WriteReportError};
use kt_base::{Kind, OutputFault, Run};
use std::io::Write;

/// Writes the text report of `run`, with the properties that `details` reads for each entry (this
/// profile).
///
/// There is a section for each of the chosen `kinds` that has an entry, and then the summary. The
/// order of the sections is passed, skipped, expected failures, broken, failed. If `verbose` is
/// `true`, the properties that a case declares follow its line. They are read just before the line
/// is written, so that only the properties of one entry are in memory. If `verbose` is `false`, no
/// properties are read. A timestamp after the year 9999 is printed as the last timestamp of that
/// year. The function doesn't allocate.
///
/// # Errors
///
/// - `Details`: reading the properties of an entry fails. The entries before this entry and the
///   title of its section were written.
/// - `Report`: a write fails. A proper prefix of the report was written.
pub fn write_text_report<D: DetailSource, W: Write>(
    run: &Run,
    kinds: &[Kind],
    verbose: bool,
    details: &mut D,
    out: &mut W,
) -> Result<(), WriteReportError<D::Fault, OutputFault>>
    ensures { (date : Date) × IsDateOf run.now.started date
        × WritesWithDetails (reads_if_verbose verbose D.reads_pairs) (text_layout date verbose
        run.now)
        (entries_by_section kinds.now run.now.entries) details.old (W.contents out.old)
        (W.contents out.new) details.new result }
{
    let date = civil_date(run.started);
    write_sections(verbose, kinds, run.entries.as_slice(), details, out)?;
    write_summary(date, run, out)?;
    Ok(())
}

/// Writes the text report of `run`, whose entries contain their properties (this profile).
///
/// The sections are those of the chosen `kinds`. The properties of an entry follow its line if
/// `verbose` is `true`. [`write_text_report`] describes the report. The function doesn't allocate.
///
/// # Errors
///
/// - `OutputFault`: a write fails. A proper prefix of the report was written.
pub fn text<W: Write>(
    run: &Run,
    kinds: &[Kind],
    verbose: bool,
    out: &mut W,
) -> Result<(), OutputFault>
    ensures { (date : Date) × IsDateOf run.now.started date
        × Emits (W.contents out.old) (W.contents out.new) (is_err result)
        (text_bytes date kinds.now verbose run.now) }
{
    match write_text_report(run, kinds, verbose, &mut InlineDetails, out) {
        Ok(()) => Ok(()),
        Err(WriteReportError::Details(fault)) => Err(fault),
        Err(WriteReportError::Report(fault)) => Err(fault),
    }
}

/// Theorem: a report doesn't depend on the parts of entries that it doesn't contain.
///
/// The text report and the start of the JUnit report don't depend on the outputs of entries. A
/// case of the JUnit report that is written with given outputs doesn't depend on those in its
/// entry. The JUnit report, and the text report without `verbose`, don't depend on the properties
/// that cases declare.
pub fn theorem_of_hidden_parts()
    ensures text { (change : Entry → Entry) (date : Date) (kinds : List Kind) (verbose : Bool)
        (run : Run) → ChangesHiddenParts verbose change
        → text_bytes date kinds verbose (with_entries change run)
        ≡ text_bytes date kinds verbose run }
    ensures heading { (change : Entry → Entry) (run : Run) → ChangesHiddenParts false change
        → junit_start (with_entries change run) ≡ junit_start run }
    ensures case { (change : Entry → Entry) (e : Entry) (body cleanup : Output)
        → ChangesHiddenParts false change
        → case_bytes (with_outputs (change e) body cleanup)
        ≡ case_bytes (with_outputs e body cleanup) }
{}
