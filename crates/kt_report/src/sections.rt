ghost use Rattle.std.specs.Prelude.{◌≡◌, ◌∷◌, [], None, length, is_err};
ghost use Rattle.kt_report.specs.Common.{list_any, Emits, is_same_kind, entries_of, chosen_entries, entries_by_section, section_title, title_line_after, section_order, reads_if_verbose, WritesEntries};

use crate::pairs::write_entry;
use crate::{DetailSource, WriteReportError};
use kt_base::{Entry, Kind, OutputFault, emit_all};
use std::io::Write;

/// The kinds of verdicts, in the order of their sections in the text report.
const SECTION_ORDER: [Kind; 5] = [
    Kind::Passed,
    Kind::Skipped,
    Kind::ExpectedFailure,
    Kind::Broken,
    Kind::Failed,
];

/// Returns the kinds of verdicts, in the order of their sections in the text report.
fn section_order() -> &'static [Kind]
    ensures { result.now ≡ section_order }
{
    &SECTION_ORDER
}

/// Returns `true` if the kinds `kind` and `other` are equal.
fn is_same_kind(kind: Kind, other: Kind) -> bool
    ensures { result ≡ is_same_kind kind other }
{
    kind == other
}

/// Returns `true` if `kind` is one of `kinds`, the kinds of verdicts that are chosen for the
/// report.
fn is_chosen(kinds: &[Kind], kind: Kind) -> bool
    ensures { result ≡ list_any (is_same_kind kind) kinds.now }
{
    kinds.iter().any(|first| is_same_kind(kind, *first))
}

/// Returns the number of `entries` whose verdict is of the kind `kind`.
pub fn count_kind(kind: Kind, entries: &[Entry]) -> usize
    ensures { result ≡ length (entries_of kind entries.now) }
{
    let mut found = 0;
    for entry in entries {
        if is_same_kind(kind, entry.verdict.kind()) {
            found += 1;
        }
    }
    found
}

/// Returns the title of the section of `kind` in the text report.
fn section_title(kind: Kind) -> &'static [u8]
    ensures { result.now ≡ section_title kind }
{
    match kind {
        Kind::Passed => b"Passed tests",
        Kind::Skipped => b"Skipped tests",
        Kind::ExpectedFailure => b"Expected failures",
        Kind::Broken => b"Broken tests",
        Kind::Failed => b"Failed tests",
    }
}

/// Writes the title of the section of `kind` in the text report, unless the title was written
/// before.
///
/// `before` is the kind of the preceding entry, or `None` for the first entry. The title was
/// written before if `before` is `kind`.
fn write_title<W: Write>(before: Option<Kind>, kind: Kind, out: &mut W) -> Result<(), OutputFault>
    ensures { Emits (W.contents out.old) (W.contents out.new) (is_err result)
        (title_line_after before kind) }
{
    match before {
        Some(before) if is_same_kind(before, kind) => Ok(()),
        _ => emit_all(&[b"===> ", section_title(kind), b"\n"], out),
    }
}

/// Writes the lines of `entry` in the text report, and returns the kind of its verdict.
///
/// If `verbose` is `true`, the properties that `details` reads follow the line of the entry.
/// `before` is the kind of the preceding entry, if any. If the kind of the entry differs from
/// `before`, the title of its section precedes the line.
fn write_titled_entry<D: DetailSource, W: Write>(
    verbose: bool,
    before: Option<Kind>,
    entry: &Entry,
    details: &mut D,
    out: &mut W,
) -> Result<Option<Kind>, WriteReportError<D::Fault, OutputFault>>
    ensures { WritesEntries (reads_if_verbose verbose D.reads_pairs) details.old (W.contents
        out.old)
        (W.contents out.new) details.new verbose before (entry.now ∷ []) result }
{
    let kind = entry.verdict.kind();
    write_title(before, kind, out)?;
    write_entry(verbose, entry, details, out)?;
    Ok(Some(kind))
}

/// Writes the section of `kind` in the text report, if `kind` is one of the chosen `kinds`.
///
/// The section has those of `entries` whose verdict is of the kind `kind`. If `verbose` is `true`,
/// the properties that `details` reads follow the line of each entry. `before` is the kind of the
/// preceding entry, if any. Returns the kind of the last written entry, or `before` if nothing is
/// written.
fn write_section<D: DetailSource, W: Write>(
    verbose: bool,
    kinds: &[Kind],
    entries: &[Entry],
    kind: Kind,
    before: Option<Kind>,
    details: &mut D,
    out: &mut W,
) -> Result<Option<Kind>, WriteReportError<D::Fault, OutputFault>>
    ensures { WritesEntries (reads_if_verbose verbose D.reads_pairs) details.old (W.contents
        out.old)
        (W.contents out.new) details.new verbose before
        (chosen_entries kinds.now entries.now kind) result }
{
    if !is_chosen(kinds, kind) {
        return Ok(before);
    }
    let mut last = before;
    for entry in entries {
        if is_same_kind(kind, entry.verdict.kind()) {
            last = write_titled_entry(verbose, last, entry, details, out)?;
        }
    }
    Ok(last)
}

/// Writes the sections of the text report for the chosen `kinds`, and returns the kind of the last
/// written entry.
///
/// The sections contain `entries`, and are in the order of `section_order`. If `verbose` is `true`,
/// the properties that `details` reads follow the line of each entry. The result is `None` if
/// nothing is written.
///
/// # Errors
///
/// - `Details`: reading the properties of an entry fails. The entries before this entry and the
///   title of its section were written.
/// - `Report`: a write fails. A proper prefix of the sections was written.
pub fn write_sections<D: DetailSource, W: Write>(
    verbose: bool,
    kinds: &[Kind],
    entries: &[Entry],
    details: &mut D,
    out: &mut W,
) -> Result<Option<Kind>, WriteReportError<D::Fault, OutputFault>>
    ensures { WritesEntries (reads_if_verbose verbose D.reads_pairs) details.old (W.contents
        out.old)
        (W.contents out.new) details.new verbose None
        (entries_by_section kinds.now entries.now) result }
{
    let mut last = None;
    for kind in section_order() {
        last = write_section(verbose, kinds, entries, *kind, last, details, out)?;
    }
    Ok(last)
}
