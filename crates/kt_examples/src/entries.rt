//! Recorded entries: parsed from the lines of an example, and printed in its output.

ghost use Rattle.std.specs.Prelude.{◌≤◌, IfOk};

use crate::escapes::{unescape, unescape_lossy};
use crate::example::{Example, ExampleLine, find_number, find_text, parse_pairs};
use crate::example_fault::{ExampleFault, Result, push_or_fail, require_part, zip_results};
use crate::example_output::ExampleOutput;
use crate::verdicts::push_verdict;
use kt_base::{Bytes, Entry, Items, Kind, LATEST_MOMENT_MILLIS, Output, Run, Verdict};
use std::alloc::Global;

/// Returns the text of the first of `lines` with the keyword `keyword`, with its escapes decoded to
/// bytes. Returns no bytes if there is no such line.
fn decode_bytes(alloc: Global, lines: &[ExampleLine<'_>], keyword: &str) -> Result<Bytes> {
    unescape(alloc, find_text(lines, keyword).unwrap_or("")).map(Bytes::from_vec)
}

/// Parses the standard output and the standard error of a body or a cleanup. `out` and `err` are
/// the keywords of their lines in `lines`.
fn parse_outputs(alloc: Global, lines: &[ExampleLine<'_>], out: &str, err: &str) -> Result<Output> {
    let (out, err) = zip_results(
        decode_bytes(alloc, lines, out),
        decode_bytes(alloc, lines, err),
    )?;
    Ok(Output { out, err })
}

/// Parses `keyword` as a verdict's kind: `passed`, `skipped`, `expected_failure`, `failed` or
/// `broken`. Allocates nothing.
///
/// # Errors
///
/// - `InvalidExample`: `keyword` isn't one of these kinds.
pub fn parse_kind(keyword: &str) -> Result<Kind> {
    match keyword {
        "passed" => Ok(Kind::Passed),
        "skipped" => Ok(Kind::Skipped),
        "expected_failure" => Ok(Kind::ExpectedFailure),
        "failed" => Ok(Kind::Failed),
        "broken" => Ok(Kind::Broken),
        _ => Err(ExampleFault::InvalidExample("no such kind")),
    }
}

/// Parses the kinds of verdicts in `words`, which are separated by white space.
///
/// # Errors
///
/// - `InvalidExample`: an element isn't a verdict's kind.
/// - `NoMemory`: an allocation failed.
pub fn parse_verdict_kinds(alloc: Global, words: &str) -> Result<Vec<Kind>> {
    let mut kinds = Vec::new(alloc);
    for keyword in words.split_whitespace() {
        push_or_fail(&mut kinds, parse_kind(keyword))?;
    }
    Ok(kinds)
}

/// Parses `text` as a verdict in the form `KIND: REASON`. Without `: `, the reason is empty.
fn parse_verdict(alloc: Global, text: &str) -> Result<Verdict> {
    let (keyword, reason) = text.split_once(": ").unwrap_or((text, ""));
    Ok(Verdict::from_kind(parse_kind(keyword)?, unescape_lossy(alloc, reason)?))
}

/// Creates an entry at the position `position` with the verdict `verdict`. `content` are the lines
/// that describe the rest of the entry.
///
/// These lines are `program TEXT`, `case TEXT`, `started MILLISECONDS`, `took MILLISECONDS`, `out
/// TEXT`, `err TEXT`, `cleanup-out TEXT`, `cleanup-err TEXT`, and `meta NAME=VALUE` for each
/// property.
fn create_entry(
    alloc: Global,
    content: &[ExampleLine<'_>],
    verdict: &str,
    position: u32,
) -> Result<Entry> {
    let program = unescape_lossy(alloc, find_text(content, "program").unwrap_or("a"));
    let case_name = unescape_lossy(alloc, find_text(content, "case").unwrap_or("main"));
    let started = find_number(content, "started", 0);
    let times = zip_results(started, find_number(content, "took", 0));
    let body = parse_outputs(alloc, content, "out", "err");
    let cleanup = parse_outputs(alloc, content, "cleanup-out", "cleanup-err");
    let said = zip_results(
        parse_verdict(alloc, verdict),
        parse_pairs(alloc, content, "meta"),
    );
    let named = zip_results(zip_results(program, case_name), times);
    let (named, said) = zip_results(named, zip_results(zip_results(body, cleanup), said))?;
    let ((program, case_name), (started, millis)) = named;
    let ((body, cleanup), (verdict, meta)) = said;
    Ok(Entry {
        position,
        program,
        case_name,
        verdict,
        started,
        millis,
        body,
        cleanup,
        meta,
    })
}

/// Creates an entry that a store accepts, at the position `at` and with the verdict `verdict`.
/// `lines` are the lines that describe the entry.
///
/// A start time or a duration above `LATEST_MOMENT_MILLIS` is reduced to that value.
///
/// # Errors
///
/// - `InvalidExample`: the verdict or a line is invalid.
/// - `NoMemory`: an allocation failed.
pub fn parse_storable_entry(
    alloc: Global,
    lines: &[ExampleLine<'_>],
    verdict: &str,
    at: u32,
) -> Result<Entry>
    ensures { IfOk result (λ e. (e.started ≤ 253402300799999) × (e.millis ≤ 253402300799999)) }
{
    let mut entry = create_entry(alloc, lines, verdict, at)?;
    entry.started = entry.started.min(LATEST_MOMENT_MILLIS);
    entry.millis = entry.millis.min(LATEST_MOMENT_MILLIS);
    Ok(entry)
}

/// Returns `true` if the keyword of `line` describes an entry of an example, such as `program` or
/// `out`.
pub fn is_entry_line(line: &ExampleLine<'_>) -> bool {
    match line.keyword {
        "program" | "case" | "started" | "took" | "meta" | "times" => true,
        "out" | "err" | "cleanup-out" | "cleanup-err" => true,
        _ => false,
    }
}

/// Returns the lines that describe the entry that begins at index `place` of `lines`: the entry
/// lines directly after this index, up to the first line of another kind.
pub fn find_entry_lines<'a, 'b>(
    lines: &'b [ExampleLine<'a>],
    place: usize,
) -> &'b [ExampleLine<'a>] {
    let (_, rest) = lines.split_at(place.saturating_add(1).min(lines.len()));
    let length = rest.iter().take_while(|line| is_entry_line(*line)).count();
    rest.split_at(length.min(rest.len())).0
}

/// Returns the number of entries in `entries`. Fails if it is 2^32 or more.
fn count_entries(entries: &Items<Entry>) -> Result<u32> {
    require_part(u32::try_from(entries.len()).ok(), "too many entries")
}

/// Appends the entry that `lines` describe, with the verdict `verdict`, to `entries`. Appends it N
/// times if the lines contain `times N`, and once otherwise.
fn push_entry_copies(
    alloc: Global,
    entries: &mut Items<Entry>,
    lines: &[ExampleLine<'_>],
    verdict: &str,
) -> Result<()> {
    for _ in 0..find_number(lines, "times", 1)? {
        let position = count_entries(entries)?;
        entries.push(create_entry(alloc, lines, verdict, position)?)?;
    }
    Ok(())
}

/// Returns the entries that `lines` describe, in order. Each entry begins with a line `entry
/// VERDICT`.
fn parse_entries(alloc: Global, lines: &[ExampleLine<'_>]) -> Result<Items<Entry>> {
    let mut entries = Items::new(alloc);
    for (place, line) in lines.iter().enumerate() {
        if line.keyword == "entry" {
            push_entry_copies(
                alloc,
                &mut entries,
                find_entry_lines(lines, place),
                line.text,
            )?;
        }
    }
    Ok(entries)
}

/// Creates the run that an example describes.
///
/// The lines of the example are `run NUMBER`, `at MILLISECONDS`, `unfinished` and `entry VERDICT`.
/// The lines below a line `entry VERDICT` describe this entry.
///
/// # Errors
///
/// - `InvalidExample`: a line is invalid, or there are 2^32 entries or more.
/// - `NoMemory`: an allocation failed.
pub fn parse_run(alloc: Global, example: &Example<'_>) -> Result<Run> {
    let (number, started) = zip_results(
        example.find_number("run", 1),
        example.find_number("at", 0),
    )?;
    let entries = parse_entries(alloc, example.lines.as_slice())?;
    Ok(Run {
        number,
        started,
        total: count_entries(&entries)?,
        finished: example.find_text("unfinished").is_none(),
        entries,
    })
}

/// Appends the four outputs of an entry: standard output and standard error of its body and of its
/// cleanup.
fn push_outputs(out: &mut ExampleOutput, entry: &Entry) {
    out.push("out=");
    out.push_bytes(entry.body.out.as_slice());
    out.push(", err=");
    out.push_bytes(entry.body.err.as_slice());
    out.push(", cleanup out=");
    out.push_bytes(entry.cleanup.out.as_slice());
    out.push(", cleanup err=");
    out.push_bytes(entry.cleanup.err.as_slice());
}

/// Appends a space and six characters: for the start time, the duration and the length of each of
/// the four outputs of an entry.
///
/// For the start time and the duration, the character is `0` if the value is 0, and otherwise `1`.
/// For an output, it is `0`, `1`, or `+` for more than one byte.
fn push_marks(out: &mut ExampleOutput, entry: &Entry) {
    let (body, cleanup) = (&entry.body, &entry.cleanup);
    out.push(" ");
    for count in [
        entry.started.min(1) as usize,
        entry.millis.min(1) as usize,
        body.out.len(),
        body.err.len(),
        cleanup.out.len(),
        cleanup.err.len(),
    ] {
        out.push(["0", "1"].get(count).copied().unwrap_or("+"));
    }
}

/// Appends `entry` in the form that `keyword` selects.
///
/// `outputs` selects the four outputs. `cases` selects the position, the program, the case, the
/// verdict and the times. `marks` selects the position, the verdict and the characters of
/// `push_marks`. Any other keyword selects the position and the verdict.
fn push_entry(out: &mut ExampleOutput, keyword: &str, entry: &Entry) {
    if keyword == "outputs" {
        return push_outputs(out, entry);
    }
    write!(out, "{} ", entry.position);
    let (program, case_name) = (entry.program.as_str(), entry.case_name.as_str());
    if keyword == "cases" {
        write!(out, "{program}:{case_name} ");
    }
    push_verdict(out, &entry.verdict);
    match keyword {
        "cases" => write!(out, ", started {}, took {}", entry.started, entry.millis),
        "marks" => push_marks(out, entry),
        _ => {}
    }
}

/// Appends the properties of all entries to `out`, one per line. The position of its entry precedes
/// each property.
fn push_entry_properties(out: &mut ExampleOutput, entries: &[Entry]) {
    let mut separator = "";
    for entry in entries {
        for pair in entry.meta.as_slice() {
            write!(out, "{separator}{}", entry.position);
            out.push_pair(" ", pair, "=");
            separator = "\n";
        }
    }
}

/// Appends each entry in the form that `keyword` selects, one entry per line.
///
/// `outputs` selects the four outputs. `cases` selects the position, the program, the case, the
/// verdict and the times. `marks` selects the position, the verdict, and a character for each time
/// and output. `pairs` selects the properties, one per line. Any other keyword selects the position
/// and the verdict.
pub fn push_entries(out: &mut ExampleOutput, keyword: &str, entries: &[Entry]) {
    if keyword == "pairs" {
        return push_entry_properties(out, entries);
    }
    let mut separator = "";
    for entry in entries {
        out.push(separator);
        push_entry(out, keyword, entry);
        separator = "\n";
    }
}
