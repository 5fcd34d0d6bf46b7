use crate::escapes::unescape;
use crate::example::Example;
use crate::example_fault::{ExampleFault, Result, convert_error, require_part, zip_results};
use crate::example_output::ExampleOutput;
use crate::scripted_writer::ScriptedWriter;
use kt_base::{Kind, Outcome, Refused, Text, Verdict};
use kt_claim::{Claim, Evidence, Tap, TapFault, read_claim, read_tap};
use kt_status::{CleanupEnd, body_verdict, refused_verdict, with_cleanup};
use std::alloc::Global;

/// Appends the kind of a verdict, followed by `: ` unless the kind is `passed`.
fn push_kind(out: &mut ExampleOutput, verdict: &Verdict) {
    let kind = verdict.kind();
    out.push(kind.word());
    if kind != Kind::Passed {
        out.push(": ");
    }
}

/// Appends the kind and the reason of a verdict, as `failed: REASON` or `passed`.
pub fn push_verdict(out: &mut ExampleOutput, verdict: &Verdict) {
    push_kind(out, verdict);
    let mut reason = Text::new(out.alloc);
    let written = verdict.write_reason(&mut reason);
    out.push_text(written.map(|()| reason));
}

/// Returns the reason of `verdict` as `print_reason` prints it to a writer.
fn capture_printed_reason(alloc: Global, verdict: &Verdict) -> Result<String> {
    let mut page = ScriptedWriter::new(alloc);
    let _ = verdict.print_reason(&mut page);
    convert_error(page.written_text(alloc))
}

/// Returns the text `so: `, to which `write_reason` has appended the reason of `verdict`.
fn capture_written_reason(alloc: Global, verdict: &Verdict) -> Result<Text> {
    let mut written = Text::from_str(alloc, "so: ")?;
    verdict.write_reason(&mut written)?;
    Ok(written)
}

/// Appends the reason of a verdict, and checks that `print_reason` and `write_reason` agree. If the
/// texts differ, appends ` but ` and the second text.
///
/// # Errors
///
/// - `NoMemory`: an allocation failed.
pub fn push_reason(out: &mut ExampleOutput, verdict: &Verdict) -> Result<()> {
    let printed = capture_printed_reason(out.alloc, verdict);
    let (printed, written) = zip_results(printed, capture_written_reason(out.alloc, verdict))?;
    out.push(printed.as_str());
    if written.as_str().strip_prefix("so: ") != Some(printed.as_str()) {
        write!(out, " but {}", written.as_str());
    }
    Ok(())
}

/// Parses `text` as the cause of a failed start: `directory`, `output`, `spawn` or `memory`.
/// Allocates nothing.
///
/// # Errors
///
/// - `InvalidExample`: `text` isn't one of these causes.
pub fn parse_refusal(text: &str) -> Result<Refused> {
    match text {
        "directory" => Ok(Refused::Directory),
        "output" => Ok(Refused::Output),
        "spawn" => Ok(Refused::Spawn),
        "memory" => Ok(Refused::Memory),
        _ => Err(ExampleFault::InvalidExample("no such refusal")),
    }
}

/// Parses `text` as an exit status or the number of a signal, from 0 to 255.
fn parse_u8(text: &str) -> Result<u8> {
    require_part(text.parse::<u8>().ok(), "no number from 0 to 255")
}

/// Parses `text` as the outcome of a child: `exited 3`, `signaled 9`, `signaled 6 core`, `timed
/// out` or `not waited for`. Allocates nothing.
///
/// # Errors
///
/// - `InvalidExample`: `text` isn't an outcome, or its number isn't from 0 to 255.
pub fn parse_outcome(text: &str) -> Result<Outcome> {
    let (keyword, rest) = text.split_once(' ').unwrap_or((text, ""));
    let front = rest.strip_suffix(" core");
    match keyword {
        "exited" => parse_u8(rest).map(Outcome::Exited),
        "signaled" => Ok(Outcome::Signaled(parse_u8(front.unwrap_or(rest))?, front.is_some())),
        _ if text == "timed out" => Ok(Outcome::TimedOut),
        _ if text == "not waited for" => Ok(Outcome::WaitFailed),
        _ => Err(ExampleFault::InvalidExample("no such ending")),
    }
}

/// Parses the first line of an example as the evidence of a case.
///
/// The line is `file TEXT`, `tap TEXT`, `plain`, `no-file`, `file-unread` or `tap-unread`.
fn parse_evidence(alloc: Global, example: &Example<'_>) -> Result<Evidence> {
    let line = example.first_line()?;
    match line.keyword {
        "file" => convert_error(read_claim(alloc, &unescape(alloc, line.text)?)).map(Evidence::Atf),
        "tap" => convert_error(read_tap(alloc, &unescape(alloc, line.text)?)).map(Evidence::Tap),
        "plain" => Ok(Evidence::Plain),
        "no-file" => Ok(Evidence::Atf(Claim::Missing)),
        "file-unread" => Ok(Evidence::Atf(Claim::Unreadable)),
        "tap-unread" => Ok(Evidence::Tap(Tap::Invalid(TapFault::Unreadable))),
        _ => Err(ExampleFault::InvalidExample("no evidence")),
    }
}

/// Returns the verdict of the case in an example, by its evidence and its body's outcome, and by
/// its cleanup if the case has one.
fn judge_case(alloc: Global, example: &Example<'_>) -> Result<Verdict> {
    let body = parse_outcome(require_part(example.find_text("body"), "no body")?)?;
    let verdict = body_verdict(parse_evidence(alloc, example)?, body);
    match example.find_text("cleanup") {
        None => Ok(verdict),
        Some("refused") => Ok(with_cleanup(verdict, CleanupEnd::Refused)),
        Some(ending) => Ok(with_cleanup(verdict, CleanupEnd::Ended(parse_outcome(ending)?))),
    }
}

/// Appends the verdict of the case that an example describes.
///
/// The example has the evidence, `body OUTCOME`, and for a case with a cleanup `cleanup OUTCOME` or
/// `cleanup refused`. If the body can't be started, it has only `refused CAUSE`.
///
/// # Errors
///
/// - `InvalidExample`: a line is missing or invalid.
/// - `NoMemory`: an allocation failed.
pub fn push_output(out: &mut ExampleOutput, example: &Example<'_>) -> Result<()> {
    let verdict = match example.find_text("refused") {
        Some(refused) => refused_verdict(parse_refusal(refused)?),
        None => judge_case(out.alloc, example)?,
    };
    push_kind(out, &verdict);
    push_reason(out, &verdict)
}
