//! Examples of result files and TAP streams, which are read at once and in pieces with equal
//! results.

use crate::escapes::unescape;
use crate::example::Example;
use crate::example_fault::{Result, convert_error};
use crate::example_output::ExampleOutput;
use kt_base::NoMemory;
use kt_claim::{Claim, ClaimReader, Tap, TapReader, read_claim, read_tap};
use std::alloc::Global;

/// The maximum length, in bytes, of a result file or TAP stream that is read in two pieces for each
/// index at which it can be split.
const MAX_SPLIT_BYTES: usize = 1_000;

/// A reader of evidence in pieces: of a result file or of a TAP stream.
#[derive(Drop)]
enum EvidenceReader {
    Claim(ClaimReader),
    Tap(TapReader),
}

impl EvidenceReader {
    /// Creates a reader of a TAP stream if `keyword` is `tap`, and of a result file otherwise.
    fn new(alloc: Global, keyword: &str) -> EvidenceReader {
        match keyword {
            "tap" => EvidenceReader::Tap(TapReader::new(alloc)),
            _ => EvidenceReader::Claim(ClaimReader::new(alloc)),
        }
    }

    /// Reads `piece`, the next piece of a result file or a TAP stream.
    fn feed(&mut self, piece: &[u8]) -> Result<(), NoMemory> {
        match self {
            EvidenceReader::Claim(reader) => reader.feed(piece),
            EvidenceReader::Tap(reader) => reader.feed(piece),
        }
    }

    /// Reads `bytes` in pieces. The first piece has at most `first` bytes, and each other piece at
    /// most `length` bytes, or 1 if `length` is 0.
    fn feed_pieces(&mut self, bytes: &[u8], first: usize, length: usize) -> Result<(), NoMemory> {
        let (front, back) = bytes.split_at(first.min(bytes.len()));
        self.feed(front)?;
        for piece in back.chunks(length.max(1)) {
            self.feed(piece)?;
        }
        Ok(())
    }

    /// Appends the claim of the result file, or the result of the TAP stream, that was read.
    fn push_parse_result(self, out: &mut ExampleOutput) {
        match self {
            EvidenceReader::Claim(reader) => push_claim(out, reader.finish()),
            EvidenceReader::Tap(reader) => push_tap(out, reader.finish()),
        }
    }
}

/// Appends the claim of a result file, or records that an allocation failed.
fn push_claim(out: &mut ExampleOutput, claim: Result<Claim, NoMemory>) {
    match claim {
        Ok(claim) => push_claim_parts(out, &claim),
        Err(refusal) => out.record_failure(refusal),
    }
}

/// Appends the name of `claim`, and its exit status, signal, fault and reason, if it has them.
fn push_claim_parts(out: &mut ExampleOutput, claim: &Claim) {
    out.push_name(claim);
    match claim {
        Claim::Missing | Claim::Unreadable | Claim::Passed => {}
        Claim::Malformed(fault) => write!(out, ": {fault:?}"),
        Claim::Failed(reason)
        | Claim::Skipped(reason)
        | Claim::ExpectedFailure(reason)
        | Claim::ExpectedDeath(reason)
        | Claim::ExpectedTimeout(reason)
        | Claim::ExpectedExit(None, reason)
        | Claim::ExpectedSignal(None, reason) => write!(out, ": {}", reason.as_str()),
        Claim::ExpectedExit(Some(number), reason) | Claim::ExpectedSignal(Some(number), reason) => {
            write!(out, "({number}): {}", reason.as_str());
        }
    }
}

/// Appends the result of a TAP stream, or records that an allocation failed.
fn push_tap(out: &mut ExampleOutput, tap: Result<Tap, NoMemory>) {
    match tap {
        Ok(Tap::Invalid(fault)) => write!(out, "invalid: {fault:?}"),
        Ok(Tap::BailedOut) => out.push("bailed out"),
        Ok(Tap::SkipAll(reason)) => write!(out, "skipped: {}", reason.as_str()),
        Ok(Tap::Counted(bad, all)) => write!(out, "{bad} of {all} failed"),
        Err(refusal) => out.record_failure(refusal),
    }
}

/// Reads `bytes` in one piece, and returns their claim or their TAP result as text.
///
/// `keyword` is `tap` for a TAP stream. Otherwise, `bytes` are a result file.
fn read_at_once(alloc: Global, keyword: &str, bytes: &[u8]) -> Result<String> {
    let mut out = ExampleOutput::new(alloc);
    match keyword {
        "tap" => push_tap(&mut out, read_tap(alloc, bytes)),
        _ => push_claim(&mut out, read_claim(alloc, bytes)),
    }
    convert_error(out.into_string())
}

/// Reads `bytes` in pieces, and returns their claim or their TAP result as text.
///
/// The first piece has at most `first` bytes, and each other piece at most `rest`. `keyword` is
/// `tap` for a TAP stream. Otherwise, `bytes` are a result file.
fn read_in_pieces(
    alloc: Global,
    keyword: &str,
    bytes: &[u8],
    first: usize,
    rest: usize,
) -> Result<String> {
    let mut reader = EvidenceReader::new(alloc, keyword);
    reader.feed_pieces(bytes, first, rest)?;
    let mut out = ExampleOutput::new(alloc);
    reader.push_parse_result(&mut out);
    convert_error(out.into_string())
}

/// Returns `true` if reading `bytes` in two pieces, split at the index `cut`, gives the text
/// `whole`. If the pieces give another text, appends that text.
///
/// `keyword` is `tap` for a TAP stream.
fn check_split(
    out: &mut ExampleOutput,
    keyword: &str,
    bytes: &[u8],
    cut: usize,
    whole: &str,
) -> Result<bool> {
    let other = read_in_pieces(out.alloc, keyword, bytes, cut, bytes.len())?;
    let agrees = other.as_str() == whole;
    if !agrees {
        write!(out, "cut at {cut}: {other}");
    }
    Ok(agrees)
}

/// Checks that reading `bytes` in two pieces, and byte by byte, gives the text `whole`. Appends
/// `whole`, or else the first text that differs from it.
///
/// Input of at most 1,000 bytes is split at each index, and longer input only before its first
/// byte. `keyword` is `tap` for a TAP stream.
fn push_checked_text(
    out: &mut ExampleOutput,
    keyword: &str,
    bytes: &[u8],
    whole: &str,
) -> Result<()> {
    let cuts = if bytes.len() > MAX_SPLIT_BYTES {
        1
    } else {
        bytes.len()
    };
    for cut in 0..cuts {
        if !check_split(out, keyword, bytes, cut, whole)? {
            return Ok(());
        }
    }
    let other = read_in_pieces(out.alloc, keyword, bytes, 0, 1)?;
    if other.as_str() != whole {
        out.push("byte by byte: ");
    }
    out.push(other.as_str());
    Ok(())
}

/// Reads the pieces in the lines `piece TEXT` of an example, and appends their claim or their TAP
/// result.
fn push_pieces(out: &mut ExampleOutput, example: &Example<'_>, keyword: &str) -> Result<()> {
    let mut reader = EvidenceReader::new(out.alloc, keyword);
    for line in example.lines.as_slice() {
        if line.keyword == "piece" {
            convert_error(reader.feed(&unescape(out.alloc, line.text)?))?;
        }
    }
    reader.push_parse_result(out);
    Ok(())
}

/// Appends the claim of the result file or the result of the TAP stream in an example.
///
/// `keyword` is the keyword of the line with this input: `file` or `tap`. The input is also read in
/// pieces, and the first text that differs is appended instead. Without this line, the input is in
/// the lines `piece TEXT`.
///
/// # Errors
///
/// - `InvalidExample`: an escape is invalid.
/// - `NoMemory`: an allocation failed.
pub fn push_output(out: &mut ExampleOutput, example: &Example<'_>, keyword: &str) -> Result<()> {
    let Some(bytes) = example.find_bytes(out.alloc, keyword)? else {
        return push_pieces(out, example, keyword);
    };
    let whole = read_at_once(out.alloc, keyword, &bytes)?;
    push_checked_text(out, keyword, &bytes, whole.as_str())
}
