//! The parser of a list of test cases.

ghost use Rattle.std.specs.Prelude.{◌⊎◌, List, Result, ◌≡◌, ◌<◌, ◌∷◌, [], length, MatchOption, IfSome};
ghost use Rattle.kt_atflist.specs.Common.{IsResult, IsOutOfMemory, IsResultOrOutOfMemory, ListFault, CaseDef, lines, read_rest, initial_state, read_blocks, read_from_line_2, read_lines};

use crate::reading::{ListReader, ListStep};
use crate::steps::{finish_list, process_line};
use crate::{CaseDef, ListCause, ListFault};
use kt_base::{Items, line_length};
use std::alloc::Global;

/// Splits `text` into its first line, without the newline, and the bytes after that line.
///
/// Returns `None` if `text` is empty.
fn split_first_line(text: &[u8]) -> Option<(&[u8], &[u8])>
    ensures value { MatchOption result (lines text.now ≡ [])
        (λ parts. lines text.now ≡ parts.0.now ∷ lines parts.1.now) }
    ensures shorter { IfSome result (λ parts. length parts.1.now < length text.now) }
{
    if text.is_empty() {
        return None;
    }
    let (line, rest) = text.split_at(line_length(text));
    match rest.split_first() {
        None => Some((line, rest)),
        Some((_, after)) => Some((line, after)),
    }
}

/// The first line of each list of test cases, without its newline (atf-test-program(1)).
const LIST_HEADER: &[u8] = b"Content-Type: application/X-atf-tp; version=\"1\"";

/// Parses `text`, the lines of a list of test cases from line 3 on, and returns the cases.
fn read_from_line_3(alloc: Global, text: &[u8]) -> Result<Items<CaseDef>, ListFault>
    ensures { IsResultOrOutOfMemory result (read_rest 3 initial_state (lines text.now)) }
{
    let mut line = 3u64;
    let mut rest = text;
    let mut reading = ListReader::new(alloc);
    while let Some((first, after)) = split_first_line(rest) {
        match process_line(alloc, reading, first)? {
            ListStep::FaultyLine(cause) => return Err(ListFault { cause, line }),
            ListStep::NextState(next) => reading = next,
        }
        line += 1;
        rest = after;
    }
    let cases = finish_list(reading)?;
    Ok(cases)
}

/// Parses `text`, the blocks of a list of test cases from line 3 on, and returns the cases.
///
/// Fails with `EmptyList` if line 3 is missing.
fn read_blocks(alloc: Global, text: &[u8]) -> Result<Items<CaseDef>, ListFault>
    ensures { IsResultOrOutOfMemory result (read_blocks (lines text.now)) }
{
    if split_first_line(text).is_none() {
        return Err(ListFault {
            cause: ListCause::EmptyList,
            line: 3,
        });
    }
    read_from_line_3(alloc, text)
}

/// Parses `text`, the lines of a list of test cases from line 2 on, and returns the cases.
///
/// Fails with `BadHeader` if line 2 is missing or not empty.
fn read_from_line_2(alloc: Global, text: &[u8]) -> Result<Items<CaseDef>, ListFault>
    ensures { IsResultOrOutOfMemory result (read_from_line_2 (lines text.now)) }
{
    let wrong = ListFault {
        cause: ListCause::BadHeader,
        line: 2,
    };
    let Some((line, rest)) = split_first_line(text) else {
        return Err(wrong);
    };
    if !line.is_empty() {
        return Err(wrong);
    }
    read_blocks(alloc, rest)
}

/// Parses `text`, the lines of a list of test cases, and returns the cases.
///
/// Fails with `BadHeader` if line 1 is missing or is not `LIST_HEADER`.
fn read_lines(alloc: Global, text: &[u8]) -> Result<Items<CaseDef>, ListFault>
    ensures { IsResultOrOutOfMemory result (read_lines (lines text.now)) }
{
    let wrong = ListFault {
        cause: ListCause::BadHeader,
        line: 1,
    };
    let Some((line, rest)) = split_first_line(text) else {
        return Err(wrong);
    };
    if line != LIST_HEADER {
        return Err(wrong);
    }
    read_from_line_2(alloc, rest)
}

/// Parses `text` as the list of an ATF program's test cases, in order (atf-test-program(1)).
///
/// # Errors
///
/// - `NotUtf8` at line 0: `text` isn't UTF-8.
/// - `BadHeader` at line 1 or 2: line 1 isn't the header, or line 2 is missing or not empty.
/// - `EmptyList` at line 3: nothing follows line 2.
/// - `NoIdent`, `BadLine`, `RepeatedKey`, `RepeatedIdent`, `UnknownKey` or `BadValue` at the first
///   faulty line: [`ListCause`] has the conditions.
/// - `NoMemory` at line 0: an allocation fails.
pub fn parse_list(alloc: Global, text: &[u8]) -> Result<Items<CaseDef>, ListFault>
    // Unless an allocation failed, the result is the cases of the text or its first fault.
    ensures answer { IsOutOfMemory result ⊎ IsResult text.now result }
    ensures only { (answer : Result (List CaseDef) ListFault) → IsResult text.now answer
        → IsResultOrOutOfMemory result answer }
{
    match str::from_utf8(text) {
        Err(_) => Err(ListFault {
            cause: ListCause::NotUtf8,
            line: 0,
        }),
        Ok(_) => read_lines(alloc, text),
    }
}
