use crate::escapes::{unescape, unescape_lossy};
use crate::example_fault::{Result, convert_error, require_part, zip_results};
use crate::numbers::{expand_copies, parse_number};
use kt_base::{Variable, Variables};
use std::alloc::Global;

/// A line of an example's input: a keyword and the text after it.
#[derive(Clone, Copy)]
pub struct ExampleLine<'a> {
    /// The keyword, which is the first word of the line.
    pub keyword: &'a str,
    /// The text after the keyword. Its escapes are not decoded.
    pub text: &'a str,
}

/// An example: the lines of its input, and the lines of its expected output.
#[derive(Drop)]
pub struct Example<'a> {
    /// The number of the example's first line in its `.rows` file, counted from 1.
    pub line_number: u64,
    /// The lines of the example's input, in order.
    pub lines: Vec<ExampleLine<'a>>,
    /// The lines of the example's expected output. Their escapes are not decoded.
    pub expected: Vec<&'a str>,
}

/// Returns the text of the first of `lines` with the keyword `keyword`, or `None` if there is no
/// such line. The escapes of the text are not decoded.
pub fn find_text<'a>(lines: &[ExampleLine<'a>], keyword: &str) -> Option<&'a str> {
    let line = lines.iter().find(|line| line.keyword == keyword)?;
    Some(line.text)
}

/// Returns the number in the first of `lines` with the keyword `keyword`, or `other` if there is no
/// such line. Allocates nothing.
///
/// # Errors
///
/// - `InvalidExample`: the text after the keyword isn't a number from 0 to 2^64 - 1.
pub fn find_number(lines: &[ExampleLine<'_>], keyword: &str, other: u64) -> Result<u64> {
    find_text(lines, keyword).map_or(Ok(other), parse_number)
}

/// Decodes the escapes of `raw`, and appends the decoded bytes to `bytes`.
///
/// # Errors
///
/// - `InvalidExample`: an escape or a repetition is invalid.
/// - `NoMemory`: an allocation failed.
pub fn append_unescaped(alloc: Global, bytes: &mut Vec<u8>, raw: &str) -> Result<()> {
    convert_error(bytes.extend_from_slice(&unescape(alloc, raw)?))
}

/// Parses `raw` as `NAME=VALUE`, split at the first `=`, and decodes the escapes of both parts.
/// Without `=`, the value is empty.
///
/// # Errors
///
/// - `InvalidExample`: an escape or a repetition is invalid.
/// - `NoMemory`: an allocation failed.
pub fn parse_pair(alloc: Global, raw: &str) -> Result<Variable> {
    let (name, value) = raw.split_once('=').unwrap_or((raw, ""));
    let (name, value) = zip_results(unescape_lossy(alloc, name), unescape_lossy(alloc, value))?;
    Ok(Variable { name, value })
}

/// Parses the text of each of `lines` with the keyword `keyword` as `NAME=VALUE`, and returns these
/// pairs in order.
///
/// # Errors
///
/// - `InvalidExample`: an escape or a repetition is invalid.
/// - `NoMemory`: an allocation failed.
pub fn parse_pairs(alloc: Global, lines: &[ExampleLine<'_>], keyword: &str) -> Result<Variables> {
    let mut pairs = Variables::new(alloc);
    for line in lines {
        if line.keyword == keyword {
            pairs.push(parse_pair(alloc, line.text)?)?;
        }
    }
    Ok(pairs)
}

impl<'a> Example<'a> {
    /// Returns the first line of the example's input. Allocates nothing.
    ///
    /// # Errors
    ///
    /// - `InvalidExample`: the example has no input.
    pub fn first_line(&self) -> Result<ExampleLine<'a>> {
        require_part(self.lines.first().copied(), "the row is empty")
    }

    /// Returns the text of the first line of the example's input with the keyword `keyword`, or
    /// `None` if there is no such line. The escapes of the text are not decoded.
    pub fn find_text(&self, keyword: &str) -> Option<&'a str> {
        find_text(self.lines.as_slice(), keyword)
    }

    /// Returns the number in the first line of the example's input with the keyword `keyword`, or
    /// `other` if there is no such line. Allocates nothing.
    ///
    /// # Errors
    ///
    /// - `InvalidExample`: the text after the keyword isn't a number from 0 to 2^64 - 1.
    pub fn find_number(&self, keyword: &str, other: u64) -> Result<u64> {
        find_number(self.lines.as_slice(), keyword, other)
    }

    /// Returns the text of the first line of the example's input with the keyword `keyword`, with
    /// its escapes decoded to bytes. Returns `None` if there is no such line.
    ///
    /// # Errors
    ///
    /// - `InvalidExample`: an escape or a repetition is invalid.
    /// - `NoMemory`: an allocation failed.
    pub fn find_bytes(&self, alloc: Global, keyword: &str) -> Result<Option<Vec<u8>>> {
        self.find_text(keyword)
            .map(|raw| unescape(alloc, raw))
            .transpose()
    }

    /// Returns the text of the first line of the example's input with the keyword `keyword`, with
    /// its escapes decoded to bytes. The example must have such a line.
    ///
    /// # Errors
    ///
    /// - `InvalidExample`: no line has the keyword (the error's text is `fault`), or an escape or a
    ///   repetition is invalid.
    /// - `NoMemory`: an allocation failed.
    pub fn require_bytes(
        &self,
        alloc: Global,
        keyword: &str,
        fault: &'static str,
    ) -> Result<Vec<u8>> {
        unescape(alloc, require_part(self.find_text(keyword), fault)?)
    }

    /// Returns the expected output with its escapes decoded to bytes, and with a newline between
    /// two lines.
    ///
    /// # Errors
    ///
    /// - `InvalidExample`: an escape or a repetition is invalid.
    /// - `NoMemory`: an allocation failed.
    pub fn expected_bytes(&self, alloc: Global) -> Result<Vec<u8>> {
        unescape(alloc, self.expected.as_slice().join(alloc, "\n")?.as_str())
    }
}

/// Parses `raw` as `COUNT TEXT`, and appends COUNT copies of the text to `bytes`, with their
/// escapes decoded. Each `#` in a copy is replaced by the copy's number, counted from 0.
fn append_numbered_copies(alloc: Global, bytes: &mut Vec<u8>, raw: &str) -> Result<()> {
    for text in expand_copies(alloc, raw)?.as_slice() {
        append_unescaped(alloc, bytes, text.as_str())?;
    }
    Ok(())
}

/// Returns `bytes`, followed by the copies that the lines `numbered COUNT TEXT` of the example
/// describe.
///
/// Each of these lines describes COUNT copies of its text. Each `#` in a copy is replaced by the
/// copy's number, counted from 0.
///
/// # Errors
///
/// - `InvalidExample`: a line or an escape is invalid, or `bytes` is this error.
/// - `NoMemory`: an allocation failed, or `bytes` is this error.
pub fn append_copies(
    alloc: Global,
    bytes: Result<Vec<u8>>,
    example: &Example<'_>,
) -> Result<Vec<u8>> {
    let mut bytes = bytes?;
    for line in example.lines.as_slice() {
        if line.keyword == "numbered" {
            append_numbered_copies(alloc, &mut bytes, line.text)?;
        }
    }
    Ok(bytes)
}
