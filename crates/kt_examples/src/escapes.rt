use crate::example_fault::{ExampleFault, Result, convert_error, require_part};
use kt_base::{Text, lossy};
use std::alloc::Global;

/// The maximum total length of the copies of one repetition `\*N{TEXT}`, in bytes.
const MAX_REPETITION_BYTES: usize = 33_554_432;

/// A decoder of the escapes in a text, with the bytes still to decode and the bytes decoded so far.
#[derive(Drop)]
struct Unescaper<'a> {
    alloc: Global,
    rest: &'a [u8],
    text: Vec<u8>,
    /// The number of copies of the open repetition, and the index in `text` of its first byte, or
    /// `None` if no repetition is open.
    repetition: Option<(usize, usize)>,
}

/// Parses the byte `b` as a hexadecimal digit. Fails if `b` is `None` or isn't such a digit.
fn parse_hex_digit(b: Option<u8>) -> Result<u32> {
    let digit = char::from(b.unwrap_or(b' ')).to_digit(16);
    require_part(digit, "\\x without two hexadecimal digits")
}

/// Appends `times` copies of `piece` to `text`. Fails if the copies have more than 32 MiB together.
fn push_copies(text: &mut Vec<u8>, piece: &[u8], times: usize) -> Result<()> {
    if piece.len().saturating_mul(times) > MAX_REPETITION_BYTES {
        return Err(ExampleFault::InvalidExample("a text past 32 MiB"));
    }
    if let [b] = piece {
        return convert_error(text.resize(text.len().saturating_add(times), *b));
    }
    for _ in 0..times {
        text.extend_from_slice(piece)?;
    }
    Ok(())
}

/// Replaces the bytes of `text` from the index `from` on by `times` copies of these bytes.
fn repeat_suffix(alloc: Global, text: &mut Vec<u8>, from: usize, times: usize) -> Result<()> {
    let piece = text.get(from..).unwrap_or(&[]).to_vec(alloc)?;
    text.truncate(from);
    push_copies(text, &piece, times)
}

impl Unescaper<'_> {
    /// Returns the next byte to decode, or `None` at the end of the text.
    fn next(&mut self) -> Option<u8> {
        let (b, rest) = self.rest.split_first()?;
        self.rest = rest;
        Some(*b)
    }

    /// Decodes the two hexadecimal digits after `\x`, and appends their byte.
    fn decode_hex(&mut self) -> Result<()> {
        let high = parse_hex_digit(self.next())?;
        let low = parse_hex_digit(self.next())?;
        let b = u8::try_from(high.wrapping_mul(16).wrapping_add(low));
        convert_error(self.text.push(b.unwrap_or(0)))
    }

    /// Decodes the number and the open brace after `\*`, which begin a repetition.
    fn open_repetition(&mut self) -> Result<()> {
        let mut count: usize = 0;
        for _ in 0..self.rest.len() {
            match self.next() {
                Some(b @ b'0'..=b'9') => {
                    count = count.saturating_mul(10).saturating_add((b - b'0') as usize);
                }
                Some(b'{') => {
                    self.repetition = Some((count, self.text.len()));
                    return Ok(());
                }
                _ => break,
            }
        }
        Err(ExampleFault::InvalidExample("\\* without a number and a text in braces"))
    }

    /// Decodes the rest of an escape, after its backslash.
    fn decode_escape(&mut self) -> Result<()> {
        let b = match self.next() {
            Some(b'x') => return self.decode_hex(),
            Some(b'*') => return self.open_repetition(),
            Some(b'n') => b'\n',
            Some(b't') => b'\t',
            Some(b'r') => b'\r',
            Some(b's') => b' ',
            Some(b @ (b'\\' | b'}')) => b,
            _ => return Err(ExampleFault::InvalidExample("no such escape")),
        };
        convert_error(self.text.push(b))
    }

    /// Decodes the byte `b`. If `b` is a backslash, decodes the rest of the escape. A closing brace
    /// ends the open repetition.
    fn decode_byte(&mut self, b: u8) -> Result<()> {
        match self.repetition {
            _ if b == b'\\' => self.decode_escape(),
            Some((times, from)) if b == b'}' => {
                self.repetition = None;
                repeat_suffix(self.alloc, &mut self.text, from, times)
            }
            _ => convert_error(self.text.push(b)),
        }
    }
}

/// Returns the bytes of `raw` with its escapes decoded.
///
/// `\n`, `\t`, `\r`, `\s` and `\\` represent a newline, a tab, a carriage return, a space and a
/// backslash. `\xHH` is the byte with this hexadecimal number. `\*N{TEXT}` is `TEXT` N times, in
/// which `\}` is a closing brace.
///
/// # Errors
///
/// - `InvalidExample`: an escape is invalid, a brace isn't closed, or a repetition makes more than
///   32 MiB.
/// - `NoMemory`: an allocation failed.
pub fn unescape(alloc: Global, raw: &str) -> Result<Vec<u8>> {
    let mut unescaper = Unescaper {
        alloc,
        rest: raw.as_bytes(),
        text: Vec::new(alloc),
        repetition: None,
    };
    for _ in 0..raw.len() {
        if let Some(b) = unescaper.next() {
            unescaper.decode_byte(b)?;
        }
    }
    if unescaper.repetition.is_some() {
        return Err(ExampleFault::InvalidExample("braces that aren't closed"));
    }
    Ok(unescaper.text)
}

/// Returns `raw` with its escapes decoded (as by `unescape`), as a text.
///
/// # Errors
///
/// - `InvalidExample`: an escape is invalid, a brace isn't closed, a repetition makes more than 32
///   MiB, or the decoded bytes aren't UTF-8.
/// - `NoMemory`: an allocation failed.
pub fn unescape_text(alloc: Global, raw: &str) -> Result<Text> {
    match String::from_utf8(unescape(alloc, raw)?) {
        Ok(string) => Ok(Text::from_string(string)),
        Err(_) => Err(ExampleFault::InvalidExample("a text is UTF-8")),
    }
}

/// Returns `raw` with its escapes decoded (as by `unescape`), as a text with invalid UTF-8
/// replaced by U+FFFD.
///
/// # Errors
///
/// - `InvalidExample`: an escape is invalid, a brace isn't closed, or a repetition makes more than
///   32 MiB.
/// - `NoMemory`: an allocation failed.
pub fn unescape_lossy(alloc: Global, raw: &str) -> Result<Text> {
    Ok(lossy(alloc, &unescape(alloc, raw)?)?)
}
