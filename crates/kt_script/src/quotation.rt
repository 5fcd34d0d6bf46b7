//! Decodes string literals.

ghost use Rattle.std.specs.Prelude.{◌≡◌, ℕ, ◌+◌, ◌<◌, ◌≤◌, ◌∷◌, false, length, drop, IfOk};
ghost use Rattle.kt_script.specs.Common.{IsCharBoundary, prefix_len, is_plain, escape_of, string_element_at, escape_at, string_at, decoded_string, quoted_at};

use crate::token::{Flaw, Lexeme, StringElement, TokenKind};
use kt_base::{NoMemory, Text};
use std::alloc::Global;

/// Returns the character that a backslash and the byte `c` represent in a string.
///
/// Returns `None` if they are not an escape of this profile.
fn decode_escape(c: u8) -> Option<char>
    ensures { result ≡ escape_of c }
{
    match c {
        b'n' => Some('\n'),
        b't' => Some('\t'),
        b'\\' | b'\'' | b'"' => Some(c as char),
        _ => None,
    }
}

/// Returns the number of bytes in `text` before its first `quote`, newline or backslash.
fn plain_length(quote: u8, text: &[u8]) -> usize
    ensures value { result ≡ prefix_len (is_plain quote) text.now }
    ensures within { result ≤ length text.now }
{
    text.iter()
        .take_while(|c| **c != quote && **c != b'\n' && **c != b'\\')
        .count()
}

/// Returns the element of a string with which `text` begins: the closing quote, an escape or a
/// flaw.
///
/// `text` is the part of a script after plain bytes of the string, which represent themselves. The
/// closing quote is the byte `quote`. The flaw is a missing quote or an unknown escape.
fn string_element(quote: u8, text: &[u8]) -> StringElement
    ensures { result ≡ string_element_at quote text.now }
{
    let Some((c, after)) = text.split_first() else {
        return StringElement::Flawed(Flaw::Unterminated);
    };
    if *c == quote {
        return StringElement::Quote;
    }
    if *c != b'\\' {
        return StringElement::Flawed(Flaw::Unterminated);
    }
    match after.first().and_then(|c| decode_escape(*c)) {
        None => StringElement::Flawed(Flaw::Bad),
        Some(c) => StringElement::Escape(c),
    }
}

/// Decodes the string literal whose opening quote, the byte `quote`, precedes `text`.
///
/// Returns the characters of the string, and the number of bytes in `text` up to and including the
/// closing quote. Returns the flaw if the string is not closed or has an unknown escape.
fn decode_string(
    alloc: Global,
    quote: u8,
    text: &str,
) -> Result<Result<(Text, usize), Flaw>, NoMemory>
    requires { quote < 128 }
    ensures value { IfOk result (λ read. read ≡ decoded_string (string_at quote false text.now)) }
    ensures within { IfOk result (λ read. IfOk read (λ x. x.1 ≤ length text.now)) }
{
    let mut string = Text::new(alloc);
    let mut rest = text;
    'runs: loop {
        let (plain, after) = rest.split_at(plain_length(quote, rest.as_bytes()));
        string.push_str(plain)?;
        match string_element(quote, after.as_bytes()) {
            StringElement::Quote => return Ok(Ok((string, text.len() - after.len() + 1))),
            StringElement::Flawed(flaw) => return Ok(Err(flaw)),
            StringElement::Escape(c) => {
                string.push(c)?;
                rest = &after[2..];
            }
        }
    }
}

/// Returns the token of the string literal at the beginning of `text`, whose first byte is `quote`.
///
/// The token is invalid if the string is not closed or has an unknown escape.
///
/// # Errors
///
/// - `NoMemory`: an allocation fails.
pub fn quoted_token(alloc: Global, quote: u8, text: &str) -> Result<Lexeme, NoMemory>
    requires first { text.now ≡ quote ∷ drop 1 text.now }
    requires small { quote < 128 }
    ensures { IfOk result (λ piece. piece ≡ quoted_at quote text.now) }
{
    Ok(match decode_string(alloc, quote, &text[1..])? {
        Ok((string, length)) => Lexeme::token(length + 1, TokenKind::Quoted(string)),
        Err(flaw) => Lexeme::invalid(text.as_bytes(), flaw),
    })
}
