//! Names, truth values and the classes of their bytes.

ghost use Rattle.std.specs.Prelude.{◌≡◌, ◌≤◌, length, IfOk};
ghost use Rattle.kt_script.specs.Common.{prefix_len, is_name_start, is_name_byte, kind_of_word, name_at, is_space};

use crate::token::{Lexeme, TokenKind};
use kt_base::{NoMemory, Text, is_digit};
use std::alloc::Global;

/// Returns `true` if the byte `c` is white space: the space, or one of the bytes 9 to 13.
pub fn is_space(c: u8) -> bool
    ensures { result ≡ is_space c }
{
    matches!(c, b' ' | b'\t'..=b'\r')
}

/// Returns `true` if the byte `c` is an ASCII letter or an underscore.
pub fn is_name_start(c: u8) -> bool
    ensures { result ≡ is_name_start c }
{
    matches!(c, b'a'..=b'z' | b'A'..=b'Z' | b'_')
}

/// Returns `true` if the byte `c` is an ASCII letter, an underscore or a digit.
fn is_name_byte(c: u8) -> bool
    ensures { result ≡ is_name_byte c }
{
    is_name_start(c) || is_digit(c)
}

/// Returns the number of ASCII letters, underscores and digits at the beginning of `text`.
fn name_length(text: &[u8]) -> usize
    ensures value { result ≡ prefix_len is_name_byte text.now }
    ensures within { result ≤ length text.now }
{
    text.iter().take_while(|c| is_name_byte(**c)).count()
}

/// Returns the kind of the token with the characters `letters`: a truth value or a name.
///
/// The token is a truth value if `letters` is `true` or `false`.
fn kind_of_letters(alloc: Global, letters: &str) -> Result<TokenKind, NoMemory>
    ensures { IfOk result (λ kind. kind ≡ kind_of_word letters.now) }
{
    if letters.as_bytes() == b"true".as_slice() {
        return Ok(TokenKind::Truth(true));
    }
    if letters.as_bytes() == b"false".as_slice() {
        return Ok(TokenKind::Truth(false));
    }
    Ok(TokenKind::Name(Text::from_str(alloc, letters)?))
}

/// Returns the token of the name or truth value at the beginning of `text`.
///
/// # Errors
///
/// - `NoMemory`: an allocation fails.
pub fn lex_name(alloc: Global, text: &str) -> Result<Lexeme, NoMemory>
    ensures { IfOk result (λ piece. piece ≡ name_at text.now) }
{
    let length = name_length(text.as_bytes());
    Ok(Lexeme::token(length, kind_of_letters(alloc, &text[..length])?))
}
