//! The lexer: it splits a text into white space, comments and tokens.

ghost use Rattle.std.specs.Prelude.{◌≡◌, ℕ, ◌≤◌, length, IfOk, ◌+◌, ◌==◌, IfSome};
ghost use Rattle.kt_script.specs.Common.{prefix_len, is_space, punctuation_kind_of, lexeme_at, long_comment_end, comment_at, has_bracket_level, number_at};

use crate::quotation::quoted_token;
use crate::token::{Flaw, Lexeme, TokenKind};
use crate::words::{is_name_start, is_space, lex_name};
use kt_base::{NoMemory, digits_length, is_digit, line_length, parse_decimal_up_to};
use std::alloc::Global;

/// Returns the number of bytes in `text` up to and including its first `]]`.
///
/// Returns `None` if `text` does not contain `]]`.
fn long_bracket_length(text: &[u8]) -> Option<usize>
    ensures value { result ≡ long_comment_end text.now }
    ensures within { IfSome result (λ end. end ≤ length text.now) }
{
    let mut length = 0;
    let mut rest = text;
    while let Some((_, after)) = rest.split_first() {
        if rest.starts_with(b"]]") {
            return Some(length + 2);
        }
        length += 1;
        rest = after;
    }
    None
}

/// Returns the number of `=` at the beginning of `text`.
fn count_equals(text: &[u8]) -> usize
    ensures value { result ≡ prefix_len (λ c. c == 61) text.now }
    ensures within { result ≤ length text.now }
{
    text.iter().take_while(|c| **c == b'=').count()
}

/// Returns `true` if `text` begins with one or more `=`, followed by `[`.
fn has_bracket_level(text: &[u8]) -> bool
    ensures { result ≡ has_bracket_level text.now }
{
    let after = &text[count_equals(text)..];
    text.starts_with(b"=") && after.starts_with(b"[")
}

/// Returns the lexeme of the comment at the beginning of `text`.
///
/// The lexeme is an invalid token if `text` does not begin with a comment of this profile.
pub fn lex_comment(text: &[u8]) -> Lexeme
    ensures { result ≡ comment_at text.now }
{
    if text.starts_with(b"--[[") {
        return match long_bracket_length(&text[4..]) {
            None => Lexeme::invalid(text, Flaw::Unterminated),
            Some(end) => Lexeme::blank(end + 4),
        };
    }
    if text.starts_with(b"--[") && has_bracket_level(&text[3..]) {
        return Lexeme::invalid(text, Flaw::LeveledComment);
    }
    if text.starts_with(b"--") {
        return Lexeme::blank(2 + line_length(&text[2..]));
    }
    Lexeme::invalid(text, Flaw::Bad)
}

/// Returns the number of white space bytes at the beginning of `text`.
fn space_length(text: &[u8]) -> usize
    ensures value { result ≡ prefix_len is_space text.now }
    ensures within { result ≤ length text.now }
{
    text.iter().take_while(|c| is_space(**c)).count()
}

/// Returns the kind of the punctuation token that consists of the byte `c`, or `None` if there is
/// no such token.
fn punctuation_kind(c: u8) -> Option<TokenKind>
    ensures { result ≡ punctuation_kind_of c }
{
    match c {
        b'(' => Some(TokenKind::OpenParen),
        b')' => Some(TokenKind::CloseParen),
        b'{' => Some(TokenKind::OpenBrace),
        b'}' => Some(TokenKind::CloseBrace),
        b'[' => Some(TokenKind::OpenBracket),
        b']' => Some(TokenKind::CloseBracket),
        b'=' => Some(TokenKind::Equals),
        b',' => Some(TokenKind::Comma),
        b';' => Some(TokenKind::Semicolon),
        b'.' => Some(TokenKind::Dot),
        _ => None,
    }
}

/// Returns the token of the decimal number at the beginning of `text`.
///
/// The token is invalid if the number is above 2^64 - 1, or if a letter or underscore follows it.
fn lex_number(text: &[u8]) -> Lexeme
    ensures { result ≡ number_at text.now }
{
    let length = digits_length(text);
    let (digits, after) = text.split_at(length);
    if after.first().is_some_and(|c| is_name_start(*c)) {
        return Lexeme::invalid(text, Flaw::Bad);
    }
    match parse_decimal_up_to(u64::MAX, digits) {
        None => Lexeme::invalid(text, Flaw::Bad),
        Some(value) => Lexeme::token(length, TokenKind::Number(value)),
    }
}

/// Returns the lexeme at the beginning of `text`: white space, a comment or a token.
///
/// An empty text has a lexeme of 0 bytes. If `text` begins with none of the three, the lexeme is an
/// invalid token.
///
/// # Errors
///
/// - `NoMemory`: an allocation fails.
#[tactic(auto, unfolding(crate::specs::Inner::Tokens::lexeme_at))]
pub fn next_lexeme(alloc: Global, text: &str) -> Result<Lexeme, NoMemory>
    ensures { IfOk result (λ piece. piece ≡ lexeme_at text.now) }
{
    let bytes = text.as_bytes();
    let Some((c, _)) = bytes.split_first() else {
        return Ok(Lexeme::blank(0));
    };
    if is_space(*c) {
        return Ok(Lexeme::blank(space_length(bytes)));
    }
    if is_name_start(*c) {
        return lex_name(alloc, text);
    }
    if is_digit(*c) {
        return Ok(lex_number(bytes));
    }
    if *c == b'"' || *c == b'\'' {
        return quoted_token(alloc, *c, text);
    }
    if *c == b'-' {
        return Ok(lex_comment(bytes));
    }
    Ok(match punctuation_kind(*c) {
        None => Lexeme::invalid(bytes, Flaw::Bad),
        Some(kind) => Lexeme::token(1, kind),
    })
}
