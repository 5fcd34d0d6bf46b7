ghost use Rattle.std.specs.Prelude.{◌≡◌, ℕ, length};

use crate::ScriptFault;
use kt_base::Text;

/// A reason why a token is invalid (this profile).
#[derive(Clone, Copy)]
pub enum Flaw {
    /// A byte, a number or an escape that this profile does not allow.
    Bad,
    /// A comment in long brackets with a level, such as `--[=[`.
    LeveledComment,
    /// A string or a comment that is not closed.
    Unterminated,
}

/// A kind of token, with the value of the token if it has one.
#[derive(Drop)]
pub enum TokenKind {
    /// A name: ASCII letters, digits and underscores, of which the first is not a digit.
    Name(Text),
    /// A string, in which each escape is decoded to its character.
    Quoted(Text),
    /// A decimal number, 0 to 2^64 - 1.
    Number(u64),
    /// `true` or `false`.
    Truth(bool),
    OpenParen,
    CloseParen,
    OpenBrace,
    CloseBrace,
    OpenBracket,
    CloseBracket,
    Equals,
    Comma,
    Semicolon,
    Dot,
    /// An invalid token, with the reason. The grammar does not allow it anywhere.
    Invalid(Flaw),
}

/// A token of a script, with the line on which it begins.
#[derive(Drop)]
pub struct Token {
    /// The line on which the token begins, counted from 1.
    pub line: u32,
    /// The kind of the token, with the value of the token if it has one.
    pub kind: TokenKind,
}

impl Token {
    ghost use Rattle.kt_script.specs.Faults.{fault_of};

    /// Returns the fault of a script in which the grammar does not allow the token.
    pub fn fault(&self) -> ScriptFault
        ensures { result ≡ fault_of self.now }
    {
        match self.kind {
            TokenKind::Invalid(Flaw::Bad) => ScriptFault::BadToken(self.line),
            TokenKind::Invalid(Flaw::Unterminated) => ScriptFault::Unclosed(self.line),
            _ => ScriptFault::NotLiteral(self.line),
        }
    }
}

/// A lexeme of a script: white space, a comment or a token.
#[derive(Drop)]
pub struct Lexeme {
    /// The length of the lexeme in bytes.
    pub length: usize,
    /// The kind of a token, or `None` for white space and comments.
    pub kind: Option<TokenKind>,
}

impl Lexeme {
    ghost use Rattle.kt_script.specs.Inner.Pieces.{blank, token, invalid_lexeme};

    /// Creates a lexeme of `length` bytes that is white space or a comment.
    pub fn blank(length: usize) -> Lexeme
        ensures { result ≡ blank length }
    {
        Lexeme { length, kind: None }
    }

    /// Creates a lexeme of `length` bytes that is a token of the kind `kind`.
    pub fn token(length: usize, kind: TokenKind) -> Lexeme
        ensures { result ≡ token length kind }
    {
        Lexeme {
            length,
            kind: Some(kind),
        }
    }

    /// Creates an invalid token that consists of all bytes of `text`. `flaw` is the reason why the
    /// token is invalid.
    pub fn invalid(text: &[u8], flaw: Flaw) -> Lexeme
        ensures { result ≡ invalid_lexeme text.now flaw }
    {
        Lexeme::token(text.len(), TokenKind::Invalid(flaw))
    }
}

/// An element that ends a run of plain bytes in a string literal. A plain byte represents itself.
#[derive(Drop)]
pub(crate) enum StringElement {
    /// The closing quote of the string.
    Quote,
    /// An escape: a backslash and the byte after it. The field is the character that both
    /// represent.
    Escape(char),
    /// A flaw: the string is not closed, or its escape is unknown.
    Flawed(Flaw),
}
