//! The function that parses a script, and its theorems.

ghost use Rattle.std.specs.Prelude.{◌≡◌, ◌+◌, ◌≤◌, ◌<◌, ◌^◌, ◌++◌, List, length, IfOk, Result};
ghost use Rattle.kt_script.specs.Common.{IfFault, IsFaultOf, Script, tokens, line_at_end, AreTokens, script_length_limit, Spells, HasFault, ReturnsStatements, ReturnsFault, IsResultOf, ScriptFault, Stmt, Token};

use crate::lexer::next_lexeme;
use crate::parser::Parser;
use crate::script_state::ScriptState;
use crate::{ScriptFault, Stmt};
use kt_base::Items;
use std::alloc::Global;

/// The maximum length of a script, in bytes.
const MAX_SCRIPT_BYTES: usize = 1_048_576;

/// Returns the number of the line on which `text` ends. `text` begins on the line `from`.
fn line_at_end(from: u32, text: &[u8]) -> u32
    requires { from + length text.now < 2 ^ 32 }
    ensures value { result ≡ line_at_end from text.now }
    ensures within { result ≤ from + length text.now }
{
    let mut line = from;
    for c in text {
        if *c == b'\n' {
            line += 1;
        }
    }
    line
}

/// Parses `text`, which has at most 1,048,576 bytes, as a list of statements.
fn statements(alloc: Global, text: &str) -> Result<Items<Stmt>, ScriptFault>
    requires { length text.now ≤ script_length_limit }
    ensures ok { IfOk result (λ stmts. Script (tokens 1 0 text.now) stmts) }
    ensures fault { IfFault result (λ fault. IsFaultOf (tokens 1 0 text.now) fault) }
{
    let mut parser = Parser::new(alloc);
    let mut place = ScriptState::Start;
    let mut line = 1;
    let mut rest = text;
    while !rest.is_empty() {
        let piece = next_lexeme(alloc, rest)?;
        let (read, after) = rest.split_at(piece.length);
        place = parser.feed(alloc, place, line, piece.kind)?;
        line = line_at_end(line, read.as_bytes());
        rest = after;
    }
    parser.finish(&place)
}

/// Parses `text` as a list of statements: Lua calls and assignments of literals (kyuafile(5)).
///
/// # Errors
///
/// A token is unexpected if the grammar does not allow it after the tokens before it.
///
/// - `TooLong`: the text has more than 1,048,576 bytes.
/// - `NotUtf8`: the text is not UTF-8.
/// - `BadToken`: the first unexpected token is a byte, a number or an escape outside the profile.
/// - `NotLiteral`: the first unexpected token is another token, or the text ends within a statement
///   and outside brackets.
/// - `Unclosed`: the first unexpected token is an unclosed string or comment, or the text ends
///   inside a bracket.
/// - `NoMemory`: an allocation fails.
pub fn parse(alloc: Global, text: &[u8]) -> Result<Items<Stmt>, ScriptFault>
    // On success, the text is a script that consists of the returned statements.
    ensures accepted { IfOk result (λ stmts. Spells text.now stmts) }
    // Each script is accepted, unless an allocation fails, and its statements are returned.
    ensures only { (stmts : List Stmt) → Spells text.now stmts → ReturnsStatements result stmts }
    // On another error than a failed allocation, the text has the returned fault.
    ensures refused { IfFault result (λ fault. HasFault text.now fault) }
    // A text with a fault is rejected with that fault, unless an allocation fails.
    ensures due { (fault : ScriptFault) → HasFault text.now fault → ReturnsFault result fault }
{
    if text.len() > MAX_SCRIPT_BYTES {
        return Err(ScriptFault::TooLong);
    }
    let Ok(text) = str::from_utf8(text) else {
        return Err(ScriptFault::NotUtf8);
    };
    statements(alloc, text)
}

/// Theorem: each text either is a script with one list of statements, or has exactly one fault.
pub fn theorem_of_one_result(text: &[u8])
    ensures some { (answer : Result (List Stmt) ScriptFault) × IsResultOf text.now answer }
    ensures one { (a b : Result (List Stmt) ScriptFault) → IsResultOf text.now a
        → IsResultOf text.now b
        → a ≡ b }
{
    let _ = text;
}

/// Theorem: by the rules for tokens (`AreTokens`), each text that begins on line 1 consists of
/// exactly one list of tokens.
pub fn theorem_of_one_token_list(text: &[u8])
    ensures some { (tokens : List Token) × AreTokens 1 text.now tokens }
    ensures one { (a b : List Token) → AreTokens 1 text.now a → AreTokens 1 text.now b → a ≡ b }
{
    let _ = text;
}
