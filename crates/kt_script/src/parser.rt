//! The parser: it reads tokens and collects statements.

ghost use Rattle.std.specs.Prelude.{◌≡◌, ℕ, List, [], ◌++◌, IfOk, OnOk, IfErr};
ghost use Rattle.kt_script.specs.Inner.Automaton.{IsBetweenStatements};
ghost use Rattle.kt_script.specs.Faults.{IfFault, last, brackets_after, end_fault};

use crate::script_state::ScriptState;
use crate::token::{Token, TokenKind};
use crate::{ScriptFault, Stmt};
use kt_base::{Items, NoMemory};
use std::alloc::Global;

/// Updates `brackets`, the lines of the open brackets, for a token of the kind `kind` on `line`.
///
/// An opening bracket appends its line. A closing bracket removes the last line.
fn update_brackets(brackets: &mut Vec<u32>, line: u32, kind: &TokenKind) -> Result<(), NoMemory>
    ensures { OnOk result (brackets.new.items ≡ brackets_after brackets.old.items line kind.now) }
{
    match kind {
        TokenKind::OpenParen | TokenKind::OpenBrace | TokenKind::OpenBracket => brackets.push(
            line,
        )?,
        TokenKind::CloseParen | TokenKind::CloseBrace | TokenKind::CloseBracket => {
            let _ = brackets.pop();
        }
        _ => {}
    }
    Ok(())
}

/// A parser of a script: it reads one token at a time and collects the complete statements.
///
/// The parser's position in the grammar is a [`ScriptState`], which the caller stores.
#[derive(Drop)]
pub struct Parser {
    /// The lines of the open brackets, the innermost bracket last.
    brackets: Vec<u32>,
    /// The complete statements that were read so far, in the order of the script.
    statements: Items<Stmt>,
}

impl Parser {
    ghost use Rattle.kt_script.specs.Common.{HasRead, IsUnexpectedToken, IsInStatement, Start, Token, tokens_in};

    /// Creates a parser that has read no token.
    pub fn new(alloc: Global) -> Self
        ensures { HasRead Start result [] }
    {
        Parser {
            brackets: Vec::new(alloc),
            statements: Items::new(alloc),
        }
    }

    /// Reads a token of the kind `kind` on `line`, and returns the next position in the grammar.
    ///
    /// `place` is the position in the grammar before the token. If `kind` is `None`, there is no
    /// token: the call changes nothing and returns `place`.
    ///
    /// # Errors
    ///
    /// - `BadToken`: the token is invalid and has the flaw `Bad`.
    /// - `Unclosed`: the token is invalid and has the flaw `Unterminated`.
    /// - `NotLiteral`: the grammar does not allow the token at `place`, and the token has neither
    ///   of these flaws.
    /// - `NoMemory`: an allocation fails.
    pub fn feed(
        &mut self,
        alloc: Global,
        place: ScriptState,
        line: u32,
        kind: Option<TokenKind>,
    ) -> Result<ScriptState, ScriptFault>
        ensures ok { IfOk result (λ after. (read : List Token) → HasRead place self.old read
            → HasRead after self.new (read ++ tokens_in line kind)) }
        ensures fault { IfFault result (λ fault. IsUnexpectedToken place line kind fault) }
    {
        let Some(kind) = kind else {
            return Ok(place);
        };
        let token = Token { line, kind };
        let fault = token.fault();
        update_brackets(&mut self.brackets, line, &token.kind)?;
        match place.next(alloc, token, &mut self.statements)? {
            None => Err(fault),
            Some(place) => Ok(place),
        }
    }

    /// Returns the statements of a script, after its last token was read.
    ///
    /// `place` is the position in the grammar after the last token.
    ///
    /// # Errors
    ///
    /// - `Unclosed`: `place` is within a statement, and a bracket is open.
    /// - `NotLiteral`: `place` is within a statement, and no bracket is open.
    pub fn finish(self, place: &ScriptState) -> Result<Items<Stmt>, ScriptFault>
        ensures ok { IfOk result (λ statements. IsBetweenStatements place.now
            × (statements ≡ self.statements)) }
        ensures fault { IfErr result (λ fault. (line : ℕ) × IsInStatement place.now line
            × (fault ≡ end_fault (last self.brackets.items) line)) }
    {
        match place {
            ScriptState::Start | ScriptState::AfterStatement => Ok(self.statements),
            ScriptState::InStatement(line, _) => Err(end_fault(
                self.brackets.last().copied(),
                *line,
            )),
        }
    }
}

/// Returns the fault of a script that ends within the statement that begins on `line`.
///
/// `bracket` is the line of the innermost open bracket, or `None` if no bracket is open.
fn end_fault(bracket: Option<u32>, line: u32) -> ScriptFault
    ensures { result ≡ end_fault bracket line }
{
    match bracket {
        None => ScriptFault::NotLiteral(line),
        Some(bracket) => ScriptFault::Unclosed(bracket),
    }
}
