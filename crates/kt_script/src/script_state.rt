//! The position of the parser in the grammar of a script.

ghost use Rattle.std.specs.Prelude.{◌≡◌, ◌++◌, IfOk, OnOk};
ghost use Rattle.kt_script.specs.Inner.Automaton.{begin_statement, next, position_after, completed_statements};

use crate::Stmt;
use crate::state::{State, Transition};
use crate::token::{Token, TokenKind};
use kt_base::{Items, NoMemory};
use std::alloc::Global;

/// A position of the parser in the grammar, between two tokens of a script.
pub enum ScriptState {
    /// The position at the beginning of the script, or after a statement and its `;`.
    Start,
    /// The position after a statement. A `;` or another statement may follow.
    AfterStatement,
    /// A position within a statement. The fields are the line on which the statement begins, and
    /// the state within the statement.
    InStatement(u32, State),
}

/// A manual impl instead of `#[derive(Drop)]`, so that the prover handles each drop as one call.
impl Drop for ScriptState {
    fn drop(self) {
        match self {
            ScriptState::Start | ScriptState::AfterStatement => {}
            ScriptState::InStatement(_, state) => drop(state),
        }
    }
}

/// Returns the position in the grammar after the first token of a statement.
///
/// The token has the kind `kind` and is on the line `line`. Returns `None` if the token is not a
/// name, since no other token can begin a statement.
fn begin_statement(line: u32, kind: TokenKind) -> Option<ScriptState>
    ensures { result ≡ position_after (begin_statement line kind) }
{
    match kind {
        TokenKind::Name(name) => Some(ScriptState::InStatement(line, State::AfterName(name))),
        _ => None,
    }
}

impl ScriptState {
    /// Returns the position in the grammar after `token`.
    ///
    /// Returns `None` if the grammar does not allow `token` at this position.
    ///
    /// If the token completes a statement, the statement is appended to `statements`.
    ///
    /// # Errors
    ///
    /// - `NoMemory`: an allocation fails.
    pub fn next(
        self,
        alloc: Global,
        token: Token,
        statements: &mut Items<Stmt>,
    ) -> Result<Option<ScriptState>, NoMemory>
        ensures place { IfOk result (λ to. to ≡ position_after (next self token)) }
        ensures ended { OnOk result (statements.new ≡ statements.old
            ++ completed_statements (next self token)) }
    {
        match self {
            ScriptState::AfterStatement if matches!(token.kind, TokenKind::Semicolon) => Ok(Some(
                ScriptState::Start,
            )),
            ScriptState::Start | ScriptState::AfterStatement => Ok(begin_statement(
                token.line, token.kind,
            )),
            ScriptState::InStatement(line, state) => match state.transition(alloc, token.kind)? {
                None => Ok(None),
                Some(Transition::Advance(state)) => Ok(Some(ScriptState::InStatement(line, state))),
                Some(Transition::Accept(action)) => {
                    statements.push(Stmt { line, action })?;
                    Ok(Some(ScriptState::AfterStatement))
                }
            },
        }
    }
}
