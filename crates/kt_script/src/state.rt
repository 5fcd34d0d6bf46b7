//! The states of the parser within a statement, and the transitions between them.

ghost use Rattle.std.specs.Prelude.{◌≡◌, [], ◌∷◌, ◌++◌, IfOk};
ghost use Rattle.kt_script.specs.Inner.Automaton.{transition_after_table, step, literal_of};

use crate::token::TokenKind;
use crate::{Action, Arg, Literal, Pair};
use kt_base::{Items, NoMemory, Text};
use std::alloc::Global;

/// A table whose `}` is not read yet: the argument of a call, with its pairs so far.
#[derive(Drop)]
pub struct Table {
    /// The name of the function that is called with the table.
    pub name: Text,
    /// `true` if the table is in parentheses.
    pub in_parens: bool,
    /// The pairs of the table so far, in the order of the script.
    pub pairs: Items<Pair>,
}

/// A state of the parser within a statement, with the parts of the statement read so far.
#[derive(Drop)]
pub enum State {
    /// The state after the first name of a statement. The field is the name.
    AfterName(Text),
    /// The state after the name of a function and `(`. The field is the name.
    AfterParen(Text),
    /// The state after the argument of a call in parentheses, before the `)`. The field is the
    /// call.
    AfterArgument(Action),
    /// The state after the `{` of a table, or after a `,` or `;` in the table.
    Pairs(Table),
    /// The state after the `[` of a key in a table.
    AfterKeyBracket(Table),
    /// The state after the `[` and the string of a key in a table. The fields are the table and the
    /// key.
    AfterKeyString(Table, Text),
    /// The state after a key in a table. The fields are the table and the key.
    AfterKey(Table, Text),
    /// The state after a key in a table and `=`. The fields are the table and the key.
    AfterKeyEquals(Table, Text),
    /// The state after a pair in a table.
    AfterPair(Table),
    /// The state after a variable's path and `.`. The field has the parts of the path.
    AfterDot(Items<Text>),
    /// The state after a variable's path and `[`. The field has the parts of the path.
    AfterPathBracket(Items<Text>),
    /// The state after a variable's path, `[` and a string. The field has the parts of the path,
    /// with the string as the last part.
    AfterPathString(Items<Text>),
    /// The state after a variable's path of at least two parts, which the field contains.
    AfterPath(Items<Text>),
    /// The state after a variable's path and `=`. The field has the parts of the path.
    AfterPathEquals(Items<Text>),
}

/// A transition of the parser within a statement: to another state, or to the end of the statement.
#[derive(Drop)]
pub enum Transition {
    /// The token does not complete the statement. The field is the state after the token.
    Advance(State),
    /// The token completes the statement. The field is the action of the statement.
    Accept(Action),
}

impl State {
    /// Returns the transition from this state for a token of the kind `kind`.
    ///
    /// Returns `None` if the grammar does not allow the token in this state.
    ///
    /// # Errors
    ///
    /// - `NoMemory`: an allocation fails.
    pub fn transition(self, alloc: Global, kind: TokenKind) -> Result<Option<Transition>, NoMemory>
        ensures { IfOk result (λ to. to ≡ step self kind) }
    {
        let to = match (self, kind) {
            (State::AfterName(name), TokenKind::Quoted(text)) => Transition::Accept(Action::Call(
                name,
                Arg::Value(Literal::Text(text)),
            )),
            (State::AfterName(name), TokenKind::OpenParen) => Transition::Advance(State::AfterParen(
                name,
            )),
            (State::AfterName(name), TokenKind::OpenBrace) => Transition::Advance(State::Pairs(
                Table::new(alloc, name, false),
            )),
            (State::AfterName(name), TokenKind::Dot) => Transition::Advance(State::AfterDot(
                single_part_path(alloc, name)?,
            )),
            (State::AfterName(name), TokenKind::OpenBracket) => Transition::Advance(
                State::AfterPathBracket(single_part_path(alloc, name)?),
            ),
            (State::AfterName(name), TokenKind::Equals) => Transition::Advance(
                State::AfterPathEquals(single_part_path(alloc, name)?),
            ),
            (State::AfterParen(name), TokenKind::OpenBrace) => Transition::Advance(State::Pairs(
                Table::new(alloc, name, true),
            )),
            (State::AfterParen(name), kind) => match literal_of(kind) {
                None => return Ok(None),
                Some(value) => Transition::Advance(State::AfterArgument(Action::Call(
                    name,
                    Arg::Value(value),
                ))),
            },
            (State::AfterArgument(call), TokenKind::CloseParen) => Transition::Accept(call),
            (State::Pairs(table), TokenKind::Name(name)) => Transition::Advance(State::AfterKey(
                table, name,
            )),
            (State::Pairs(table), TokenKind::OpenBracket) => Transition::Advance(
                State::AfterKeyBracket(table),
            ),
            (State::Pairs(table), TokenKind::CloseBrace) => table.close(),
            (State::AfterKeyBracket(table), TokenKind::Quoted(key)) => Transition::Advance(
                State::AfterKeyString(table, key),
            ),
            (State::AfterKeyString(table, key), TokenKind::CloseBracket) => Transition::Advance(
                State::AfterKey(table, key),
            ),
            (State::AfterKey(table, key), TokenKind::Equals) => Transition::Advance(
                State::AfterKeyEquals(table, key),
            ),
            (State::AfterKeyEquals(table, name), kind) => match literal_of(kind) {
                None => return Ok(None),
                Some(value) => {
                    let mut table = table;
                    table.pairs.push(Pair { name, value })?;
                    Transition::Advance(State::AfterPair(table))
                }
            },
            (State::AfterPair(table), TokenKind::Comma | TokenKind::Semicolon) =>
                Transition::Advance(State::Pairs(table)),
            (State::AfterPair(table), TokenKind::CloseBrace) => table.close(),
            (State::AfterDot(mut path), TokenKind::Name(name)) => {
                path.push(name)?;
                Transition::Advance(State::AfterPath(path))
            }
            (State::AfterPathBracket(mut path), TokenKind::Quoted(text)) => {
                path.push(text)?;
                Transition::Advance(State::AfterPathString(path))
            }
            (State::AfterPathString(path), TokenKind::CloseBracket) => Transition::Advance(
                State::AfterPath(path),
            ),
            (State::AfterPath(path), TokenKind::Dot) => Transition::Advance(State::AfterDot(path)),
            (State::AfterPath(path), TokenKind::OpenBracket) => Transition::Advance(
                State::AfterPathBracket(path),
            ),
            (State::AfterPath(path), TokenKind::Equals) => Transition::Advance(
                State::AfterPathEquals(path),
            ),
            (State::AfterPathEquals(path), kind) => match literal_of(kind) {
                None => return Ok(None),
                Some(value) => Transition::Accept(Action::Assign(path, value)),
            },
            _ => return Ok(None),
        };
        Ok(Some(to))
    }
}

/// Returns the literal that a token of the kind `kind` represents.
///
/// Returns `None` if such a token is not a literal.
fn literal_of(kind: TokenKind) -> Option<Literal>
    ensures { result ≡ literal_of kind }
{
    match kind {
        TokenKind::Quoted(text) => Some(Literal::Text(text)),
        TokenKind::Number(n) => Some(Literal::Number(n)),
        TokenKind::Truth(b) => Some(Literal::Truth(b)),
        _ => None,
    }
}

/// Creates the path of a variable, with `name` as its only part.
fn single_part_path(alloc: Global, name: Text) -> Result<Items<Text>, NoMemory>
    ensures { IfOk result (λ path. path ≡ name ∷ []) }
{
    let mut path = Items::new(alloc);
    path.push(name)?;
    Ok(path)
}

impl Table {
    /// Creates a table without pairs, as the argument of a call of the function `name`.
    ///
    /// `in_parens` is `true` if the table is in parentheses.
    fn new(alloc: Global, name: Text, in_parens: bool) -> Table
        ensures { result ≡ record { name = name; in_parens = in_parens; pairs = [] } }
    {
        Table {
            name,
            in_parens,
            pairs: Items::new(alloc),
        }
    }

    /// Returns the transition for the `}` that closes the table.
    ///
    /// If the table is in parentheses, a `)` must follow. Otherwise, the `}` completes the
    /// statement.
    fn close(self) -> Transition
        ensures { result ≡ transition_after_table self }
    {
        let call = Action::Call(self.name, Arg::Table(self.pairs));
        if self.in_parens {
            Transition::Advance(State::AfterArgument(call))
        } else {
            Transition::Accept(call)
        }
    }
}
