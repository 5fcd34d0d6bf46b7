ghost use Rattle.std.specs.Prelude.{◌≡◌, IfOk};

use kt_base::{Items, NoMemory, Text};
use std::alloc::Global;

/// A literal value: a string, a number or a truth value (kyuafile(5)).
#[derive(Drop)]
pub enum Literal {
    /// A string, in which each escape is decoded to its character.
    Text(Text),
    /// A decimal number, 0 to 2^64 - 1.
    Number(u64),
    /// `true` or `false`.
    Truth(bool),
}

impl Literal {
    ghost use Rattle.kt_script.specs.LiteralText.{text_of};

    /// Returns the literal as a text, for the value of a property or variable (this profile).
    ///
    /// A number is decimal without leading zeros: `007` is `7`. A truth value is `true` or `false`.
    ///
    /// # Errors
    ///
    /// - `NoMemory`: the allocation fails.
    pub fn text(&self, alloc: Global) -> Result<Text, NoMemory>
        ensures { IfOk result (λ text. text ≡ text_of self.now) }
    {
        match self {
            Literal::Text(text) => text.copy(),
            Literal::Number(number) => Text::from_number(alloc, *number),
            Literal::Truth(true) => Text::from_str(alloc, "true"),
            Literal::Truth(false) => Text::from_str(alloc, "false"),
        }
    }
}

/// A pair in the table of a call: a name with its value.
#[derive(Drop)]
pub struct Pair {
    /// The name, written as `name` or `["name"]`.
    pub name: Text,
    /// The value: the literal after the `=`.
    pub value: Literal,
}

/// An argument of a call: a literal or a table.
#[derive(Drop)]
pub enum Arg {
    /// A literal value.
    Value(Literal),
    /// A table: its pairs in the order of the script. A name may occur several times.
    Table(Items<Pair>),
}

/// An action of a statement: a call or an assignment.
#[derive(Drop)]
pub enum Action {
    /// A call: the function's name and its only argument.
    Call(Text, Arg),
    /// An assignment: the parts of the variable's path, and the value. The path `a.b` has the parts
    /// `a` and `b`. A path has at least one part.
    Assign(Items<Text>, Literal),
}

/// A statement of a script.
#[derive(Drop)]
pub struct Stmt {
    /// The line on which the statement begins, counted from 1.
    pub line: u32,
    /// The action of the statement: a call or an assignment.
    pub action: Action,
}
