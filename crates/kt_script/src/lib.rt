//! A parser for the literal profile of Lua: calls and assignments with literal values.
#![tactic(auto)]

mod fault;
mod lexer;
mod parser;
mod quotation;
mod script;
mod script_state;
mod state;
mod syntax;
mod token;
mod words;

pub use fault::ScriptFault;
pub use script::{parse, theorem_of_one_result, theorem_of_one_token_list};
pub use syntax::{Action, Arg, Literal, Pair, Stmt};
