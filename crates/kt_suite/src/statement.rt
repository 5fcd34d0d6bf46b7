ghost use Rattle.std.specs.Prelude.{◌≡◌, IfOk};
ghost use Rattle.kt_suite.specs.Meanings.{opening_cause, suite_meaning, include_meaning, meaning_of};

use crate::SuiteCause;
use crate::call::{Call, call_kind};
use crate::meaning::Meaning;
use crate::paths::is_plain_relative;
use crate::table::program_call_meaning;
use kt_base::{NoMemory, Text};
use kt_script::{Action, Arg, Literal};
use std::alloc::Global;

/// Returns the cause of the error if a Kyuafile's first statement has the action `action`.
///
/// Returns `None` if `action` is the call `syntax(2)`.
pub fn first_statement_cause(action: &Action) -> Option<SuiteCause>
    ensures { result ≡ opening_cause action.now }
{
    let Action::Call(name, arg) = action else {
        return Some(SuiteCause::NoSyntax);
    };
    match (call_kind(name), arg) {
        (Call::Syntax, Arg::Value(Literal::Number(2))) => None,
        (Call::Syntax, Arg::Value(Literal::Number(n))) => Some(SuiteCause::WrongSyntax(*n)),
        (Call::Syntax, _) => Some(SuiteCause::BadValue),
        _ => Some(SuiteCause::NoSyntax),
    }
}

/// Returns the meaning of a call of `test_suite` with the argument `arg`: its effect or its error.
///
/// The meaning is the error `BadValue` if `arg` is a table or has an empty text.
fn suite_call_meaning(alloc: Global, arg: &Arg) -> Result<Meaning, NoMemory>
    ensures { IfOk result (λ found. found ≡ suite_meaning arg.now) }
{
    match arg {
        Arg::Table(_) => Ok(Meaning::Wrong(SuiteCause::BadValue)),
        Arg::Value(value) => {
            let text = value.text(alloc)?;
            if text.is_empty() {
                return Ok(Meaning::Wrong(SuiteCause::BadValue));
            }
            Ok(Meaning::Suite(text))
        }
    }
}

/// Returns the meaning of a call of `include` with the argument `arg`: its effect or its error.
///
/// The meaning is the error `BadInclude` if `arg` is a table or an absolute path, or if a component
/// of the path is empty, `.` or `..`.
fn include_call_meaning(alloc: Global, arg: &Arg) -> Result<Meaning, NoMemory>
    ensures { IfOk result (λ found. found ≡ include_meaning arg.now) }
{
    match arg {
        Arg::Table(_) => Ok(Meaning::Wrong(SuiteCause::BadInclude)),
        Arg::Value(value) => {
            let text = value.text(alloc)?;
            if is_plain_relative(&text)? {
                return Ok(Meaning::Include(text));
            }
            Ok(Meaning::Wrong(SuiteCause::BadInclude))
        }
    }
}

/// Returns the meaning of a Kyuafile's statement with the action `action`: its effect or its error.
///
/// The statement is not the first of the file. `file` is the test suite that the file has set
/// before the statement, if any.
///
/// # Errors
///
/// - `NoMemory`: an allocation fails.
pub fn statement_meaning(
    alloc: Global,
    file: &Option<Text>,
    action: &Action,
) -> Result<Meaning, NoMemory>
    ensures { IfOk result (λ found. found ≡ meaning_of file.now action.now) }
{
    match action {
        Action::Assign(_, _) => Ok(Meaning::Wrong(SuiteCause::UnknownCall)),
        Action::Call(name, arg) => match call_kind(name) {
            Call::TestSuite => suite_call_meaning(alloc, arg),
            Call::Include => include_call_meaning(alloc, arg),
            Call::Program(interface) => program_call_meaning(alloc, interface, file, arg),
            Call::Syntax | Call::Unknown => Ok(Meaning::Wrong(SuiteCause::UnknownCall)),
        },
    }
}
