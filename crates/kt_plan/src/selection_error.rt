ghost use Rattle.std.specs.Prelude.{◌≡◌, chars, is_err};
ghost use Rattle.kt_base.specs.Emits.{Emits};
ghost use Rattle.kt_base.specs.Utf8.{utf8};
ghost use Rattle.kt_plan.specs.SelectionMessages.{quoted_message, selection_error_message};
ghost use Rattle.kt_plan.specs.declared.selection_error.SelectionError.TheVariants as stop;

use kt_base::{NoMemory, OUT_OF_MEMORY, OutputFault, Text, emit, emit_all};
use kt_config::ConfigFault;
use kt_suite::{FilterFault, SelectFault, SuiteFault};
use std::io::Write;

/// Errors returned by [`select_cases`](crate::select_cases). Each error stops the command.
#[derive(Drop)]
pub enum SelectionError {
    /// An allocation failed.
    NoMemory(NoMemory),
    /// The configuration file can't be read.
    UnreadableConfiguration,
    /// The configuration file has an error.
    Configuration(ConfigFault),
    /// An argument of `-v` has an error. The text is the name of the variable, or the whole
    /// argument if it lacks a `=`.
    Variable(Text, ConfigFault),
    /// An argument is not a filter, or may match the same case as an earlier filter. The text is
    /// the argument.
    Filter(Text, FilterFault),
    /// The command is `debug`, and there is no filter, more than one filter, or a filter that names
    /// no case.
    NeedsCase,
    /// A Kyuafile has an error.
    Tree(SuiteFault),
    /// There are more than 100,000 cases to select from.
    TooManyCases,
}

impl SelectionError {
    /// Writes the message of the error to `out`, without a newline (this profile).
    ///
    /// # Errors
    ///
    /// - `OutputFault`: a write fails. A proper prefix of the message was written.
    pub fn print<W: Write>(&self, out: &mut W) -> Result<(), OutputFault>
        ensures { Emits (W.contents out.old) (W.contents out.new) (is_err result)
            (utf8 (selection_error_message self.now)) }
    {
        match self {
            SelectionError::NoMemory(_) => emit(OUT_OF_MEMORY.as_bytes(), out),
            SelectionError::UnreadableConfiguration => emit(
                b"configuration: could not be read",
                out,
            ),
            SelectionError::Configuration(fault) => print_configuration(*fault, out),
            SelectionError::Variable(name, fault) => print_variable(name, *fault, out),
            SelectionError::Filter(word, fault) => print_filter(word, *fault, out),
            SelectionError::NeedsCase => emit(b"debug needs PROGRAM:CASE", out),
            SelectionError::Tree(fault) => fault.print(out),
            SelectionError::TooManyCases => emit(SelectFault::TooMany.message().as_bytes(), out),
        }
    }
}

/// Writes `configuration: MESSAGE` to `out`. MESSAGE is the message of `fault`, an error in the
/// configuration file.
fn print_configuration<W: Write>(fault: ConfigFault, out: &mut W) -> Result<(), OutputFault>
    ensures { Emits (W.contents out.old) (W.contents out.new) (is_err result)
        (utf8 (selection_error_message (stop.Configuration fault))) }
{
    emit_all(&[b"configuration: ", fault.message().as_bytes()], out)
}

/// Writes `WHAT 'WORD': FAULT` to `out`, the message of an error in an argument.
///
/// `what` is the kind of the argument, `word` is the argument, and `fault` is the message of its
/// error.
fn print_quoted<W: Write>(
    what: &str,
    word: &Text,
    fault: &str,
    out: &mut W,
) -> Result<(), OutputFault>
    ensures { Emits (W.contents out.old) (W.contents out.new) (is_err result)
        (utf8 (quoted_message (chars what.now) word.now (chars fault.now))) }
{
    emit_all(
        &[
            what.as_bytes(),
            b" '",
            word.as_bytes(),
            b"': ",
            fault.as_bytes(),
        ],
        out,
    )
}

/// Writes the message of `fault`, an error in an argument of `-v`, to `out`.
///
/// `name` is the name of the variable, or the whole argument if it lacks a `=`.
fn print_variable<W: Write>(name: &Text, fault: ConfigFault, out: &mut W) -> Result<(), OutputFault>
    ensures { Emits (W.contents out.old) (W.contents out.new) (is_err result)
        (utf8 (selection_error_message (stop.Variable name.now fault))) }
{
    print_quoted("variable", name, fault.message(), out)
}

/// Writes the message of `fault`, an error in the filter `word`, to `out`.
fn print_filter<W: Write>(word: &Text, fault: FilterFault, out: &mut W) -> Result<(), OutputFault>
    ensures { Emits (W.contents out.old) (W.contents out.new) (is_err result)
        (utf8 (selection_error_message (stop.Filter word.now fault))) }
{
    print_quoted("filter", word, fault.message(), out)
}

impl From<NoMemory> for SelectionError {
    ghost from_gives = { λ refusal e. e ≡ stop.NoMemory refusal };

    fn from(refusal: NoMemory) -> SelectionError {
        SelectionError::NoMemory(refusal)
    }
}
