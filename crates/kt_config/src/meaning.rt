ghost use Rattle.std.specs.Prelude.{◌≡◌, IfOk};
ghost use Rattle.kt_config.specs.Names.{non_empty_definition, width_definition, runner_definition, is_suite_variable, suite_definition, definition_of};

use crate::ConfigFault;
use crate::width::Width;
use crate::words::{has_zero_byte, is_variable_name};
use kt_base::{NoMemory, Text, Variable};

/// A definition in a configuration: a variable with its new value.
#[derive(Drop)]
pub enum Definition {
    /// A definition of `architecture`. The field is its value, which is not empty.
    Architecture(Text),
    /// A definition of `platform`. The field is its value, which is not empty.
    Platform(Text),
    /// A definition of `parallelism`, the maximum number of test cases that run at the same time.
    Parallelism(Width),
    /// A definition of `unprivileged_user`, the user for tests that require an unprivileged user.
    ///
    /// The value has no effect, because this profile runs each test as the user of the runner.
    UnprivilegedUser,
    /// A definition of a test suite's variable. The fields are the name of the suite, and the
    /// variable with its value.
    SuiteVariable(Text, Variable),
}

/// Returns `definition`, or the fault `BadValue` if `empty` is `true`.
///
/// The caller passes `true` if the value of the definition is empty.
fn non_empty_definition(empty: bool, definition: Definition) -> Result<Definition, ConfigFault>
    ensures { result ≡ non_empty_definition empty definition }
{
    if empty {
        return Err(ConfigFault::BadValue);
    }
    Ok(definition)
}

/// Returns the definition that sets `parallelism` to `width`, or `BadValue` if `width` is `None`.
fn width_definition(width: Option<Width>) -> Result<Definition, ConfigFault>
    ensures { result ≡ width_definition width }
{
    match width {
        None => Err(ConfigFault::BadValue),
        Some(width) => Ok(Definition::Parallelism(width)),
    }
}

/// Returns the definition that sets the runner's variable `name` to `value`.
///
/// Returns `UnknownVariable` if the runner has no such variable, or `BadValue` if the variable does
/// not accept `value`.
#[tactic(auto, unfolding(crate::proofs::Common::chars))]
fn runner_definition(name: &Text, value: Text) -> Result<Definition, ConfigFault>
    ensures { result ≡ runner_definition name.now value }
{
    let empty = value.is_empty();
    if name.is_equal_to("architecture") {
        non_empty_definition(empty, Definition::Architecture(value))
    } else if name.is_equal_to("platform") {
        non_empty_definition(empty, Definition::Platform(value))
    } else if name.is_equal_to("unprivileged_user") {
        non_empty_definition(empty, Definition::UnprivilegedUser)
    } else if name.is_equal_to("parallelism") {
        width_definition(Width::from_text(&value))
    } else {
        Err(ConfigFault::UnknownVariable)
    }
}

/// Returns `true` if `root`, `suite` and `name` are the parts of the name of a suite's variable.
///
/// Such a name is `test_suites.SUITE.NAME`. `SUITE` is not empty, and `NAME` consists of one or
/// more ASCII letters, digits, `_` and `-`.
#[tactic(auto, unfolding(crate::proofs::Common::chars))]
fn is_suite_variable(root: &Text, suite: &Text, name: &Text) -> bool
    ensures { result ≡ is_suite_variable root.now suite.now name.now }
{
    if !root.is_equal_to("test_suites") {
        return false;
    }
    if suite.is_empty() {
        return false;
    }
    is_variable_name(name)
}

/// Returns the definition that sets the variable `name` of the test suite `suite` to `value`.
///
/// Returns `UnknownVariable` if `root`, `suite` and `name` are not the parts of a suite variable's
/// name, or `BadValue` if `value` contains a zero byte.
fn suite_definition(
    root: &Text,
    suite: &Text,
    name: &Text,
    value: Text,
) -> Result<Result<Definition, ConfigFault>, NoMemory>
    ensures { IfOk result (λ meaning.
        meaning ≡ suite_definition root.now suite.now name.now value) }
{
    if !is_suite_variable(root, suite, name) {
        return Ok(Err(ConfigFault::UnknownVariable));
    }
    if has_zero_byte(&value) {
        return Ok(Err(ConfigFault::BadValue));
    }
    let suite = suite.copy()?;
    let name = name.copy()?;
    Ok(Ok(Definition::SuiteVariable(suite, Variable { name, value })))
}

/// Returns the definition that sets the variable with the name parts `parts` to `value`.
///
/// Dots separate the parts of a variable's name. Returns `UnknownVariable` if no variable has this
/// name, or `BadValue` if the variable does not accept `value`.
///
/// # Errors
///
/// - `NoMemory`: an allocation fails.
pub fn definition_of(
    parts: &[Text],
    value: Text,
) -> Result<Result<Definition, ConfigFault>, NoMemory>
    ensures { IfOk result (λ meaning. meaning ≡ definition_of parts.now value) }
{
    match parts {
        [name] => Ok(runner_definition(name, value)),
        [root, suite, name] => suite_definition(root, suite, name, value),
        _ => Ok(Err(ConfigFault::UnknownVariable)),
    }
}
