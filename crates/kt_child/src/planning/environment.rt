ghost use Rattle.std.specs.Prelude.{◌≡◌, [], ◌∷◌, ◌++◌, map, IfOk, OnOk};
ghost use Rattle.kt_child.specs.Common.{chars, common_variables, env_of, interface_variables, locale_names, test_variable, variable};

use crate::planning::words::{concat_texts, push_text};
use kt_base::{Interface, Items, NoMemory, Text, Variable, Variables};
use kt_os::EnvPlan;
use std::alloc::Global;

/// The names of the environment variables that set the locale (environ(7)).
const LOCALE_VARIABLES: [&str; 8] = [
    "LANG",
    "LC_ALL",
    "LC_COLLATE",
    "LC_CTYPE",
    "LC_MESSAGES",
    "LC_MONETARY",
    "LC_NUMERIC",
    "LC_TIME",
];

/// Appends the names of the locale variables to `names`. These variables are removed from each
/// child's environment.
fn push_locale_names(alloc: Global, names: &mut Items<Text>) -> Result<(), NoMemory>
    requires { names.old ≡ [] }
    ensures { OnOk result (names.new ≡ locale_names) }
{
    for name in &LOCALE_VARIABLES {
        push_text(alloc, names, name)?;
    }
    Ok(())
}

/// Appends the environment variable `name` with the value `text` to `set`.
fn push_variable(alloc: Global, set: &mut Variables, name: &str, text: &str) -> Result<(), NoMemory>
    ensures { OnOk result (set.new ≡ set.old ++ variable (chars name.now) (chars text.now) ∷ []) }
{
    let name = Text::from_str(alloc, name)?;
    let value = Text::from_str(alloc, text)?;
    set.push(Variable { name, value })
}

/// Returns a copy of `variable`, a variable of a suite, with the prefix `TEST_ENV_` before its
/// name.
///
/// TAP and plain programs get the variable in this form.
fn copy_as_test_variable(alloc: Global, variable: &Variable) -> Result<Variable, NoMemory>
    ensures { IfOk result (λ v. v ≡ test_variable variable.now) }
{
    let name = concat_texts(alloc, "TEST_ENV_", variable.name.as_str())?;
    let value = variable.value.copy()?;
    Ok(Variable { name, value })
}

/// Appends copies of `variables`, the variables of a suite, to `set`. Each copy has the prefix
/// `TEST_ENV_` before its name.
fn push_test_variables(
    alloc: Global,
    set: &mut Variables,
    variables: &Variables,
) -> Result<(), NoMemory>
    ensures { OnOk result (set.new ≡ set.old ++ map test_variable variables.now) }
{
    for variable in variables.as_slice() {
        let passed = copy_as_test_variable(alloc, variable)?;
        set.push(passed)?;
    }
    Ok(())
}

/// Appends to `set` the variables that every child gets: `TZ` with the value `UTC`, and `HOME` and
/// `TMPDIR` with the value `work`. `work` is the path of the child's work directory.
fn push_common_variables(alloc: Global, set: &mut Variables, work: &Text) -> Result<(), NoMemory>
    requires { set.old ≡ [] }
    ensures { OnOk result (set.new ≡ common_variables work.now) }
{
    push_variable(alloc, set, "TZ", "UTC")?;
    push_variable(alloc, set, "HOME", work.as_str())?;
    push_variable(alloc, set, "TMPDIR", work.as_str())
}

/// Appends to `set` the environment variables that depend on the interface of a program.
///
/// An ATF program gets `__RUNNING_INSIDE_ATF_RUN`. TAP and plain programs get `variables`, the
/// variables of the suite, with the prefix `TEST_ENV_` before each name.
fn push_interface_variables(
    alloc: Global,
    set: &mut Variables,
    interface: Interface,
    variables: &Variables,
) -> Result<(), NoMemory>
    ensures { OnOk result (set.new ≡ set.old ++ interface_variables interface variables.now) }
{
    match interface {
        Interface::Atf => push_variable(
            alloc,
            set,
            "__RUNNING_INSIDE_ATF_RUN",
            "internal-yes-value",
        ),
        Interface::Tap | Interface::Plain => push_test_variables(alloc, set, variables),
    }
}

/// Returns the changes that turn the runner's environment into a child's (this profile).
///
/// Locale variables, such as `LANG`, are removed. `TZ`, `HOME` and `TMPDIR` are set for each child.
/// An ATF program also gets `__RUNNING_INSIDE_ATF_RUN`. TAP and plain programs also get
/// `variables`, the variables of the suite, with the prefix `TEST_ENV_` before each name. `work` is
/// the absolute path of the child's work directory.
///
/// # Errors
///
/// - `NoMemory`: an allocation fails.
pub fn env_plan(
    alloc: Global,
    interface: Interface,
    variables: &Variables,
    work: &Text,
) -> Result<EnvPlan, NoMemory>
    ensures { IfOk result (λ plan. plan ≡ env_of interface variables.now work.now) }
{
    let mut removed = Items::new(alloc);
    push_locale_names(alloc, &mut removed)?;
    let mut set = Variables::new(alloc);
    push_common_variables(alloc, &mut set, work)?;
    push_interface_variables(alloc, &mut set, interface, variables)?;
    Ok(EnvPlan { removed, set })
}
