ghost use Rattle.std.specs.Prelude.{◌≡◌, Some, IfOk};
ghost use Rattle.kt_plan.specs.Common.{IsIdle, LeadsByCalls, config_read_error, HasConfiguration, AppendsDefinitions, config_or_error, HoldsOrNoMemory, IsNoMemoryError, IsReadPrefix, ReadsSettings, AppendsDefinition, argument_definitions, Configures, IsConfiguration, ReadsConfig, with_selection_error, argument_definition, definition_named, variables_for};

use crate::options::case_filters::read_filters;
use crate::{SelectionError, Settings, World};
use kt_args::{CaseOptions, FilterRule};
use kt_base::{NoMemory, Text, Variables};
use kt_config::{Config, ConfigFault};
use kt_suite::ReadFault;
use std::alloc::Global;

/// Returns a copy of the variables that `config` sets for the test suite `suite`, or an empty list
/// if it sets none.
///
/// # Errors
///
/// - `NoMemory`: an allocation fails.
pub fn copy_suite_variables(
    alloc: Global,
    config: &Config,
    suite: &Text,
) -> Result<Variables, NoMemory>
    ensures { IfOk result (λ variables. variables ≡ variables_for config.now suite.now) }
{
    match config.suite_vars(suite) {
        Some(variables) => variables.copy(),
        None => Ok(Variables::new(alloc)),
    }
}

/// Sets the variable `name` of the configuration `config` to `value`.
///
/// Returns `None` on success. If the configuration rejects the variable, returns the error of the
/// command, with the name. Fails if an allocation fails.
fn set_config_variable(
    config: &mut Config,
    name: Text,
    value: &Text,
) -> Result<Option<SelectionError>, NoMemory>
    ensures { IfOk result (λ stop. AppendsDefinition config.old (config_or_error config.new stop)
        (with_selection_error (SelectionError.Variable name) (definition_named name value.now))) }
{
    match config.set(&name, value) {
        Ok(()) => Ok(None),
        Err(ConfigFault::NoMemory(refusal)) => Err(refusal),
        Err(fault) => Ok(Some(SelectionError::Variable(name, fault))),
    }
}

/// Sets the variable that `word`, an argument `NAME=VALUE` of `-v`, names in the configuration
/// `config`.
///
/// Returns `None` on success. If the argument lacks a `=` or the configuration rejects the
/// variable, returns the error of the command. Fails if an allocation fails.
fn set_argument(config: &mut Config, word: &Text) -> Result<Option<SelectionError>, NoMemory>
    ensures { IfOk result (λ stop.
        AppendsDefinition config.old (config_or_error config.new stop) (argument_definition
        word.now)) }
{
    let (name, value) = word.split_at_first('=')?;
    match value {
        None => Ok(Some(SelectionError::Variable(name, ConfigFault::BadValue))),
        Some(value) => set_config_variable(config, name, &value),
    }
}

/// Parses `bytes`, the contents of a configuration file.
///
/// The inner result is an error if the file is not valid. The outer result is an error if an
/// allocation fails.
fn parse_config(alloc: Global, bytes: &[u8]) -> Result<Result<Config, SelectionError>, NoMemory>
    ensures { IfOk result (HasConfiguration (IsConfiguration bytes.now)) }
{
    match Config::read(alloc, bytes) {
        Ok(config) => Ok(Ok(config)),
        Err(ConfigFault::NoMemory(refusal)) => Err(refusal),
        Err(fault) => Ok(Err(SelectionError::Configuration(fault))),
    }
}

/// Converts `fault`, an error of reading the configuration file, to the error of the command.
fn config_read_error(fault: ReadFault) -> SelectionError
    ensures { result ≡ config_read_error fault }
{
    match fault {
        ReadFault::Memory(refusal) => SelectionError::NoMemory(refusal),
        ReadFault::Missing | ReadFault::Failed => SelectionError::UnreadableConfiguration,
    }
}

/// Reads the configuration file at `path` and parses it.
///
/// Fails with `UnreadableConfiguration` if the file can't be read, and with `Configuration` if it
/// is not valid.
fn read_config<W: World>(
    alloc: Global,
    path: &Text,
    world: &mut W,
) -> Result<Config, SelectionError>
    ensures { LeadsByCalls W.replies world.old world.new (HoldsOrNoMemory IsNoMemoryError
        (IsReadPrefix (Some path.now))
        (λ answers. HasConfiguration (ReadsConfig (Some path.now) answers)) result) }
{
    match world.config(path) {
        Ok(bytes) => parse_config(alloc, bytes.as_slice())?,
        Err(fault) => Err(config_read_error(fault)),
    }
}

/// Reads and parses the configuration file that `options` name. Returns an empty configuration if
/// `options` name no file.
///
/// The errors are those of [`read_config`].
fn read_given_config<W: World>(
    alloc: Global,
    options: &CaseOptions,
    world: &mut W,
) -> Result<Config, SelectionError>
    ensures { LeadsByCalls W.replies world.old world.new (HoldsOrNoMemory IsNoMemoryError
        (IsReadPrefix options.now.config)
        (λ answers. HasConfiguration (ReadsConfig options.now.config answers)) result) }
{
    match &options.config {
        None => Ok(Config::new(alloc)),
        Some(path) => read_config(alloc, path, world),
    }
}

/// Sets the variables of `words`, the arguments `NAME=VALUE` of `-v`, in the configuration
/// `config`, in order.
///
/// The inner result is the changed configuration, or the error of the first argument that has an
/// error. The outer result is an error only if an allocation fails.
fn set_arguments(config: Config, words: &[Text]) -> Result<Result<Config, SelectionError>, NoMemory>
    ensures { IfOk result (λ outcome. AppendsDefinitions config outcome (argument_definitions
        words.now)) }
{
    let mut config = config;
    for word in words {
        if let Some(stop) = set_argument(&mut config, word)? {
            return Ok(Err(stop));
        }
    }
    Ok(Ok(config))
}

/// Creates the configuration of a command with the options `options`.
///
/// Reads the configuration file, and then sets the variables of `-v`. Fails with the first error of
/// the file or of the arguments of `-v`.
fn configure<W: World>(
    alloc: Global,
    options: &CaseOptions,
    world: &mut W,
) -> Result<Config, SelectionError>
    ensures { LeadsByCalls W.replies world.old world.new (HoldsOrNoMemory IsNoMemoryError
        (IsReadPrefix options.now.config)
        (λ answers. HasConfiguration (Configures options.now answers)) result) }
{
    let config = read_given_config(alloc, options, world)?;
    set_arguments(config, options.variables.as_slice())?
}

/// Reads the settings of a command that selects test cases: its configuration and its filters.
///
/// `rule` states which filters the command accepts.
///
/// # Errors
///
/// The first error is returned, in this order:
///
/// - `UnreadableConfiguration`: the configuration file can't be read.
/// - `Configuration`: the configuration file has an error.
/// - `Variable`: an argument of `-v` has an error.
/// - `Filter`: an argument is not a filter, or two filters may match the same case.
/// - `NeedsCase`: `rule` is `OneCase`, and there is no filter, more than one filter, or a filter
///   that names no case.
///
/// At any step:
///
/// - `NoMemory`: an allocation fails.
pub fn read_settings<W: World>(
    alloc: Global,
    rule: FilterRule,
    options: &CaseOptions,
    world: &mut W,
) -> Result<Settings, SelectionError>
    requires { IsIdle (W.running world.old) (W.pending world.old) }
    ensures settled { LeadsByCalls W.replies world.old world.new
        (HoldsOrNoMemory IsNoMemoryError (IsReadPrefix options.now.config)
        (ReadsSettings rule options.now) result) }
    ensures idle { IsIdle (W.running world.new) (W.pending world.new) }
{
    let config = configure(alloc, options, world)?;
    let filters = read_filters(alloc, rule, options.filters.as_slice())?;
    Ok(Settings { config, filters })
}
