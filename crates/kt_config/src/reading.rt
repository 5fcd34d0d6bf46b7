ghost use Rattle.std.specs.Prelude.{◌≡◌, IfOk, Err, MatchOption, List, Ok};
ghost use Rattle.kt_config.specs.Common.{is_syntax_version, is_syntax_call, definition_in, definitions_in, definitions_of_file, fault_of_script, AddsDefinition, IsResultOfDefinitions, Spells, Stmt, Definition, ConfigFault, HasFault, IsConfigFile, IfFault, SucceedsWith, FailsWith};

use crate::meaning::{Definition, definition_of};
use crate::{Config, ConfigFault};
use kt_base::NoMemory;
use kt_script::{Action, Arg, Literal, ScriptFault, Stmt, parse};
use std::alloc::Global;

/// Converts `fault`, the parser's error for a configuration file, to a configuration error.
///
/// A failed allocation remains `NoMemory`.
pub fn convert_script_fault(fault: ScriptFault) -> ConfigFault
    ensures { result ≡ fault_of_script fault }
{
    match fault {
        ScriptFault::NoMemory(refusal) => ConfigFault::NoMemory(refusal),
        _ => ConfigFault::Script(fault),
    }
}

/// Returns `true` if `arg`, the argument of a call, is the number 2.
fn is_syntax_version(arg: &Arg) -> bool
    ensures { result ≡ is_syntax_version arg.now }
{
    match arg {
        Arg::Value(Literal::Number(n)) => *n == 2,
        _ => false,
    }
}

/// Returns `true` if `action`, the action of a statement, is the call `syntax(2)`.
fn is_syntax_call(action: &Action) -> bool
    ensures { result ≡ is_syntax_call action.now }
{
    match action {
        Action::Call(name, arg) => name.is_equal_to("syntax") && is_syntax_version(arg),
        Action::Assign(_, _) => false,
    }
}

/// Returns the definition in a statement with the action `action`, or the fault of the statement.
///
/// The statement is not the first of a file. It has a fault if it is a call, if it assigns to an
/// unknown variable, or if the variable does not accept the value.
fn definition_in(
    alloc: Global,
    action: &Action,
) -> Result<Result<Definition, ConfigFault>, NoMemory>
    ensures { IfOk result (λ meaning. meaning ≡ definition_in action.now) }
{
    match action {
        Action::Call(_, _) => Ok(Err(ConfigFault::NotAssignment)),
        Action::Assign(parts, value) => definition_of(parts.as_slice(), value.text(alloc)?),
    }
}

/// Adds the definition in a statement with the action `action` to `config`.
///
/// Returns the fault of the statement, or `None` if it has no fault. On a fault, `config` is
/// unchanged.
fn apply_statement(
    alloc: Global,
    config: &mut Config,
    action: &Action,
) -> Result<Option<ConfigFault>, NoMemory>
    ensures { IfOk result (λ fault.
        MatchOption fault (AddsDefinition config.old config.new (definition_in action.now))
        (λ cause. definition_in action.now ≡ Err cause)) }
{
    match definition_in(alloc, action)? {
        Err(fault) => Ok(Some(fault)),
        Ok(definition) => {
            config.define(definition)?;
            Ok(None)
        }
    }
}

/// Creates a configuration from the statements `stmts`, or returns the fault of the first faulty
/// statement.
///
/// `stmts` are the statements after `syntax(2)` in a file.
fn read_statements(alloc: Global, stmts: &[Stmt]) -> Result<Result<Config, ConfigFault>, NoMemory>
    ensures { IfOk result (λ outcome. IsResultOfDefinitions outcome (definitions_in stmts.now)) }
{
    let mut config = Config::new(alloc);
    for stmt in stmts {
        match apply_statement(alloc, &mut config, &stmt.action)? {
            Some(fault) => return Ok(Err(fault)),
            None => {}
        }
    }
    Ok(Ok(config))
}

/// Creates a configuration from `stmts`, the statements of a file, or returns their first fault.
///
/// The fault is `NoSyntax` if there is no statement, or if the first statement is not `syntax(2)`.
///
/// # Errors
///
/// - `NoMemory`: an allocation fails.
pub fn read_script(alloc: Global, stmts: &[Stmt]) -> Result<Result<Config, ConfigFault>, NoMemory>
    ensures { IfOk result (λ outcome. IsResultOfDefinitions outcome (definitions_of_file stmts.now)) }
{
    match stmts.split_first() {
        None => Ok(Err(ConfigFault::NoSyntax)),
        Some((first, rest)) => {
            if is_syntax_call(&first.action) {
                return read_statements(alloc, rest);
            }
            Ok(Err(ConfigFault::NoSyntax))
        }
    }
}

impl Config {
    /// Parses `text` as a configuration file (kyua.conf(5) of this profile).
    ///
    /// # Errors
    ///
    /// A fault of the script takes precedence over a fault of a statement. If several statements
    /// are faulty, the fault of the first one is returned.
    ///
    /// - `Script`: `text` is not a script of literals.
    /// - `NoSyntax`: there is no statement, or the first statement is not `syntax(2)`.
    /// - `NotAssignment`: a statement after `syntax(2)` is a call.
    /// - `UnknownVariable`: an assignment does not name a variable.
    /// - `BadValue`: a variable does not accept its value.
    /// - `NoMemory`: an allocation fails.
    pub fn read(alloc: Global, text: &[u8]) -> Result<Config, ConfigFault>
        // On success, the text is a configuration file with the returned values.
        ensures accepted { IfOk result (λ config. IsConfigFile text.now config) }
        // Each configuration file is accepted, unless an allocation fails.
        ensures only { (stmts : List Stmt) → (definitions : List Definition) → Spells text.now stmts
            → definitions_of_file stmts ≡ Ok definitions → SucceedsWith result definitions }
        // On another error than a failed allocation, the text has the returned fault.
        ensures refused { IfFault result (λ fault. HasFault text.now fault) }
        // A text with a fault is rejected with that fault, unless an allocation fails.
        ensures due { (fault : ConfigFault) → HasFault text.now fault → FailsWith result fault }
    {
        match parse(alloc, text) {
            Err(fault) => Err(convert_script_fault(fault)),
            Ok(stmts) => read_script(alloc, stmts.as_slice())?,
        }
    }
}
