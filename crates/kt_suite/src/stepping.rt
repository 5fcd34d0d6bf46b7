ghost use Rattle.std.specs.Prelude.{◌≡◌, Err, IfErr, IfOk, OnOk};
ghost use Rattle.kt_suite.specs.Common.{list_any, bytes_eq, sibling_of, include_cause, meaning_of, suite_after, RegistersProgram, EntersInclude, CountsInclude, StepsTo};

use crate::fault::{fault_at, fault_of_allocation};
use crate::meaning::Meaning;
use crate::paths::sibling_path;
use crate::registry::{LoadStep, Registry};
use crate::statement::statement_meaning;
use crate::{Program, SuiteCause, SuiteFault, Tree};
use kt_base::Text;
use kt_script::Stmt;
use std::alloc::Global;

/// The maximum number of programs that a tree of Kyuafiles may register.
const PROGRAM_LIMIT: usize = 10_000;

/// The maximum number of Kyuafiles that a tree may have, where a file that is read twice counts
/// twice.
const FILE_LIMIT: usize = 10_000;

/// The maximum number of Kyuafiles that are open at once, each included by the file before.
const DEPTH_LIMIT: usize = 32;

/// Returns `true` if `files` contains `path`.
fn contains_path(files: &[Text], path: &Text) -> bool
    ensures { result ≡ list_any (bytes_eq path.now) files.now }
{
    files.iter().any(|file| *path == *file)
}

/// Returns the cause of the error if the file at `path` is included while `files` are open.
///
/// Returns `None` if the file may be included.
fn include_cause(files: &[Text], path: &Text) -> Option<SuiteCause>
    ensures { result ≡ include_cause files.now path.now }
{
    if contains_path(files, path) {
        Some(SuiteCause::IncludeLoop)
    } else if files.len() >= DEPTH_LIMIT {
        Some(SuiteCause::TooDeep)
    } else {
        None
    }
}

/// Counts the included file at `path` in `registry`, and returns the registry.
///
/// The `include` statement is in the line `line` of `file`. Fails if the included file is already
/// open, if 32 files are already open, or if 10,000 files are already counted.
fn count_include(
    alloc: Global,
    file: &Text,
    line: u32,
    registry: Registry,
    path: &Text,
) -> Result<Registry, SuiteFault>
    ensures { CountsInclude (record { file = file.now; line = line }) registry path.now result }
{
    if let Some(cause) = include_cause(registry.open_kyuafiles.as_slice(), path) {
        return Err(fault_at(file, alloc, line, cause));
    }
    if registry.files >= FILE_LIMIT {
        return Err(fault_at(file, alloc, line, SuiteCause::TooMany));
    }
    let mut registry = registry;
    registry.files += 1;
    Ok(registry)
}

/// Returns the loader's next step after an `include` of the file `name`, which is to read this
/// file.
///
/// The step has `registry`, with the included file counted. The `include` statement is in the line
/// `line` of `file`. `name` is relative to the directory of `file`. Fails if the included file is
/// already open or exceeds a limit of [`load`](crate::load), or if an allocation fails.
fn include_step(
    alloc: Global,
    file: &Text,
    line: u32,
    registry: Registry,
    name: &Text,
) -> Result<LoadStep, SuiteFault>
    ensures ok { IfOk result (λ step. EntersInclude (record { file = file.now; line = line })
        registry (sibling_of file.now name.now) step) }
    ensures err { IfErr result (λ fault. CountsInclude (record { file = file.now; line = line })
        registry (sibling_of file.now name.now) (Err fault)) }
{
    match sibling_path(alloc, file, name) {
        Err(refusal) => Err(fault_of_allocation(alloc, refusal)),
        Ok(path) => match count_include(alloc, file, line, registry, &path) {
            Err(fault) => Err(fault),
            Ok(next) => Ok(LoadStep::Enter(next, path)),
        },
    }
}

/// Registers the program `named` in `registry`, and returns the registry.
///
/// The path in `named` is a name in the directory of `file`. The statement that registers the
/// program is in the line `line` of `file`. Fails if no regular file is at the path of the program,
/// if 10,000 programs are already registered, or if an allocation fails.
fn register_program<T: Tree>(
    alloc: Global,
    tree: &mut T,
    file: &Text,
    line: u32,
    registry: Registry,
    named: Program,
) -> Result<Registry, SuiteFault>
    ensures { RegistersProgram T.asks tree.old tree.new (record { file = file.now; line = line })
        registry (record named { path = sibling_of file.now named.path }) result }
{
    let path = match sibling_path(alloc, file, &named.path) {
        Err(refusal) => return Err(fault_of_allocation(alloc, refusal)),
        Ok(path) => path,
    };
    if !tree.exists(&path) {
        return Err(fault_at(file, alloc, line, SuiteCause::MissingProgram));
    }
    if registry.programs.len() >= PROGRAM_LIMIT {
        return Err(fault_at(file, alloc, line, SuiteCause::TooMany));
    }
    let mut program = named;
    program.path = path;
    let mut registry = registry;
    match registry.programs.push(program) {
        Err(refusal) => Err(fault_of_allocation(alloc, refusal)),
        Ok(()) => Ok(registry),
    }
}

/// Executes `stmt`, a statement after the first one of `file`, and returns the loader's next step.
///
/// `registry` is the state of the loader before the statement. `suite` is the test suite that
/// `file` has set so far. The statement may change it.
///
/// # Errors
///
/// - [`SuiteFault`] with the line of the statement: the statement has an error, the included file
///   is already open, the program's file is missing, or a limit of [`load`](crate::load) is
///   exceeded.
/// - [`SuiteFault`] with the cause `NoMemory`: an allocation fails.
pub fn execute_statement<T: Tree>(
    alloc: Global,
    tree: &mut T,
    file: &Text,
    registry: Registry,
    suite: &mut Option<Text>,
    stmt: &Stmt,
) -> Result<LoadStep, SuiteFault>
    ensures step { StepsTo T.asks tree.old tree.new registry
        (record { file = file.now; line = stmt.now.line })
        (meaning_of suite.old stmt.now.action) result }
    ensures suite { OnOk result (suite.new
        ≡ suite_after suite.old (meaning_of suite.old stmt.now.action)) }
{
    match statement_meaning(alloc, &*suite, &stmt.action) {
        Err(refusal) => Err(fault_of_allocation(alloc, refusal)),
        Ok(Meaning::Wrong(cause)) => Err(fault_at(file, alloc, stmt.line, cause)),
        Ok(Meaning::Suite(name)) => {
            *suite = Some(name);
            Ok(LoadStep::Next(registry))
        }
        Ok(Meaning::Include(name)) => include_step(alloc, file, stmt.line, registry, &name),
        Ok(Meaning::Program(interface, name, own, props)) => {
            let named = Program {
                interface,
                path: name,
                suite: own,
                props,
            };
            match register_program(alloc, tree, file, stmt.line, registry, named) {
                Err(fault) => Err(fault),
                Ok(next) => Ok(LoadStep::Next(next)),
            }
        }
    }
}
