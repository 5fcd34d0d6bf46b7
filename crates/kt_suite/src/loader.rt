ghost use Rattle.std.specs.Prelude.{◌≡◌, ◌⊎◌, ◌≤◌, ◌-◌, ◌++◌, [], ◌∷◌, List, ℕ, length, IfOk};
ghost use Rattle.kt_suite.specs.Common.{LeadsByCalls, Asked, HasStableResults, program_limit, Unfinished, Registered, LoadResult, LoadsMarks, HasFileMarks, Script, IsParseFault, fault_at, read_fault, script_line, IsNoMemory, ChecksOpening, OpensFile};

use crate::fault::{fault_at, fault_of_allocation};
use crate::registry::{LoadStep, Registry};
use crate::statement::first_statement_cause;
use crate::stepping::execute_statement;
use crate::{Program, ReadFault, SuiteCause, SuiteFault, Tree};
use kt_base::{Items, NoMemory, Text};
use kt_script::{ScriptFault, Stmt, parse};
use std::alloc::Global;

/// Returns the `SuiteFault` of the Kyuafile `file`, whose read failed with the error `why`.
fn fault_of_read(alloc: Global, file: &Text, why: ReadFault) -> SuiteFault
    ensures { IsNoMemory result ⊎ (result ≡ read_fault file.now why) }
{
    match why {
        ReadFault::Memory(refusal) => fault_of_allocation(alloc, refusal),
        ReadFault::Missing | ReadFault::Failed => fault_at(file, alloc, 0, SuiteCause::Unreadable),
    }
}

/// Returns the number of the line with the error `why` of a script, or 0 if the error has no line.
fn script_fault_line(why: ScriptFault) -> u32
    ensures { result ≡ script_line why }
{
    match why {
        ScriptFault::BadToken(line) | ScriptFault::NotLiteral(line) | ScriptFault::Unclosed(line) =>
            line,
        ScriptFault::NoMemory(_) | ScriptFault::NotUtf8 | ScriptFault::TooLong => 0,
    }
}

/// Returns the `SuiteFault` of the Kyuafile `file`, whose parsing failed with the error `why`.
fn fault_of_parse(alloc: Global, file: &Text, why: ScriptFault) -> SuiteFault
    ensures { IsNoMemory result
        ⊎ (IsParseFault why × (result ≡ fault_at file.now (script_line why) (Script why))) }
{
    match why {
        ScriptFault::NoMemory(refusal) => fault_of_allocation(alloc, refusal),
        _ => fault_at(file, alloc, script_fault_line(why), SuiteCause::Script(why)),
    }
}

/// Checks that `stmts`, the statements of `file`, begin with `syntax(2)`, and returns them.
fn check_first_statement(
    alloc: Global,
    file: &Text,
    stmts: Items<Stmt>,
) -> Result<Items<Stmt>, SuiteFault>
    ensures { ChecksOpening file.now stmts result }
{
    match stmts.as_slice().split_first() {
        None => return Err(fault_at(file, alloc, 1, SuiteCause::NoSyntax)),
        Some((first, _rest)) => if let Some(cause) = first_statement_cause(&first.action) {
            return Err(fault_at(file, alloc, first.line, cause));
        },
    }
    Ok(stmts)
}

/// Reads the Kyuafile `file`, and returns its statements, which begin with `syntax(2)`.
///
/// The bytes of the file are freed before the function returns.
///
/// # Errors
///
/// - [`SuiteFault`]: the file can't be read, is not a script, or does not begin with `syntax(2)`.
/// - [`SuiteFault`] with the cause `NoMemory`: an allocation fails.
pub fn parse_kyuafile<T: Tree>(
    alloc: Global,
    tree: &mut T,
    file: &Text,
) -> Result<Items<Stmt>, SuiteFault>
    ensures { OpensFile T.asks tree.old tree.new file.now result }
{
    match tree.read(file) {
        Err(why) => Err(fault_of_read(alloc, file, why)),
        Ok(text) => match parse(alloc, text.as_slice()) {
            Err(why) => Err(fault_of_parse(alloc, file, why)),
            Ok(stmts) => check_first_statement(alloc, file, stmts),
        },
    }
}

/// Appends the path `file` to the open files of `registry`, and returns the registry.
fn push_open_file(registry: Registry, file: &Text) -> Result<Registry, NoMemory>
    ensures { IfOk result (λ next. next
        ≡ (record registry { open_kyuafiles = registry.open_kyuafiles ++ file.now ∷ [] })) }
{
    let mut registry = registry;
    registry.open_kyuafiles.push(file.copy()?)?;
    Ok(registry)
}

/// Reads the Kyuafile `file` and all files that it includes, and registers their programs.
///
/// Returns `registry` with these files and programs. The caller has counted `file` in `registry`,
/// and has checked that `file` is not open.
fn load_file<T: Tree>(
    alloc: Global,
    tree: &mut T,
    registry: Registry,
    file: &Text,
) -> Result<Registry, SuiteFault>
    ensures { LoadsMarks T.asks tree.old tree.new (HasFileMarks registry.open_kyuafiles file.now)
        registry result }
{
    let stmts = match parse_kyuafile(alloc, tree, file) {
        Ok(stmts) => stmts,
        Err(fault) => return Err(fault),
    };
    let mut registry = match push_open_file(registry, file) {
        Ok(registry) => registry,
        Err(refusal) => return Err(fault_of_allocation(alloc, refusal)),
    };
    let mut suite = None;
    let mut rest = &stmts.as_slice()[1..];
    while let Some((stmt, after)) = rest.split_first() {
        let turn = match execute_statement(alloc, tree, file, registry, &mut suite, stmt) {
            Ok(turn) => turn,
            Err(fault) => return Err(fault),
        };
        match turn {
            LoadStep::Next(next) => registry = next,
            LoadStep::Enter(next, path) => {
                registry = match load_file(alloc, tree, next, &path) {
                    Ok(next) => next,
                    Err(fault) => return Err(fault),
                };
            }
        }
        rest = after;
    }
    Ok(registry.close_last_file())
}

/// Loads a tree of Kyuafiles, and returns the programs that it registers, in order (kyuafile(5)).
///
/// `root` is the path of the root Kyuafile. The order is that of the statements, where the programs
/// of an included file take the position of the `include` statement. An included file begins
/// without a test suite, and does not change the test suite of the including file. The limits are
/// this profile's: at most 32 open files, the root included, 10,000 files and 10,000 programs.
///
/// # Errors
///
/// - [`SuiteFault`] with the first error in the order of reading: [`SuiteCause`] has the condition
///   of each cause.
/// - [`SuiteFault`] with the cause `NoMemory`: an allocation fails.
pub fn load<T: Tree>(alloc: Global, tree: &mut T, root: &Text) -> Result<Items<Program>, SuiteFault>
    // The calls of `tree` are exactly those that decide the result, in their order. If an
    // allocation fails, they are the calls before the failure.
    ensures loaded { LeadsByCalls T.asks tree.old tree.new (λ asked. Registered asked root.now
        result
        ⊎ Unfinished asked root.now result) }
    ensures few { IfOk result (λ programs. length programs ≤ program_limit) }
{
    let registry = Registry {
        open_kyuafiles: Items::new(alloc),
        files: 1,
        programs: Items::new(alloc),
    };
    match load_file(alloc, tree, registry, root) {
        Err(fault) => Err(fault),
        Ok(registry) => Ok(registry.into_programs()),
    }
}

/// Theorem: loading an unchanged tree twice gives the same result, unless an allocation fails.
///
/// The tree is unchanged if equal calls of its functions have equal results.
pub fn theorem_of_reloading()
    ensures steady { (first second : List Asked) (root : List ℕ) (r s : LoadResult)
        → HasStableResults (first ++ second) → Registered first root r → Registered second root s
        → r ≡ s }

    // The same calls with the same results give one result, whether or not the tree changed.
    ensures decided { (asked : List Asked) (root : List ℕ) (r s : LoadResult)
        → Registered asked root r → Registered asked root s → r ≡ s }
{}
