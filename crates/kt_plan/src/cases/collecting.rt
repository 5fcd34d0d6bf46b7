ghost use Rattle.std.specs.Prelude.{◌≡◌, ◌≤◌, ◌⊎◌, length, IfOk};
ghost use Rattle.kt_plan.specs.Common.{IsIdle, IsNoMemory, item_limit, HasTreeSelection, LeadsByCalls, IsFaultAt, no_memory, program_limit, HoldsOrNoMemory, IsNoMemoryError, IsLoadPrefix, Loads, IsSelectionPrefix, Selects, WorldLeads};
ghost use Rattle.kt_base.specs.declared.no_memory.NoMemory.{NoMemory as OutOfMemory};
ghost use Rattle.kt_plan.specs.declared.selection_error.SelectionError.TheVariants as stop;

use crate::cases::choosing::select_candidates;
use crate::cases::offering::list_all_cases;
use crate::options::configuring::read_settings;
use crate::{CaseSelection, CommandSelection, SelectionError, Settings, World};
use kt_args::{CaseOptions, FilterRule};
use kt_base::{Items, NoMemory, Text};
use kt_suite::{Kyuafile, Program, SuiteCause, SuiteFault, Tree, load};
use std::alloc::Global;

/// Creates the `SuiteFault` for the failed allocation `refusal`. Its path is empty, and its line is
/// 0.
fn create_memory_fault(alloc: Global, refusal: NoMemory) -> SuiteFault
    ensures { result ≡ no_memory refusal }
{
    SuiteFault {
        cause: SuiteCause::NoMemory(refusal),
        path: Text::new(alloc),
        line: 0,
    }
}

/// Creates the `SuiteFault` with the cause `cause` in the Kyuafile `file`. Its line is 0, since the
/// error has no line.
///
/// If the allocation for a copy of the path fails, returns the `SuiteFault` for that failure.
fn create_file_fault(alloc: Global, file: &Kyuafile, cause: SuiteCause) -> SuiteFault
    ensures { IsFaultAt file.now 0 cause result }
{
    match file.copy_path() {
        Ok(path) => SuiteFault {
            cause,
            path,
            line: 0,
        },
        Err(refusal) => create_memory_fault(alloc, refusal),
    }
}

/// Returns the programs that the Kyuafile `kyuafile` and its included files register, in order.
///
/// The files are read from `tree`, whose root must be the directory of `kyuafile`.
///
/// # Errors
///
/// - [`SuiteFault`] with the first error of the Kyuafiles. Its cause is `Unreadable` if `kyuafile`
///   has no file name, for example if it ends in a slash.
/// - [`SuiteFault`] with the cause `NoMemory`: an allocation fails.
pub fn load_programs<T: Tree>(
    alloc: Global,
    kyuafile: &Kyuafile,
    tree: &mut T,
) -> Result<Items<Program>, SuiteFault>
    ensures loaded { LeadsByCalls T.asks tree.old tree.new
        (HoldsOrNoMemory IsNoMemory (IsLoadPrefix kyuafile.now) (Loads kyuafile.now) result) }
    ensures few { IfOk result (λ programs. length programs ≤ program_limit) }
{
    if kyuafile.name().is_empty() {
        return Err(create_file_fault(alloc, kyuafile, SuiteCause::Unreadable));
    }
    load(alloc, tree, kyuafile.name())
}

/// Converts `fault`, an error of the Kyuafiles, to the error of the command. The result is
/// `NoMemory` for a failed allocation, and otherwise `Tree`.
fn tree_error(fault: SuiteFault) -> SelectionError
    ensures { ((refusal : OutOfMemory) × (result ≡ stop.NoMemory refusal)
        × (fault.cause ≡ SuiteCause.NoMemory refusal))
        ⊎ ((result ≡ stop.Tree fault) × (IsNoMemory fault → ⊥)) }
{
    match fault.cause {
        SuiteCause::NoMemory(refusal) => SelectionError::NoMemory(refusal),
        _ => SelectionError::Tree(fault),
    }
}

/// Selects the test cases of the Kyuafile `kyuafile` by the filters of `settings` (kyua(1)).
///
/// Reads `kyuafile` and its includes, lists the cases of each ATF program that the filters do not
/// exclude, and applies the filters to all cases.
///
/// All Kyuafiles are read first, so no program starts if a Kyuafile has an error. If a list can't
/// be used, one case represents the list and will be reported as broken, so the other programs are
/// still tested. At most 100,000 cases may be listed. This limit is checked after the last list,
/// before the filters select cases.
///
/// # Errors
///
/// - `Tree`: a Kyuafile has an error.
/// - `TooManyCases`: there are more than 100,000 cases to select from.
/// - `NoMemory`: an allocation fails.
pub fn load_and_select<W: World>(
    alloc: Global,
    settings: &Settings,
    kyuafile: &Kyuafile,
    world: &mut W,
) -> Result<CaseSelection, SelectionError>
    requires { IsIdle (W.running world.old) (W.pending world.old) }
    ensures collected { HasTreeSelection W.asks W.replies settings.now kyuafile.now
        world.old world.new result }
    ensures few { IfOk result (λ chosen. length chosen.cases ≤ item_limit) }
    ensures idle { IsIdle (W.running world.new) (W.pending world.new) }
{
    let programs = match load_programs(alloc, kyuafile, world) {
        Ok(programs) => programs,
        Err(fault) => return Err(tree_error(fault)),
    };
    let found = list_all_cases(alloc, settings, programs.as_slice(), world)?;
    select_candidates(alloc, settings.filters.as_slice(), found)
}

/// Selects the test cases of a command with the options `options`.
///
/// `rule` states which filters the command accepts.
///
/// # Errors
///
/// The first error is returned, in this order:
///
/// - `UnreadableConfiguration`: the configuration file can't be read.
/// - `Configuration`: the configuration file has an error.
/// - `Variable`: an argument of `-v` has an error.
/// - `Filter`: an argument is not a filter, or two filters may match the same case.
/// - `NeedsCase`: `rule` is `OneCase`, and there is no filter, more than one filter, or a filter
///   that names no case.
/// - `Tree`: a Kyuafile has an error.
/// - `TooManyCases`: there are more than 100,000 cases to select from.
///
/// At any step:
///
/// - `NoMemory`: an allocation fails.
pub fn select_cases<W: World>(
    alloc: Global,
    rule: FilterRule,
    options: &CaseOptions,
    world: &mut W,
) -> Result<CommandSelection, SelectionError>
    requires { IsIdle (W.running world.old) (W.pending world.old) }
    ensures selects { LeadsByCalls (WorldLeads W.asks W.replies) world.old world.new
        (HoldsOrNoMemory IsNoMemoryError (IsSelectionPrefix rule options.now)
        (Selects rule options.now) result) }
    ensures few { IfOk result (λ picked. length picked.chosen.cases ≤ item_limit) }
    ensures idle { IsIdle (W.running world.new) (W.pending world.new) }
{
    let settings = read_settings(alloc, rule, options, world)?;
    let chosen = load_and_select(alloc, &settings, &options.kyuafile, world)?;
    Ok(CommandSelection { settings, chosen })
}
