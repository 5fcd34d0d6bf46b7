ghost use Rattle.std.specs.Prelude.{◌≡◌, ◌++◌, ◌∷◌, [], OnOk, MatchResult, ◌↔◌, IsTrue};
ghost use Rattle.kt_plan.specs.Common.{IsIdle, LeadsByCalls, candidates_of, ListsAllCases, IsAllListsPrefix, ListsProgramCases, IsSelectable, Contains, Filter, MayMatch};

use crate::options::configuring::copy_suite_variables;
use crate::{Candidate, Settings, World};
use kt_atflist::{CaseDef, cases};
use kt_base::{Interface, Items, NoMemory, Text};
use kt_suite::{Filter, Program};
use std::alloc::Global;

/// Returns the cases of the program `program`. An ATF program is run with the variables of its test
/// suite to list its cases. A program with another interface isn't run and has one case, `main`.
///
/// If the list of an ATF program can't be used, returns one case that represents the list and has
/// the error. If there are filters and none may match a case of an ATF program, the program is not
/// run and no cases are returned.
fn list_program_cases<W: World>(
    alloc: Global,
    settings: &Settings,
    program: &Program,
    world: &mut W,
) -> Result<Items<CaseDef>, NoMemory>
    requires { IsIdle (W.running world.old) (W.pending world.old) }
    ensures offers { LeadsByCalls W.replies world.old world.new (λ answers. MatchResult result
        (λ cases. ListsProgramCases settings.now.config settings.now.filters program.now answers
        (candidates_of program.now cases))
        (λ _. IsAllListsPrefix settings.now.config settings.now.filters (program.now ∷ [])
        answers)) }
    ensures idle { IsIdle (W.running world.new) (W.pending world.new) }
{
    match program.interface {
        Interface::Atf => {
            if !is_selectable(settings.filters.as_slice(), program) {
                return Ok(Items::new(alloc));
            }
            let variables = copy_suite_variables(alloc, &settings.config, &program.suite)?;
            let listing = Some(world.list(program, &variables));
            let found = cases(alloc, Interface::Atf, &program.props, &listing)?;
            Ok(found)
        }
        other => {
            let found = cases(alloc, other, &program.props, &None)?;
            Ok(found)
        }
    }
}

/// Appends a candidate for each of `cases` to `found`, with copies of the path and the test suite
/// of `program`.
fn add_candidates(
    program: &Program,
    cases: Items<CaseDef>,
    found: &mut Items<Candidate>,
) -> Result<(), NoMemory>
    ensures { OnOk result (found.new ≡ found.old ++ candidates_of program.now cases) }
{
    for case in cases.into_vec() {
        let path = program.path.copy()?;
        let suite = program.suite.copy()?;
        found.push(Candidate {
            interface: program.interface,
            path,
            suite,
            case,
        })?;
    }
    Ok(())
}

/// Returns the cases of the programs `programs`, in the order of the programs.
///
/// An ATF program is run to list its cases, while no other program is running. If there are filters
/// and none may match a case of an ATF program, the program is not run and its cases are not
/// returned.
///
/// # Errors
///
/// - `NoMemory`: an allocation fails.
pub fn list_all_cases<W: World>(
    alloc: Global,
    settings: &Settings,
    programs: &[Program],
    world: &mut W,
) -> Result<Items<Candidate>, NoMemory>
    requires { IsIdle (W.running world.old) (W.pending world.old) }
    ensures offers { LeadsByCalls W.replies world.old world.new (λ answers. MatchResult result
        (ListsAllCases settings.now.config settings.now.filters programs.now answers)
        (λ _. IsAllListsPrefix settings.now.config settings.now.filters programs.now answers)) }
    ensures idle { IsIdle (W.running world.new) (W.pending world.new) }
{
    let mut found = Items::new(alloc);
    for program in programs {
        let cases = list_program_cases(alloc, settings, program, world)?;
        add_candidates(program, cases, &mut found)?;
    }
    Ok(found)
}

/// Returns `true` if one of `filters` may match a case of the program at `path`.
fn has_possible_match(filters: &[Filter], path: &Text) -> bool
    ensures { IsTrue result ↔ ((one : Filter) × Contains filters.now one × MayMatch one path.now) }
{
    for filter in filters {
        if filter.may_match(path) {
            return true;
        }
    }
    false
}

/// Returns `true` if there is no filter, or if one of `filters` may match a case of `program`.
///
/// Allocates nothing.
fn is_selectable(filters: &[Filter], program: &Program) -> bool
    ensures { IsTrue result ↔ IsSelectable filters.now program.now }
{
    filters.is_empty() || has_possible_match(filters, &program.path)
}
