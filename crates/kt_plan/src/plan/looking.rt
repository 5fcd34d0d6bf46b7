ghost use Rattle.std.specs.Prelude.{◌≡◌, ◌∷◌, [], MatchResult};
ghost use Rattle.kt_plan.specs.Common.{LeadsByCalls, RecordsFound, ChecksNeeds, candidate_meta, needs_of_kinds, case_needs, needs_of_kind, needs_of_cases, ProbesHost, IsProbePrefix, IsCallPrefix, Finds, IsIdle};

use crate::{Candidate, World};
use kt_base::{NoMemory, Text};
use kt_metadata::{Host, Need};
use std::alloc::Global;

/// Returns `true` if the file or program `word`, which a case requires, exists on the host. `need`
/// states whether `word` is a file or a program.
fn is_found<W: World>(need: Need, word: &Text, world: &mut W) -> bool
    ensures { W.replies world.old (Finds need word.now result) world.new }
{
    match need {
        Need::File => world.file_exists(word),
        Need::Program => world.program_found(word),
    }
}

/// Records the required file or program `word` in `host` if it exists on the computer.
///
/// `need` states whether `word` is a file or a program. Fails if an allocation fails.
fn probe_need<W: World>(
    need: Need,
    word: &Text,
    world: &mut W,
    host: &mut Host,
) -> Result<(), NoMemory>
    ensures { LeadsByCalls W.replies world.old world.new (λ answers. MatchResult result
        (λ _. ChecksNeeds ((need, word.now) ∷ []) answers × RecordsFound answers host.old host.new)
        (λ _. IsCallPrefix (ChecksNeeds ((need, word.now) ∷ [])) answers)) }
{
    if !is_found(need, word, world) {
        return Ok(());
    }
    host.record_found(need, word)?;
    Ok(())
}

/// Records each of the required files or programs `words` in `host` if it exists on the computer.
///
/// Checks them in order. `need` states whether `words` are files or programs. Fails if an
/// allocation fails.
fn probe_needs<W: World>(
    need: Need,
    words: &[Text],
    world: &mut W,
    host: &mut Host,
) -> Result<(), NoMemory>
    ensures { LeadsByCalls W.replies world.old world.new (λ answers. MatchResult result
        (λ _. ChecksNeeds (needs_of_kind need words.now) answers
        × RecordsFound answers host.old host.new)
        (λ _. IsCallPrefix (ChecksNeeds (needs_of_kind need words.now)) answers)) }
{
    for word in words {
        probe_need(need, word, world, host)?;
    }
    Ok(())
}

/// Returns the kinds of requirements that must be checked on the computer for the case `candidate`:
/// files and programs.
///
/// Returns no kinds if the program's list of cases has an error. Allocates nothing.
fn need_kinds(candidate: &Candidate) -> &'static [Need]
    ensures { needs_of_kinds result.now (candidate_meta candidate.now)
        ≡ case_needs candidate.now.case.fault (candidate_meta candidate.now) }
{
    match &candidate.case.fault {
        Some(_fault) => &[],
        None => Need::all(),
    }
}

/// Records each required file and program of the case `candidate` in `host` if it exists on the
/// computer.
///
/// Checks all files first, and then all programs. Fails if an allocation fails.
fn probe_case_needs<W: World>(
    candidate: &Candidate,
    world: &mut W,
    host: &mut Host,
) -> Result<(), NoMemory>
    ensures { LeadsByCalls W.replies world.old world.new (λ answers. MatchResult result
        (λ _. ChecksNeeds (case_needs candidate.now.case.fault (candidate_meta candidate.now))
        answers
        × RecordsFound answers host.old host.new)
        (λ _. IsCallPrefix (ChecksNeeds (case_needs candidate.now.case.fault (candidate_meta
        candidate.now)))
        answers)) }
{
    let props = &candidate.case.props;
    for need in need_kinds(candidate) {
        probe_needs(*need, props.required_objects(*need), world, host)?;
    }
    Ok(())
}

/// Records each required file and program of the cases `cases` in `host` if it exists on the
/// computer.
///
/// Checks them in the order of the cases. Fails if an allocation fails.
fn probe_all_needs<W: World>(
    cases: &[Candidate],
    world: &mut W,
    host: &mut Host,
) -> Result<(), NoMemory>
    ensures { LeadsByCalls W.replies world.old world.new (λ answers. MatchResult result
        (λ _. ChecksNeeds (needs_of_cases cases.now) answers
        × RecordsFound answers host.old host.new)
        (λ _. IsCallPrefix (ChecksNeeds (needs_of_cases cases.now)) answers)) }
{
    for candidate in cases {
        probe_case_needs(candidate, world, host)?;
    }
    Ok(())
}

/// Reads the properties of the host that the cases `cases` may require.
///
/// The properties are: whether the user is root, the memory, the disk space, and the required files
/// and programs.
///
/// The user, the memory and the disk space are read even if no case requires them. A case that
/// represents a list with an error requires nothing. A file or a program that several cases require
/// is checked for each case. If the results differ, the file or the program counts as found.
///
/// # Errors
///
/// - `NoMemory`: an allocation fails.
pub fn probe_host<W: World>(
    alloc: Global,
    cases: &[Candidate],
    world: &mut W,
) -> Result<Host, NoMemory>
    requires { IsIdle (W.running world.old) (W.pending world.old) }
    ensures surveyed { LeadsByCalls W.replies world.old world.new (λ answers. MatchResult result
        (ProbesHost cases.now answers) (λ _. IsProbePrefix cases.now answers)) }
    ensures idle { IsIdle (W.running world.new) (W.pending world.new) }
{
    let root = world.is_root();
    let memory = world.memory();
    let disk = world.disk();
    let mut host = Host::new(alloc, root, memory, disk);
    probe_all_needs(cases, world, &mut host)?;
    Ok(host)
}
