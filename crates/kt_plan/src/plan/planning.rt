ghost use Rattle.std.specs.Prelude.{◌≡◌, ◌≤◌, ◌&&◌, length, IfOk, MatchResult};
ghost use Rattle.kt_plan.specs.Common.{Values, candidate_meta, first_reason, requirement_reason_texts, variables_for, IsPlan, item_limit, is_atf, ArePlanned, DecidesVerdict, IsJobOf, IsIdle, LeadsByCalls, ProbesHost, IsProbePrefix};
ghost use Rattle.kt_metadata.specs.declared.host.Host.{Host as Surveyed};

use crate::plan::looking::probe_host;
use crate::plan::shared_variables::SharedVariables;
use crate::{Candidate, World};
use kt_base::{Interface, Items, NoMemory, Reason, Text, Variables, Verdict};
use kt_config::Config;
use kt_metadata::{Host, Meta, unmet};
use kt_sched::Job;
use std::alloc::Global;

/// Returns a copy of the reason `reason`. Allocates only for `Owned`, whose text is copied.
fn copy_reason(reason: &Reason) -> Result<Reason, NoMemory>
    ensures { IfOk result (λ copy. copy ≡ reason.now) }
{
    match reason {
        Reason::Nothing => Ok(Reason::Nothing),
        Reason::Fixed(phrase) => Ok(Reason::Fixed(*phrase)),
        Reason::Ended(phrase, outcome) => Ok(Reason::Ended(*phrase, *outcome)),
        Reason::Counted(phrase, m, n) => Ok(Reason::Counted(*phrase, *m, *n)),
        Reason::Owned(text) => Ok(Reason::Owned(text.copy()?)),
    }
}

/// Returns `true` if a case with the effective properties `meta` declares a cleanup. `interface` is
/// the interface of its program.
///
/// Only cases of ATF programs may have cleanups.
fn declares_cleanup(interface: Interface, meta: &Meta) -> bool
    ensures { result ≡ (is_atf interface && meta.now.has_cleanup) }
{
    match interface {
        Interface::Atf => meta.has_cleanup,
        Interface::Tap | Interface::Plain => false,
    }
}

/// Returns the verdict of the case `candidate` if the case must not be started, and otherwise
/// `None`.
///
/// The case is broken if its program's list of cases has an error. Otherwise, it is skipped if a
/// requirement is not met. `meta` are the effective properties of the case. Its requirements are
/// compared with the values in `config` and `host`.
fn decide_verdict(
    alloc: Global,
    candidate: &Candidate,
    meta: &Meta,
    config: &Config,
    host: &Host,
) -> Result<Option<Verdict>, NoMemory>
    ensures { IfOk result (λ decided. DecidesVerdict candidate.now.case.fault
        (first_reason (requirement_reason_texts meta.now config.now candidate.now.suite host.now)) decided) }
{
    if let Some(reason) = &candidate.case.fault {
        return Ok(Some(Verdict::broken(copy_reason(reason)?)));
    }
    match unmet(alloc, meta, config, &candidate.suite, host)? {
        Some(reason) => Ok(Some(Verdict::skipped(reason))),
        None => Ok(None),
    }
}

/// Converts the case `candidate` to its job, with its variables, properties and verdict.
///
/// `position` is the position of the job in its plan. `vars` are the variables of the case's test
/// suite, and `meta` are the effective properties of the case. `decided` is the verdict of the case
/// if it must not be started.
fn build_job(
    position: u32,
    candidate: Candidate,
    vars: Variables,
    meta: &Meta,
    decided: Option<Verdict>,
) -> Result<Job, NoMemory>
    ensures { (config : Values) → (host : Surveyed)
        → vars ≡ variables_for config candidate.suite
        → meta.now ≡ candidate_meta candidate
        → DecidesVerdict candidate.case.fault
        (first_reason (requirement_reason_texts meta.now config candidate.suite host)) decided
        → IfOk result (λ job. IsJobOf config host position candidate job) }
{
    let listed = candidate.case.props.listing()?;
    let interface = candidate.interface;
    let (program, case_name) = candidate.into_names();
    Ok(Job {
        position,
        interface,
        program,
        case_name,
        vars,
        timeout: meta.timeout,
        exclusive: meta.is_exclusive,
        cleanup: declares_cleanup(interface, meta),
        decided,
        meta: listed,
    })
}

/// Converts the case `candidate` to its job, with a verdict if the case must not be started.
///
/// `position` is the position of the job in its plan. `vars` are the variables that `config` sets
/// for the case's test suite. The requirements of the case are compared with the values in `config`
/// and `host`.
///
/// Separate for the prover: the cost of a body grows with the square of its calls.
fn plan_job(
    alloc: Global,
    config: &Config,
    host: &Host,
    position: u32,
    candidate: Candidate,
    vars: Variables,
) -> Result<Job, NoMemory>
    requires { vars ≡ variables_for config.now candidate.suite }
    ensures { IfOk result (λ job. IsJobOf config.now host.now position candidate job) }
{
    let meta = candidate.case.props.effective()?;
    let decided = decide_verdict(alloc, &candidate, &meta, config, host)?;
    build_job(position, candidate, vars, &meta, decided)
}

/// Creates the plan of the cases `cases`: one job for each case, in order. There must be at most
/// 100,000 cases.
///
/// A case is broken, and is not started, if its program's list of cases has an error. Otherwise, a
/// case with an unmet requirement is skipped. The host is not checked again during the run. So a
/// file that one case creates does not meet a requirement of another case. Adjacent cases of one
/// test suite share one reference-counted copy of its variables.
///
/// # Errors
///
/// - `NoMemory`: an allocation fails.
pub fn make_plan(
    alloc: Global,
    config: &Config,
    host: &Host,
    cases: Items<Candidate>,
) -> Result<Items<Job>, NoMemory>
    requires { length cases ≤ item_limit }
    ensures planned { IfOk result (λ plan. ArePlanned config.now host.now 0 cases plan) }
    ensures plan { IfOk result (λ plan. IsPlan plan × (length plan ≡ length cases)) }
{
    let mut plan = Items::new(alloc);
    let mut position: u32 = 0;
    let mut shared = SharedVariables::for_suite(alloc, config, &Text::new(alloc))?;
    for candidate in cases.into_vec() {
        shared = shared.for_next_case(alloc, config, &candidate.suite)?;
        let vars = shared.variables.copy()?;
        plan.push(plan_job(alloc, config, host, position, candidate, vars)?)?;
        position += 1;
    }
    Ok(plan)
}

/// Reads the properties of the host that the cases `cases` may require, and creates the plan of the
/// cases. The plan has one job for each case, in order. There must be at most 100,000 cases.
///
/// A case is broken, and is not started, if its program's list of cases has an error. Otherwise, a
/// case with an unmet requirement is skipped.
///
/// # Errors
///
/// - `NoMemory`: an allocation fails.
pub fn prepare_plan<W: World>(
    alloc: Global,
    config: &Config,
    cases: Items<Candidate>,
    world: &mut W,
) -> Result<Items<Job>, NoMemory>
    requires few { length cases ≤ item_limit }
    requires idle { IsIdle (W.running world.old) (W.pending world.old) }
    ensures planned { LeadsByCalls W.replies world.old world.new (λ answers. MatchResult result
        (λ plan. (host : Surveyed) × ProbesHost cases answers host
        × ArePlanned config.now host 0 cases plan) (λ _. IsProbePrefix cases answers)) }
    ensures plan { IfOk result (λ plan. IsPlan plan × (length plan ≡ length cases)) }
    ensures idle { IsIdle (W.running world.new) (W.pending world.new) }
{
    let host = probe_host(alloc, cases.as_slice(), world)?;
    let plan = make_plan(alloc, config, &host, cases)?;
    Ok(plan)
}
