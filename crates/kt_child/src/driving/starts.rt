ghost use Rattle.std.specs.Prelude.{◌≡◌, ◌≤◌, List, IfOk};
ghost use Rattle.kt_child.specs.Common.{Chain, Call, HasValidTimestamp, SpawnsByPlan, SpawnsInExistingDir, SpawnsInNewDir, Started, TakesAttemptNumber, MakesCalls, spawn_calls, new_attempt_calls, new_running_child, refusal_cause, initial_counts, IsStartableJob, IsRunningWithin, child_timeout_seconds, spawn_plan_for, want_of, args_of, program_directory};

use crate::ending::ends::{output_paths, remove_dir_if_requested};
use crate::planning::words::{absolute_path, program_directory};
use crate::planning::{CaseAttempt, ChildPurpose, SpawnPlan};
use crate::polling::{PollCounts, RunningChild};
use crate::{Want, argv_plan, env_plan};
use kt_base::{Items, NoMemory, Refused, Role, Text};
use kt_os::{Os, OsFault, moment};
use kt_sched::{Job, StartAnswer};
use std::alloc::Global;

/// The timeout of a cleanup, in seconds (this profile).
const CLEANUP_LIMIT_SECONDS: u64 = 60;

/// Returns `next`, the number of the next attempt, and increments it. Returns `None` if `next` has
/// reached 2^64 - 1.
pub(crate) fn take_attempt_number(next: &mut u64) -> Option<u64>
    ensures { TakesAttemptNumber next.old result next.new }
{
    let number = *next;
    *next = number.checked_add(1)?;
    Some(number)
}

/// Returns the purpose of the job's child in the role `role`, and the child's timeout in seconds.
pub(crate) fn purpose_and_timeout(job: &Job, role: Role) -> (Want, u64)
    requires { IsStartableJob job.now }
    ensures want { result.0 ≡ want_of role }
    ensures limit { result.1 ≡ child_timeout_seconds job.now role }
    ensures some { 1 ≤ result.1 }
    ensures range { result.1 ≤ 1000000 }
{
    match role {
        Role::Body => (Want::Body, job.timeout as u64),
        Role::Cleanup => (Want::Cleanup, CLEANUP_LIMIT_SECONDS),
    }
}

/// Returns copies of `first` and `second`.
fn copy_text_pair(first: &Text, second: &Text) -> Result<(Text, Text), NoMemory>
    ensures first { IfOk result (λ two. two.0 ≡ first.now) }
    ensures second { IfOk result (λ two. two.1 ≡ second.now) }
{
    let first = first.copy()?;
    Ok((first, second.copy()?))
}

/// Returns the arguments of a child of the case `case` with the purpose `purpose`. `program` is the
/// absolute path of the program.
fn child_args(
    alloc: Global,
    program: &Text,
    purpose: ChildPurpose<'_>,
    case: &CaseAttempt,
) -> Result<Items<Text>, NoMemory>
    ensures { IfOk result (λ words. words ≡ args_of case.now.interface purpose.entry.want
        case.now.paths.result (program_directory program.now) purpose.entry.variables.now
        purpose.entry.case_name.now) }
{
    let directory = program_directory(alloc, program)?;
    argv_plan(
        alloc,
        case.interface,
        purpose.want,
        &case.paths,
        &directory,
        purpose.variables,
        purpose.case_name,
    )
}

/// Creates the plan for the start of a child of the case `case` with the purpose `purpose`.
/// `source` is the absolute path of the root Kyuafile's directory.
pub(crate) fn spawn_plan(
    alloc: Global,
    source: &Text,
    purpose: ChildPurpose<'_>,
    case: &CaseAttempt,
) -> Result<SpawnPlan, NoMemory>
    requires some { 1 ≤ purpose.limit }
    requires range { purpose.limit ≤ 1000000 }
    ensures plan { IfOk result (λ plan. plan ≡ spawn_plan_for source.now (record {
      want = purpose.entry.want;
      program = purpose.entry.program.now;
      variables = purpose.entry.variables.now;
      case_name = purpose.entry.case_name.now;
      limit = purpose.entry.limit;
    }) case.now) }
    ensures on { IfOk result (λ plan. IsRunningWithin plan.limit initial_counts) }
{
    let paths = &case.paths;
    let program = absolute_path(alloc, source, purpose.program)?;
    let words = child_args(alloc, &program, purpose, case)?;
    let (dir, work) = copy_text_pair(&paths.dir, &paths.work)?;
    let (out, err) = output_paths(case.role, paths);
    let (out, err) = copy_text_pair(out, err)?;
    let env = env_plan(alloc, case.interface, purpose.variables, &paths.work)?;
    Ok(SpawnPlan {
        child: case.child(),
        limit: purpose.limit,
        program,
        words,
        env,
        dir,
        work,
        out,
        err,
    })
}

/// Returns `Refused::Memory`, the cause of a start that is refused because an allocation failed. No
/// other function of this crate creates that cause.
pub(crate) fn memory_refusal(_refusal: NoMemory) -> Refused
    ensures { result ≡ Refused.Memory }
{
    Refused::Memory
}

/// Returns the cause of a refused start, one of whose calls failed with `fault`. The cause is
/// `Memory` if an allocation of the call failed, and otherwise `cause`.
fn refusal_cause(cause: Refused, fault: OsFault) -> Refused
    ensures { result ≡ refusal_cause cause fault }
{
    match fault {
        OsFault::Failed => cause,
        OsFault::Memory(refusal) => memory_refusal(refusal),
    }
}

/// Creates the state of a child that has just started and was not polled yet. `limit` is its
/// timeout in seconds.
pub(crate) fn new_running_child(limit: u64, case: CaseAttempt) -> RunningChild
    ensures { result ≡ new_running_child limit case }
{
    let counts = PollCounts {
        before: 0,
        killed: false,
        after: 0,
    };
    RunningChild {
        case,
        limit,
        counts,
    }
}

/// Creates the two output files of `plan` and spawns its child.
///
/// Stops at the first call that fails, and returns the cause of the refusal.
fn open_and_spawn<O: Os>(os: &mut O, plan: &SpawnPlan) -> Result<(), Refused>
    ensures { (calls : List Call) × Chain O.leads os.old calls os.new
        × MakesCalls (spawn_calls plan.now) calls result }
{
    if let Err(fault) = os.open_output(plan.child, &plan.out) {
        return Err(refusal_cause(Refused::Output, fault));
    }
    if let Err(fault) = os.open_output(plan.child, &plan.err) {
        return Err(refusal_cause(Refused::Output, fault));
    }
    match os.spawn(
        plan.child,
        &plan.program,
        &plan.words,
        &plan.env,
        &plan.work,
    ) {
        Ok(()) => Ok(()),
        Err(fault) => Err(refusal_cause(Refused::Spawn, fault)),
    }
}

/// Creates the work directory and the two output files of `plan`, and spawns its child.
///
/// Stops at the first call that fails, and returns the cause of the refusal.
fn spawn_in_work_dir<O: Os>(os: &mut O, plan: &SpawnPlan) -> Result<(), Refused>
    ensures { (calls : List Call) × Chain O.leads os.old calls os.new
        × MakesCalls (new_attempt_calls plan.now) calls result }
{
    if let Err(fault) = os.make_dir(&plan.work) {
        return Err(refusal_cause(Refused::Directory, fault));
    }
    open_and_spawn(os, plan)
}

/// Starts a body, or a program that lists its test cases, in a new directory.
///
/// Stops at the first call that fails, removes the directory if it was created, and returns the
/// cause of the refusal.
fn spawn_in_new_dir<O: Os>(os: &mut O, plan: &SpawnPlan) -> Result<(), Refused>
    ensures { (calls : List Call) × Chain O.leads os.old calls os.new
        × SpawnsInNewDir (new_attempt_calls plan.now) plan.now.dir calls result }
{
    if let Err(fault) = os.make_dir(&plan.dir) {
        return Err(refusal_cause(Refused::Directory, fault));
    }
    let tried = spawn_in_work_dir(os, plan);
    remove_dir_if_requested(os, tried.is_err(), &plan.dir);
    tried
}

/// Starts a cleanup in the directory of its body. If a call of the start fails, removes the
/// directory and returns the cause of the refusal.
fn spawn_in_existing_dir<O: Os>(os: &mut O, plan: &SpawnPlan) -> Result<(), Refused>
    ensures { (calls : List Call) × Chain O.leads os.old calls os.new
        × SpawnsInExistingDir (spawn_calls plan.now) plan.now.dir calls result }
{
    let tried = open_and_spawn(os, plan);
    remove_dir_if_requested(os, tried.is_err(), &plan.dir);
    tried
}

/// Sets the timeout of the child of `plan` and starts the child. Does not read the clock.
pub(crate) fn spawn_by_plan<O: Os>(os: &mut O, plan: &SpawnPlan) -> Result<(), Refused>
    ensures { (calls : List Call) × Chain O.leads os.old calls os.new
        × SpawnsByPlan plan.now calls result }
{
    // Set the timeout first, since the system measures the child's time from its start.
    os.set_limit(plan.child, plan.limit);
    match plan.child.role {
        Role::Body => spawn_in_new_dir(os, plan),
        Role::Cleanup => spawn_in_existing_dir(os, plan),
    }
}

/// Starts the child of `plan`. Returns the time of the start, in milliseconds since 1970 in UTC, or
/// the cause of the refusal.
pub(crate) fn start_child<O: Os>(os: &mut O, plan: &SpawnPlan) -> StartAnswer
    ensures asked { (calls : List Call) × Chain O.leads os.old calls os.new
        × Started plan.now calls result }
    ensures moment { HasValidTimestamp result }
{
    match spawn_by_plan(os, plan) {
        Ok(()) => StartAnswer::Started(moment(os)),
        Err(cause) => StartAnswer::Refused(cause),
    }
}
