ghost use Rattle.std.specs.Prelude.{◌≡◌, List, IfOk};
ghost use Rattle.kt_child.specs.Common.{Chain, Call, initial_counts, list_case, list_purpose, spawn_plan_for, RunsList, AwaitsList, IsRunningChild, IsRunningWithin, new_running_child};

use crate::driving::starts::{
    memory_refusal, new_running_child, spawn_by_plan, spawn_plan, take_attempt_number,
};
use crate::ending::ends::read_list;
use crate::planning::{CaseAttempt, ChildPurpose, SpawnPlan};
use crate::polling::polls::poll_until_finished;
use crate::{Driver, Want, workdir_plan};
use kt_atflist::{ListBytes, Listing};
use kt_base::{Interface, NoMemory, Outcome, Refused, Role, Text, Variables};
use kt_os::Os;
use kt_suite::Program;
use std::alloc::Global;

/// The timeout of a program that lists its test cases, in seconds (this profile).
const LIST_TIMEOUT_SECONDS: u64 = 300;

/// Waits until a program that lists its test cases has finished, reads its standard output, and
/// removes the directory of its attempt. Returns the program's outcome and its list.
///
/// `plan` has the paths of the attempt, and `case` is the attempt. A failed removal is ignored.
fn await_list<O: Os>(os: &mut O, plan: &SpawnPlan, case: CaseAttempt) -> (Outcome, ListBytes)
    requires { IsRunningChild (new_running_child plan.now.limit case) }
    ensures { (calls : List Call) × Chain O.leads os.old calls os.new
        × AwaitsList plan.now case calls result.0 result.1 }
{
    let mut children = [new_running_child(plan.limit, case)];
    let first = poll_until_finished(os, &mut children);
    let bytes = read_list(os, &plan.out);
    let _ = os.remove_tree(&plan.dir);
    (first.outcome, bytes)
}

/// Starts a program that lists its test cases, and waits until it has finished. Returns the
/// program's outcome and its list, or the cause of the refusal if the program can't be started.
///
/// `plan` has the values for the start, and `case` is the attempt.
fn run_list<O: Os>(os: &mut O, plan: &SpawnPlan, case: CaseAttempt) -> Listing
    requires { IsRunningChild (new_running_child plan.now.limit case) }
    ensures { (calls : List Call) × Chain O.leads os.old calls os.new
        × RunsList plan.now case calls result }
{
    match spawn_by_plan(os, plan) {
        Err(cause) => Listing::Refused(cause),
        Ok(()) => {
            let (outcome, bytes) = await_list(os, plan, case);
            Listing::Ended(outcome, bytes)
        }
    }
}

/// Creates the `CaseAttempt` and the `SpawnPlan` of a program that lists its test cases.
///
/// `source` is the absolute path of the root Kyuafile's directory, and `program` a path relative to
/// it. `root` is the root directory of the driver, and `attempt` the number of the attempt.
/// `variables` are the variables of the program's suite.
fn make_list_plan(
    alloc: Global,
    source: &Text,
    root: &Text,
    attempt: u64,
    program: &Text,
    variables: &Variables,
) -> Result<(CaseAttempt, SpawnPlan), NoMemory>
    ensures case { IfOk result (λ planned. planned.0 ≡ list_case root.now attempt) }
    ensures plan { IfOk result (λ planned. planned.1 ≡ spawn_plan_for source.now
        (list_purpose program.now variables.now) (list_case root.now attempt)) }
    ensures on { IfOk result (λ planned. IsRunningWithin planned.1.limit initial_counts) }
{
    let case = CaseAttempt {
        position: 0,
        attempt,
        role: Role::Body,
        interface: Interface::Atf,
        cleanup: false,
        paths: workdir_plan(alloc, root, attempt)?,
    };
    let none = Text::new(alloc);
    let purpose = ChildPurpose {
        want: Want::List,
        program,
        variables,
        case_name: &none,
        limit: LIST_TIMEOUT_SECONDS,
    };
    let plan = spawn_plan(alloc, source, purpose, &case)?;
    Ok((case, plan))
}

impl<O: Os + Drop> Driver<O> {
    ghost use Rattle.std.specs.Prelude.{◌≡◌};
    ghost use Rattle.kt_child.specs.Common.{ListsProgram};

    /// Lists the test cases of an ATF program by running it with `variables`, the variables of its
    /// suite (atf-test-program(1)).
    ///
    /// The program runs in a new directory, with a timeout of 300 seconds (this profile). The
    /// directory is then removed; a failed removal is ignored. The list is `Unreadable` if its file
    /// is missing or a read fails, and `TooLong` if it has more than 1,048,576 bytes.
    ///
    /// # Errors
    ///
    /// The result is `Listing::Refused` with one of these causes:
    ///
    /// - `Directory`: no attempt number is left, or a directory can't be created.
    /// - `Output`: an output file can't be created.
    /// - `Spawn`: the system can't start the program.
    /// - `Memory`: an allocation of the driver or of a call fails.
    pub fn list(&mut self, program: &Program, variables: &Variables) -> Listing
        ensures listed { ListsProgram O.leads self.old program.now.path variables.now result
            self.new }
        ensures running { self.new.running ≡ self.old.running }
        ensures source { self.new.source ≡ self.old.source }
        ensures root { self.new.root ≡ self.old.root }
    {
        let Some(attempt) = take_attempt_number(&mut self.next) else {
            return Listing::Refused(Refused::Directory);
        };
        match make_list_plan(
            self.alloc,
            &self.source,
            &self.root,
            attempt,
            &program.path,
            variables,
        ) {
            Err(refusal) => Listing::Refused(memory_refusal(refusal)),
            Ok((case, plan)) => run_list(&mut self.os, &plan, case),
        }
    }
}
