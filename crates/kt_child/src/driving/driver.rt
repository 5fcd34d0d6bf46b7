ghost use Rattle.std.specs.Prelude.{◌≡◌, List, IfOk};
ghost use Rattle.kt_base.specs.Chains.{Chain};
ghost use Rattle.kt_os.specs.System.Calls.{Call};
ghost use Rattle.kt_child.specs.Driving.Roots.{CreatesRoot, driver_fault_of, root_of};
ghost use Rattle.kt_child.specs.declared.driving.driver.DriverFault.TheVariants as fault;

use crate::driving::running_children::{RunningChildren, refuse_start};
use crate::driving::starts::{
    memory_refusal, purpose_and_timeout, spawn_plan, take_attempt_number,
};
use crate::planning::{CaseAttempt, ChildPurpose};
use crate::{Paths, workdir_plan};
use kt_base::{NoMemory, OUT_OF_MEMORY, Refused, Role, Text};
use kt_os::{Os, OsFault};
use kt_removal::numbered_path;
use kt_sched::{Ended, Job, Launcher, StartAnswer};
use std::alloc::Global;
use thiserror::Error;

/// Errors returned by [`Driver::new`]. `Display` prints the message of [`DriverFault::message`].
#[derive(Clone, Copy, Debug, Error)]
#[error("{}", self.message())]
pub enum DriverFault {
    /// An allocation failed.
    NoMemory(NoMemory),
    /// None of the 1,000 root directories, `kyua.0` to `kyua.999`, could be created.
    NoWorkDirectory,
}

impl DriverFault {
    ghost use Rattle.kt_child.specs.Common.{driver_message};

    /// Returns the message of the error (this profile).
    pub fn message(self) -> &'static str
        ensures { result.now ≡ driver_message self }
    {
        match self {
            DriverFault::NoMemory(_) => OUT_OF_MEMORY,
            DriverFault::NoWorkDirectory => "no work directory",
        }
    }
}

impl From<NoMemory> for DriverFault {
    ghost from_gives = { λ refusal e. e ≡ fault.NoMemory refusal };

    fn from(refusal: NoMemory) -> DriverFault {
        DriverFault::NoMemory(refusal)
    }
}

impl From<OsFault> for DriverFault {
    ghost from_gives = { λ os driver. driver ≡ driver_fault_of os };

    fn from(fault: OsFault) -> DriverFault {
        match fault {
            OsFault::Failed => DriverFault::NoWorkDirectory,
            OsFault::Memory(refusal) => DriverFault::NoMemory(refusal),
        }
    }
}

/// A driver of child processes. It starts them in directories below its root directory, polls them,
/// and removes the directories afterwards.
#[derive(Drop)]
pub struct Driver<O: Drop> {
    /// The system that starts and polls the children.
    pub(crate) os: O,
    /// The allocator of the driver's values.
    pub(crate) alloc: Global,
    /// The absolute path of the root Kyuafile's directory.
    pub(crate) source: Text,
    /// The path of the driver's root directory, which contains the directories of all attempts.
    pub(crate) root: Text,
    /// The number of the next attempt, counted from 0. The start of a body uses one number, and so
    /// does the start of a program that lists its test cases.
    pub(crate) next: u64,
    /// The running children and the cases with a pending cleanup.
    pub(crate) running: RunningChildren,
}

impl<O: Os + Drop> Launcher for Driver<O> {
    ghost use Rattle.kt_child.specs.Common.{is_among, launcher_child_in, DriverStarts, DriverWaits};

    ghost running = { λ d. launcher_child_in d.running };

    ghost pending = { λ d. is_among d.running.pending };

    ghost starts = { DriverStarts O.leads };

    ghost waits = { DriverWaits O.leads };

    /// Starts the body or the cleanup of the case of `job`, as `role` selects.
    ///
    /// The driver allocates before its first call to the system. If its allocation fails, it makes
    /// no call, except that it removes the directory of a refused cleanup. No two attempts of a
    /// driver have the same number. The start of a body is an attempt, and so is a listing of test
    /// cases.
    ///
    /// # Errors
    ///
    /// The result is `StartAnswer::Refused` with one of these causes:
    ///
    /// - `Directory`: no attempt number is left, or a directory can't be created.
    /// - `Output`: an output file can't be created.
    /// - `Spawn`: the system can't start the program.
    /// - `Memory`: an allocation of the driver or of a call fails.
    fn start(&mut self, job: &Job, role: Role) -> StartAnswer {
        match role {
            Role::Body => self.start_body(job),
            Role::Cleanup => self.start_cleanup(job),
        }
    }

    /// Waits until a child has finished, and returns its outcome, evidence and outputs.
    ///
    /// The children are polled in rounds, in the order of their starts. A pause follows each round
    /// without a finished child. A child has finished if it has ended, or if a poll or the kill at
    /// its timeout fails. A child that is still running at the 500th poll after the kill counts as
    /// finished, too. If a read or an allocation fails, the evidence is unreadable or the output is
    /// empty.
    fn wait(&mut self) -> Ended {
        self.running.wait(self.alloc, &mut self.os)
    }
}

impl<O: Os + Drop> Driver<O> {
    ghost use Rattle.std.specs.Prelude.{◌≡◌, Bool, ℕ, List, MatchResult, Ok, Err};
    ghost use Rattle.kt_child.specs.Common.{Chain, Call, RemoveTree, CreatesRoot, idle_state, MayStart, running_after_start, HasValidTimestamp, IsStartableJob, count_in, StartsByPlan, case_of, child_timeout_seconds, new_running_child, state_after_start, is_among, launcher_child_in, job_spawn_plan, IsStart};
    ghost use Rattle.kt_base.specs.declared.child.Role.{Role as Part};

    /// Creates a driver with a new root directory below the directory `base` (this profile).
    ///
    /// The root directory is the first of `kyua.0` to `kyua.999` that can be created. An existing
    /// directory, such as that of a killed runner, is never used. `source` is the absolute path of
    /// the root Kyuafile's directory. The paths of programs are relative to it.
    ///
    /// # Errors
    ///
    /// Each error returns `os`, too.
    ///
    /// - `NoMemory`: the allocation of a path fails.
    /// - `NoWorkDirectory`: none of the 1,000 directories can be created.
    pub fn new(
        alloc: Global,
        os: O,
        base: &Text,
        source: Text,
    ) -> Result<Driver<O>, (DriverFault, O)>
        ensures { MatchResult result
            (λ d. ((calls : List Call) × Chain O.leads os calls d.os
            × CreatesRoot base.now calls (Ok d.root))
            × (d.source ≡ source) × (d.next ≡ 0) × (d.running ≡ idle_state))
            (λ e. (calls : List Call) × Chain O.leads os calls e.1
            × CreatesRoot base.now calls (Err e.0)) }
    {
        let mut os = os;
        match create_driver_root(alloc, &mut os, base) {
            Err(fault) => Err((fault, os)),
            Ok(root) => Ok(Driver {
                os,
                alloc,
                source,
                root,
                next: 0,
                running: RunningChildren::new(alloc),
            }),
        }
    }

    /// Removes the root directory of the driver and returns the system. A failed removal is
    /// ignored.
    pub fn close(self) -> O
        ensures { (done : Bool) × O.leads self.os (RemoveTree self.root done) result }
    {
        let mut os = self.os;
        let _ = os.remove_tree(&self.root);
        os
    }

    /// Starts the child of the job `job` in the role `role`. `attempt` and `paths` are the number
    /// and the paths of its attempt, which a cleanup shares with its body.
    fn start_attempt(&mut self, job: &Job, role: Role, attempt: u64, paths: Paths) -> StartAnswer
        requires fit { IsStartableJob job.now }
        requires free { count_in job.now.position self.old.running ≡ 0 }
        ensures begun { (calls : List Call) × Chain O.leads self.old.os calls self.new.os
            × StartsByPlan (job_spawn_plan self.old.source job.now (case_of job.now role attempt
            paths))
            calls result }
        ensures state { self.new.running ≡ state_after_start self.old.running
            (new_running_child (child_timeout_seconds job.now role) (case_of job.now role attempt paths)) result }
        ensures running { (k : ℕ) (r : Part) → launcher_child_in self.new.running k r
            ≡ running_after_start (launcher_child_in self.old.running) job.now role result k r }
        ensures moment { HasValidTimestamp result }
        ensures next { self.new.next ≡ self.old.next }
        ensures source { self.new.source ≡ self.old.source }
        ensures root { self.new.root ≡ self.old.root }
    {
        let case = CaseAttempt {
            position: job.position,
            attempt,
            role,
            interface: job.interface,
            cleanup: job.cleanup,
            paths,
        };
        let (want, limit) = purpose_and_timeout(job, role);
        let purpose = ChildPurpose {
            want,
            program: &job.program,
            variables: &job.vars,
            case_name: &job.case_name,
            limit,
        };
        match spawn_plan(self.alloc, &self.source, purpose, &case) {
            Err(refusal) => refuse_start(&mut self.os, role, &case.paths.dir, refusal),
            Ok(plan) => self.running.start(&mut self.os, case, &plan),
        }
    }

    /// Starts the body of a job with the next attempt number. The start is refused if no number is
    /// left.
    pub(crate) fn start_body(&mut self, job: &Job) -> StartAnswer
        requires fit { IsStartableJob job.now }
        requires may { MayStart (launcher_child_in self.old.running)
            (is_among self.old.running.pending) job.now.position Role.Body }
        ensures { IsStart O.leads self.old job.now Role.Body result self.new }
    {
        let Some(attempt) = take_attempt_number(&mut self.next) else {
            return StartAnswer::Refused(Refused::Directory);
        };
        match workdir_plan(self.alloc, &self.root, attempt) {
            Err(refusal) => StartAnswer::Refused(memory_refusal(refusal)),
            Ok(paths) => self.start_attempt(job, Role::Body, attempt, paths),
        }
    }

    /// Starts the pending cleanup of a job, with the attempt number and the paths of its body.
    pub(crate) fn start_cleanup(&mut self, job: &Job) -> StartAnswer
        requires fit { IsStartableJob job.now }
        requires may { MayStart (launcher_child_in self.old.running)
            (is_among self.old.running.pending) job.now.position Role.Cleanup }
        ensures { IsStart O.leads self.old job.now Role.Cleanup result self.new }
    {
        let owed = self.running.take_pending_cleanup(job.position);
        self.start_attempt(job, Role::Cleanup, owed.attempt, owed.paths)
    }
}

/// Returns `BASE/kyua.NUMBER`, the path of a root directory of a driver.
pub(crate) fn root_path(alloc: Global, base: &Text, number: u64) -> Result<Text, NoMemory>
    ensures { IfOk result (λ path. path ≡ root_of base.now number) }
{
    numbered_path(alloc, base, "/kyua.", number)
}

/// Creates the root directory of a driver below `base`, and returns its path (this profile).
///
/// The directory is the first of `kyua.0` to `kyua.999` that can be created. An existing directory,
/// such as that of a killed runner, is never used.
///
/// # Errors
///
/// - `NoMemory`: the allocation of a path fails.
/// - `NoWorkDirectory`: none of the 1,000 directories can be created.
fn create_driver_root<O: Os>(alloc: Global, os: &mut O, base: &Text) -> Result<Text, DriverFault>
    ensures { (calls : List Call) × Chain O.leads os.old calls os.new
        × CreatesRoot base.now calls result }
{
    for number in 0..1000 {
        let root = root_path(alloc, base, number)?;
        match os.make_dir(&root) {
            Ok(()) => return Ok(root),
            Err(_fault) => {}
        }
    }
    Err(DriverFault::NoWorkDirectory)
}
