ghost use Rattle.std.specs.Prelude.{◌≡◌, ◌+◌, ◌<◌, ◌≤◌, length, List, slice_get, Some, remove, OnOk, true};
ghost use Rattle.std.specs.Vec.{vec_len, vec_capacity};
ghost use Rattle.kt_child.specs.declared.planning.CaseAttempt.{CaseAttempt};
ghost use Rattle.kt_child.specs.Driving.Starting.{FailsBeforeStart};
ghost use Rattle.kt_child.specs.declared.polling.RunningChild.{RunningChild};
ghost use Rattle.kt_child.specs.Driving.ChildrenState.{is_among, pending_with};
ghost use Rattle.kt_base.specs.Chains.{Chain};
ghost use Rattle.kt_os.specs.System.Calls.{Call};

use crate::driving::starts::{memory_refusal, new_running_child, start_child};
use crate::ending::ends::{finish_child, is_last_child, remove_dir_if_requested};
use crate::planning::{CaseAttempt, SpawnPlan};
use crate::polling::RunningChild;
use crate::polling::polls::poll_until_finished;
use kt_base::{NoMemory, Refused, Role, Text};
use kt_os::Os;
use kt_sched::{Ended, StartAnswer};
use std::alloc::Global;
use std::marker::Model;

/// A list of the running children, in the order of their start, and a list of the cases with a
/// pending cleanup. The second list has spare capacity for the cases of all running children.
#[derive(Drop)]
pub(crate) struct RunningChildren {
    /// The running children, in the order of their start.
    children: Vec<RunningChild>,
    /// The cases with a pending cleanup.
    pending: Vec<CaseAttempt>,
}

impl Model for RunningChildren {
    ghost use Rattle.std.specs.Prelude.{◌+◌, ◌≤◌};
    ghost use Rattle.std.specs.Vec.{vec_len, vec_capacity};
    ghost use Rattle.kt_child.specs.Inner.Children.{IsChildrenState};
    ghost use Rattle.kt_child.specs.Driving.ChildrenState.{ChildrenState};

    ghost Value = { ChildrenState };

    ghost view = { λ r. record {
      children = r.children.items;
      pending = r.pending.items;
    } };

    ghost invariant = { λ r. IsChildrenState r.children.items r.pending.items
        × (vec_len r.children + vec_len r.pending ≤ vec_capacity r.pending) };
}

/// Reserves capacity for one more child in `children`, and for the cases of all these children in
/// `pending`.
fn ensure_capacity(
    children: &mut Vec<RunningChild>,
    pending: &mut Vec<CaseAttempt>,
) -> Result<(), NoMemory>
    requires room { vec_len children.old + vec_len pending.old ≤ vec_capacity pending.old }
    ensures children { children.new.items ≡ children.old.items }
    ensures pending { pending.new.items ≡ pending.old.items }
    ensures room { vec_len children.new + vec_len pending.new ≤ vec_capacity pending.new }
    ensures child { OnOk result (vec_len children.new < vec_capacity children.new) }
    ensures owed { OnOk result (vec_len children.new + vec_len pending.new
        < vec_capacity pending.new) }
{
    children.reserve(1)?;
    pending.reserve(children.len() + 1)?;
    Ok(())
}

/// Returns the index in `cases` of the case with the position `position` in the plan. The caller
/// guarantees that there is such a case.
fn find_case_index(cases: &[CaseAttempt], position: u32) -> usize
    requires { is_among cases.now position ≡ true }
    ensures within { result < length cases.now }
    ensures position { (c : CaseAttempt) → slice_get cases.now result ≡ Some c
        → c.position ≡ position }
{
    let mut place = 0;
    while cases[place].position != position {
        place += 1;
    }
    place
}

/// Removes the child at the index `place` from `children`. Appends its case to `pending` if a
/// cleanup follows.
fn remove_finished_child(
    children: &mut Vec<RunningChild>,
    pending: &mut Vec<CaseAttempt>,
    place: usize,
)
    requires child { place < vec_len children.old }
    requires room { vec_len children.old + vec_len pending.old ≤ vec_capacity pending.old }
    ensures children { children.new.items ≡ remove children.old.items place }
    ensures pending { (k : RunningChild) → slice_get children.old.items place ≡ Some k
        → pending.new.items ≡ pending_with k.case pending.old.items }
    ensures room { vec_len children.new + vec_len pending.new ≤ vec_capacity pending.new }
{
    let RunningChild { case, .. } = children.remove(place);
    if is_last_child(&case) {
        return;
    }
    pending.push_reserved(case);
}

/// Refuses the start of a child, because an allocation failed with `refusal`. `role` is the role of
/// the child.
///
/// For a cleanup, also removes `dir`, the directory of the attempt, since a cleanup is not started
/// again.
pub(crate) fn refuse_start<O: Os>(
    os: &mut O,
    role: Role,
    dir: &Text,
    refusal: NoMemory,
) -> StartAnswer
    ensures refused { result ≡ StartAnswer.Refused Refused.Memory }
    ensures asked { (calls : List Call) × Chain O.leads os.old calls os.new
        × FailsBeforeStart role dir.now calls result }
{
    remove_dir_if_requested(os, role == Role::Cleanup, dir);
    StartAnswer::Refused(memory_refusal(refusal))
}

impl RunningChildren {
    ghost use Rattle.std.specs.Prelude.{◌≡◌, ◌==◌, ℕ, ◌<◌, List, length, slice_get, remove, Some, true, false, if◌then◌else◌};
    ghost use Rattle.kt_child.specs.Common.{IsEvidence, running_after_end, pending_after_end, IsMoment, HasValidTimestamp, Chain, Call, IsRunningChild, count_in, WaitsForEnd, idle_state, is_among, launcher_child_in, StartsByPlan, state_after_start, new_running_child, with_pending, driver_state_of};
    ghost use Rattle.kt_sched.specs.Children.{Child as Shown};

    /// Creates an empty list of running children and an empty list of pending cleanups. Allocates
    /// nothing.
    pub(crate) fn new(alloc: Global) -> RunningChildren
        ensures { result ≡ idle_state }
    {
        RunningChildren {
            children: Vec::new(alloc),
            pending: Vec::new(alloc),
        }
    }

    /// Removes the case with the position `position` from the pending cleanups, and returns the
    /// case. There must be such a case.
    pub(crate) fn take_pending_cleanup(&mut self, position: u32) -> CaseAttempt
        requires { is_among self.old.pending position ≡ true }
        ensures taken { (place : ℕ) × (slice_get self.old.pending place ≡ Some result)
            × (self.new ≡ with_pending self.old (remove self.old.pending place)) }
        ensures position { result.position ≡ position }
        ensures free { count_in position self.new ≡ 0 }
        ensures children { self.new.children ≡ self.old.children }
        ensures pending { (k : ℕ) → is_among self.new.pending k
            ≡ (if k == position then false else is_among self.old.pending k) }
    {
        let place = find_case_index(&self.pending, position);
        self.pending.remove(place)
    }

    /// Starts a child of the case `case`: a body in a new directory, or a cleanup in the directory
    /// of its body. `plan` has the values for the start. A child that was started is added to the
    /// running children.
    pub(crate) fn start<O: Os>(
        &mut self,
        os: &mut O,
        case: CaseAttempt,
        plan: &SpawnPlan,
    ) -> StartAnswer
        requires on { IsRunningChild (new_running_child plan.now.limit case) }
        requires free { count_in case.position self.old ≡ 0 }
        ensures begun { (calls : List Call) × Chain O.leads os.old calls os.new
            × StartsByPlan plan.now calls result }
        ensures moment { HasValidTimestamp result }
        ensures state { self.new
            ≡ state_after_start self.old (new_running_child plan.now.limit case) result }
    {
        if let Err(refusal) = ensure_capacity(&mut self.children, &mut self.pending) {
            return refuse_start(os, plan.child.role, &plan.dir, refusal);
        }
        match start_child(os, plan) {
            StartAnswer::Refused(cause) => StartAnswer::Refused(cause),
            StartAnswer::Started(moment) => {
                self.children
                    .push_reserved(new_running_child(plan.limit, case));
                StartAnswer::Started(moment)
            }
        }
    }

    /// Polls the running children until one of them has finished, and removes it from the list.
    /// Returns its outcome, evidence and outputs.
    pub(crate) fn wait<O: Os>(&mut self, alloc: Global, os: &mut O) -> Ended
        requires { 0 < length self.old.children }
        ensures waited { (calls : List Call) × Chain O.leads os.old calls os.new
            × ((next : ℕ) → WaitsForEnd self.old.children (driver_state_of self.old next) calls
            result
            self.new.children (driver_state_of self.new next)) }
        ensures moment { IsMoment result.moment }
        ensures one_that_ran { (s : Shown) × (launcher_child_in self.old result.position result.role
            ≡ Some s) × IsEvidence s.interface result.role result.evidence }
        ensures running { (k : ℕ) (r : Role) → launcher_child_in self.new k r
            ≡ running_after_end (launcher_child_in self.old) result k r }
        ensures pending { (k : ℕ) → is_among self.new.pending k
            ≡ pending_after_end (launcher_child_in self.old) (is_among self.old.pending) result k }
    {
        let first = poll_until_finished(os, &mut self.children);
        let ended = finish_child(alloc, os, &self.children[first.index].case, first.outcome);
        remove_finished_child(&mut self.children, &mut self.pending, first.index);
        ended
    }
}
