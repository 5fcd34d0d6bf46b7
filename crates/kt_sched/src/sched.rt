use crate::entries::take_entry;
use crate::progress::{
    active_after_event, pending_and_ready_cases, stage_after_end, stage_after_start,
    turn_after_start,
};
use crate::setup::{create_cases, turn_order};
use crate::stage::{Case, Stage};
use crate::{Answer, Ended, Job, Next, StartAnswer};
use kt_base::{Entry, Items, NoMemory, Role};
use std::alloc::Global;
use std::marker::Model;
use std::mem;

/// A scheduler of a plan, which selects each next step of a run. Its state represents the plan, the
/// width and the responses so far.
#[derive(Drop)]
pub struct Sched {
    /// The allocator for empty texts and outputs.
    alloc: Global,
    /// The cases of the plan, by position.
    cases: Vec<Case>,
    /// The positions of all cases in turn order: exclusive cases come after all others.
    order: Vec<u32>,
    /// The index in `order` of the next case: its body is to be started or, if its verdict is
    /// decided, its entry is to be put. It is the length of `order` if no such case is left.
    turn: usize,
    /// The number of active cases, at most `width`. A case is active from the start of its body
    /// until it is over.
    active: u32,
    /// The greatest number of active cases, 1 to 256.
    width: u32,
    /// The position of the case whose cleanup is to be started next, if any.
    pending: Option<u32>,
    /// The position of the case whose entry is to be put next, if any.
    ready: Option<u32>,
    /// The step that `next` returned last, if its response was not recorded yet, else `Done`.
    asked: Next,
    /// `true` if the put of an entry into the sink failed.
    failed: bool,
}

impl Model for Sched {
    ghost use Rattle.kt_sched.specs.SchedState.{SchedState, IsReachable};

    ghost Value = { SchedState };

    ghost view = { λ s. record {
      cases = s.cases.items;
      order = s.order.items;
      turn = s.turn;
      active
          = s.active;
      width = s.width;
      pending = s.pending;
      ready = s.ready;
      asked = s.asked;
      failed =
          s.failed;
    } };

    ghost invariant = { λ s. IsReachable (record {
      cases = s.cases.items;
      order = s.order.items;
      turn
          = s.turn;
      active = s.active;
      width = s.width;
      pending = s.pending;
      ready = s.ready;
      asked =
          s.asked;
      failed = s.failed;
    }) };
}

impl Sched {
    ghost use Rattle.std.specs.Prelude.{◌≡◌, ℕ, length, ◌^◌, Some, slice_get, IfOk, ◌<◌, ◌+◌, true, false};
    ghost use Rattle.kt_sched.specs.Common.{Next, Start, End, Case, Role, IsPlan, IsWidth, responses_after_put, responses_after, no_responses, IsNext, HasStepFacts, IsEntryOf, IsChosen, IsStartableCase, stage_runs, HoldsForEachRun, SchedState, RepresentsRun, IsAnswer, IsSettled, HasRecord, IsNotTaken, RecordsEvent, changes_left, ReducesChangesLeft};

    /// Creates a scheduler that selects the steps of a run of `plan`, from the first step on.
    ///
    /// `width` is the greatest number of active cases, 1 to 256.
    ///
    /// # Errors
    ///
    /// - `NoMemory`: an allocation fails.
    pub fn new(alloc: Global, plan: Items<Job>, width: u32) -> Result<Sched, NoMemory>
        requires plan { IsPlan plan }
        requires width { IsWidth width }
        ensures stands { IfOk result (λ s. RepresentsRun plan width no_responses s) }
        ensures asked { IfOk result (λ s. s.asked ≡ Next.Done) }
        ensures room { IfOk result (λ s. length plan < 2 ^ 64) }
    {
        let jobs = plan.into_vec();
        let order = turn_order(alloc, &jobs)?;
        let cases = create_cases(alloc, jobs)?;
        Ok(Sched {
            alloc,
            cases,
            order,
            turn: 0,
            active: 0,
            width,
            pending: None,
            ready: None,
            asked: Next::Done,
            failed: false,
        })
    }

    /// Returns the job at `position` in the plan.
    ///
    /// The entry of the job's case must not have been moved out by `take` before.
    pub fn job(&self, position: u32) -> &Job
        requires { IsNotTaken self.now.cases position }
        ensures { HoldsForEachRun self.now (λ plan _ _. slice_get plan position ≡ Some result.now) }
    {
        &self.cases[position as usize].job
    }

    /// Returns the entry of the case at `position`, moved out of the scheduler.
    ///
    /// The step that `next` returned last must be the put of this entry. The entry must not have
    /// been moved out before.
    pub fn take(&mut self, position: u32) -> Entry
        requires asked { self.old.asked ≡ Next.Put position }
        requires has_record { HasRecord self.old.cases position }
        ensures less { changes_left self.new.cases < changes_left self.old.cases }
        ensures asked { self.new.asked ≡ Next.Put position }
        ensures stands { HoldsForEachRun self.old (λ plan n fed. RepresentsRun plan n fed self.new) }
        ensures entry { HoldsForEachRun self.old (λ plan _ fed. IsEntryOf plan fed.trace position
            result) }
    {
        let taken = take_entry(self.alloc, &mut self.cases, position);
        taken
    }

    /// Records `answer`, the response to the step that `next` returned last.
    ///
    /// The response must fit this step. The method is for callers that keep responses as values,
    /// and has the effect of `record_start`, `record_end` or `record_put`.
    pub fn feed(&mut self, answer: Answer)
        requires { IsAnswer self.old answer }
        ensures works { ReducesChangesLeft self.old.asked (changes_left self.old.cases) (changes_left self.new.cases) }
        ensures asked { self.new.asked ≡ Next.Done }
        ensures stands { HoldsForEachRun self.old
            (λ plan n fed. RepresentsRun plan n (responses_after fed self.old.asked answer)
            self.new) }
    {
        match (self.asked, answer) {
            (Next::Start(i, role), Answer::Started(moment)) => {
                self.record_start(i, role, StartAnswer::Started(moment));
            }
            (Next::Start(i, role), Answer::Refused(cause)) => {
                self.record_start(i, role, StartAnswer::Refused(cause));
            }
            (Next::Wait, Answer::Ended(ended)) => self.record_end(ended),
            (Next::Put(i), Answer::Stored) => self.record_put(i, false),
            (Next::Put(i), Answer::StoreFailed) => self.record_put(i, true),
            _ => unreachable!(),
        }
    }

    /// Records `answer`, the launcher's response to the start of the body or cleanup of case `i`,
    /// as `role` selects.
    ///
    /// `next` must have returned this start last.
    pub(crate) fn record_start(&mut self, i: u32, role: Role, answer: StartAnswer)
        requires { self.old.asked ≡ Next.Start i role }
        ensures { RecordsEvent self.old (Start i role answer) self.new }
    {
        let case = &mut self.cases[i as usize];
        let was = mem::replace(&mut case.stage, Stage::Taken);
        case.stage = stage_after_start(self.alloc, was, role, answer);
        self.turn = turn_after_start(self.turn, self.order.len(), role);
        self.active = active_after_event(
            self.active,
            self.width,
            role == Role::Cleanup,
            &case.stage,
        );
        (self.pending, self.ready) = pending_and_ready_cases(&case.stage, self.failed, i);
        self.asked = Next::Done;
    }

    /// Records `ended`, the end of a running child, after `next` returned a wait.
    pub(crate) fn record_end(&mut self, ended: Ended)
        requires asked { self.old.asked ≡ Next.Wait }
        requires runs { (c : Case) × (slice_get self.old.cases ended.position ≡ Some c)
            × (stage_runs ended.role c.stage ≡ true) }
        ensures { RecordsEvent self.old (End ended) self.new }
    {
        let i = ended.position;
        let case = &mut self.cases[i as usize];
        let was = mem::replace(&mut case.stage, Stage::Taken);
        case.stage = stage_after_end(self.alloc, was, case.job.cleanup, ended);
        self.active = active_after_event(self.active, self.width, true, &case.stage);
        (self.pending, self.ready) = pending_and_ready_cases(&case.stage, self.failed, i);
        self.asked = Next::Done;
    }

    /// Returns the next step of the run, or `Done` if no step is left.
    ///
    /// If several steps are possible, a put comes first. Then come the start of a cleanup, the
    /// start of a body and a wait, in this order.
    pub fn next(&mut self) -> Next
        ensures next { HoldsForEachRun self.old (λ plan n fed. IsNext plan n fed result) }
        ensures only { HoldsForEachRun self.old
            (λ plan n fed. (other : Next) → IsNext plan n fed other → other ≡ result) }
        ensures follows { HoldsForEachRun self.old (λ plan n fed. HasStepFacts plan n fed result) }
        ensures stands { HoldsForEachRun self.old (λ plan n fed. RepresentsRun plan n fed self.new) }
        ensures same { changes_left self.new.cases ≡ changes_left self.old.cases }
        ensures asked { self.new.asked ≡ result }
        ensures lends { (i : ℕ) (role : Role) → result ≡ Next.Start i role
            → IsNotTaken self.new.cases i }
        ensures has_record { self.old.asked ≡ Next.Done → (i : ℕ) → result ≡ Next.Put i
            → HasRecord self.new.cases i }
    {
        self.mark_decided_ready();
        let next = self.choose_step();
        self.asked = next;
        next
    }

    /// Makes the entry of the next case ready to be put, if the verdict of the case was decided
    /// before the run.
    ///
    /// The next case is that at the index `turn` of `order`.
    ///
    /// Does nothing if a put failed, another case is ready, or the next case is not decided. Also
    /// does nothing if the next case must wait for active cases (`startable_case`), or no case is
    /// left.
    fn mark_decided_ready(&mut self)
        ensures stands { HoldsForEachRun self.old (λ plan n fed. RepresentsRun plan n fed self.new) }
        ensures same { self.new.cases ≡ self.old.cases }
        ensures settled { IsSettled self.new }
        ensures has_record { self.old.asked ≡ Next.Done → (i : ℕ) → self.new.ready ≡ Some i
            → HasRecord self.new.cases i }
    {
        let None = self.ready else {
            return;
        };
        let Some(i) = self.startable_case() else {
            return;
        };
        let Stage::Decided = &self.cases[i as usize].stage else {
            return;
        };
        self.turn += 1;
        self.ready = Some(i);
        self.asked = Next::Done;
    }

    /// Returns the next step of the run, and does not record it.
    ///
    /// The first of these steps that is possible is returned: the put of the ready case, the start
    /// of the pending cleanup, the start of the next body, a wait. If none is possible, `Done` is
    /// returned.
    fn choose_step(&self) -> Next
        ensures { IsChosen self.now result }
    {
        if let Some(i) = self.ready {
            Next::Put(i)
        } else if let Some(i) = self.pending {
            Next::Start(i, Role::Cleanup)
        } else if let Some(i) = self.startable_case() {
            Next::Start(i, Role::Body)
        } else if self.active > 0 {
            Next::Wait
        } else {
            Next::Done
        }
    }

    /// Returns the position of the next case in turn order (exclusive cases come last). Returns
    /// `None` if no case is left, or if this case may not start now.
    ///
    /// No case may start after a failed put, or if `width` cases are active. An exclusive case may
    /// start only if no case is active. A case is active until its cleanup is over.
    ///
    /// If the next case is not exclusive, no exclusive case is active, because exclusive cases come
    /// last.
    fn startable_case(&self) -> Option<u32>
        ensures { IsStartableCase self.now result }
    {
        if self.failed || self.turn >= self.order.len() || self.active >= self.width {
            return None;
        }
        let i = self.order[self.turn];
        if self.active == 0 {
            Some(i)
        } else if self.cases[i as usize].job.exclusive {
            None
        } else {
            Some(i)
        }
    }

    /// Records the response to the put of the entry of case `i`, where `failed` is `true` if the
    /// put failed.
    ///
    /// `next` must have returned this put last. After a failed put, nothing is put and no body is
    /// started.
    pub(crate) fn record_put(&mut self, i: u32, failed: bool)
        requires { self.old.asked ≡ Next.Put i }
        ensures same { self.new.cases ≡ self.old.cases }
        ensures asked { self.new.asked ≡ Next.Done }
        ensures stands { HoldsForEachRun self.old
            (λ plan n fed. RepresentsRun plan n (responses_after_put fed failed) self.new) }
    {
        self.ready = None;
        self.failed = failed;
        self.asked = Next::Done;
    }
}
