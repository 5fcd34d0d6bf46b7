ghost use Rattle.std.specs.Prelude.{◌≡◌, ℕ, None, false};
ghost use Rattle.kt_base.specs.declared.child.Role.{Role};
ghost use Rattle.kt_sched.specs.Children.{IsEvidence, IsIdle};
ghost use Rattle.kt_doubles.specs.Children.{running_child_at, is_cleanup_pending};

use crate::children::{
    ChildSlot, ChildSlots, MAX_POSITIONS, create_free_slots, running_child, set_slot,
};
use crate::plans::is_start_refused;
use kt_base::{Bytes, Interface, LATEST_MOMENT_MILLIS, Outcome, Output, Refused, Role};
use kt_claim::{Claim, Evidence, Tap};
use kt_examples::ExampleOutput;
use kt_sched::{Ended, Job, Launcher, StartAnswer};
use std::alloc::Global;

/// A `Launcher` that starts no process, and whose children end in a scripted order with exit status
/// 0. Starts at positions from 2,048 on fail.
#[derive(Drop)]
pub struct ScriptedLauncher<'a> {
    /// The letters of the plan, which select the starts that fail.
    pub letters: &'a [u8],
    /// The positions of the cases whose children end, in the order of their ends. At a position
    /// without a child, and after the last position, the first running child ends.
    pub ends: &'a [u64],
    /// The timestamps that the calls return, in milliseconds since 1970 in UTC. The last timestamp
    /// is repeated.
    pub moments: &'a [u64],
    /// The calls of the launcher so far, one per line: `start 1`, `start cleanup 1`, `end 1`.
    pub log: ExampleOutput,
    /// The states of the plan's cases, by position.
    pub slots: ChildSlots,
}

/// Returns the evidence of a child in `role` that passed: that of `interface` for a body, and
/// `Plain` for a cleanup.
fn passing_evidence(interface: Interface, role: Role) -> Evidence
    ensures { IsEvidence interface role result }
{
    match role {
        Role::Cleanup => Evidence::Plain,
        Role::Body => match interface {
            Interface::Atf => Evidence::Atf(Claim::Passed),
            Interface::Tap => Evidence::Tap(Tap::Counted(0, 1)),
            Interface::Plain => Evidence::Plain,
        },
    }
}

/// Returns the first timestamp of `moments`, and removes it unless it is the last. Returns 0
/// without timestamps.
fn next_moment(moments: &mut &[u64]) -> u64 {
    match moments.split_first() {
        None => 0,
        Some((first, rest)) => {
            if !rest.is_empty() {
                *moments = rest;
            }
            *first
        }
    }
}

/// Removes and returns the first position of `ends`, whose child ends next. Returns `MAX_POSITIONS`
/// if no position remains, or if the position exceeds 2^32 - 1.
fn next_end(ends: &mut &[u64]) -> u32 {
    match ends.split_first() {
        None => MAX_POSITIONS,
        Some((first, rest)) => {
            *ends = rest;
            u32::try_from(*first).unwrap_or(MAX_POSITIONS)
        }
    }
}

/// Appends a line for a call to `log`: `name`, and the role `role` and the position `position` of
/// the child.
fn log_call(log: &mut ExampleOutput, name: &str, position: u32, role: Role) {
    let role = match role {
        Role::Body => "",
        Role::Cleanup => "cleanup ",
    };
    write!(log, "{name} {role}{position}\n");
}

impl<'a> ScriptedLauncher<'a> {
    /// Creates a launcher without running children and pending cleanups. `letters`, `ends` and
    /// `moments` are the values of the fields with these names.
    #[tactic(auto, using(crate::proofs::FreeSlots::idle))]
    pub fn new(
        alloc: Global,
        letters: &'a [u8],
        ends: &'a [u64],
        moments: &'a [u64],
    ) -> ScriptedLauncher<'a>
        ensures { IsIdle (running_child_at result.slots) (is_cleanup_pending result.slots) }
    {
        ScriptedLauncher {
            letters,
            ends,
            moments,
            log: ExampleOutput::new(alloc),
            slots: create_free_slots(),
        }
    }
}

impl Launcher for ScriptedLauncher<'_> {
    ghost running = { λ s. running_child_at s.slots };

    ghost pending = { λ s. is_cleanup_pending s.slots };

    ghost starts = { λ s job role a t. Unit {0} };

    ghost waits = { λ s e t. Unit {0} };

    fn start(&mut self, job: &Job, role: Role) -> StartAnswer {
        let moment = next_moment(&mut self.moments);
        log_call(&mut self.log, "start", job.position, role);
        if job.position >= MAX_POSITIONS {
            return StartAnswer::Refused(Refused::Spawn);
        }
        if is_start_refused(self.letters, job.position, role) {
            set_slot(&mut self.slots, job.position, ChildSlot::Free);
            return StartAnswer::Refused(Refused::Output);
        }
        let slot = match role {
            Role::Body => ChildSlot::BodyRunning(job.interface, job.cleanup),
            Role::Cleanup => ChildSlot::CleanupRunning(job.interface, job.cleanup),
        };
        set_slot(&mut self.slots, job.position, slot);
        StartAnswer::Started(moment.min(LATEST_MOMENT_MILLIS))
    }

    fn wait(&mut self) -> Ended {
        let next = next_end(&mut self.ends);
        let (position, (role, interface, cleanup)) = running_child(&self.slots, next);
        log_call(&mut self.log, "end", position, role);
        let moment = next_moment(&mut self.moments);
        let left = match role {
            Role::Body if cleanup => ChildSlot::CleanupPending,
            _ => ChildSlot::Free,
        };
        set_slot(&mut self.slots, position, left);
        Ended {
            position,
            role,
            outcome: Outcome::Exited(0),
            evidence: passing_evidence(interface, role),
            output: Output {
                out: Bytes::new(self.log.alloc),
                err: Bytes::new(self.log.alloc),
            },
            moment: moment.min(LATEST_MOMENT_MILLIS),
        }
    }
}
