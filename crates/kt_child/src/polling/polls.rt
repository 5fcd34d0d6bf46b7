ghost use Rattle.std.specs.Prelude.{◌≡◌, ℕ, ◌+◌, ◌*◌, ◌<◌, ◌≤◌, ◌^◌, [], ◌∷◌, Ok, Bool, Result, if◌then◌else◌, is_ok, List, All, IfSome, length, None};
ghost use Rattle.kt_child.specs.Common.{OsFault, ChildState, Running, Chain, Kill, AreRunningCounts, poll_calls, reaches_timeout, progress_after_poll, counts_after_running, Call, IsRunningChild, PollsAll, PollsUntil, PollsInRounds, children_after_running};

use crate::polling::{ChildProgress, PollCounts, RunningChild};
use kt_base::Outcome;
use kt_os::{Child, ChildState, Os};

/// The number of polls that count as one second of a child's timeout (this profile).
const POLLS_PER_SECOND: u64 = 100;

/// The greatest number of polls of a child after its kill. A child that is still running at the
/// last of them has the outcome `WaitFailed` (this profile).
const REAPING_POLLS: u64 = 500;

/// Polls a child once and returns the child's state.
///
/// Kills the child if the poll fails or the child reaches its timeout. `limit` is the timeout in
/// seconds. `counts` has the poll counts of the child, and is updated while the child is running.
pub(crate) fn poll_once<O: Os>(
    os: &mut O,
    child: Child,
    limit: u64,
    counts: &mut PollCounts,
) -> ChildProgress
    requires in_range { limit ≤ 1000000 }
    requires watched { AreRunningCounts limit counts.old }
    ensures asked { (answer : Result ChildState OsFault) × (done : Bool)
        × Chain O.leads os.old (poll_calls child limit counts.old answer done) os.new
        × (result ≡ progress_after_poll limit counts.old answer done) }
    ensures watched { result ≡ ChildProgress.StillRunning
        → (counts.new ≡ counts_after_running limit counts.old)
        × AreRunningCounts limit counts.new }
{
    match os.poll(child) {
        Err(_) => {
            let _ = os.kill(child);
            ChildProgress::Ended(Outcome::WaitFailed)
        }
        Ok(ChildState::Running) => count_running_poll(os, child, limit, counts),
        // After a kill, any end of the child counts as a timeout.
        Ok(_) if counts.killed => ChildProgress::Ended(Outcome::TimedOut),
        Ok(ChildState::Exited(code)) => ChildProgress::Ended(Outcome::Exited(code)),
        Ok(ChildState::Signaled(signal, core)) => ChildProgress::Ended(Outcome::Signaled(
            signal, core,
        )),
    }
}

/// Adds a poll that reported a child as running to `counts`, and returns the child's new state.
///
/// Kills the child if its timeout is reached. `limit` is the timeout in seconds.
fn count_running_poll<O: Os>(
    os: &mut O,
    child: Child,
    limit: u64,
    counts: &mut PollCounts,
) -> ChildProgress
    requires in_range { limit ≤ 1000000 }
    requires watched { AreRunningCounts limit counts.old }
    ensures asked { (done : Bool)
        × Chain O.leads os.old (if reaches_timeout limit counts.old then Kill child done ∷ [] else []) os.new
        × (result ≡ progress_after_poll limit counts.old (Ok Running) done) }
    ensures watched { result ≡ ChildProgress.StillRunning
        → (counts.new ≡ counts_after_running limit counts.old)
        × AreRunningCounts limit counts.new }
{
    if counts.killed {
        counts.after += 1;
        if counts.after == REAPING_POLLS {
            return ChildProgress::Ended(Outcome::WaitFailed);
        }
        return ChildProgress::StillRunning;
    }
    counts.before += 1;
    if counts.before < POLLS_PER_SECOND * limit {
        return ChildProgress::StillRunning;
    }
    if os.kill(child).is_err() {
        return ChildProgress::Ended(Outcome::WaitFailed);
    }
    counts.killed = true;
    ChildProgress::StillRunning
}

/// A finished child: its index among the running children, and its outcome.
#[derive(Clone, Copy)]
pub(crate) struct FinishedChild {
    /// The index of the child among the running children, counted from 0.
    pub index: usize,
    /// The outcome of the child.
    pub outcome: Outcome,
}

/// Polls each running child once, in order, up to the first that has finished, and returns that
/// child. Returns `None` if all are still running.
fn poll_each_once<O: Os>(os: &mut O, children: &mut [RunningChild]) -> Option<FinishedChild>
    requires { All IsRunningChild children.old }
    ensures none { result ≡ None → (calls : List Call) × Chain O.leads os.old calls os.new
        × PollsAll children.old calls }
    ensures went_on { result ≡ None → children.new
        ≡ children_after_running (length children.old) children.old }
    ensures over { IfSome result (λ over. (calls : List Call) × Chain O.leads os.old calls os.new
        × PollsUntil children.old over.index calls over.outcome) }
    ensures before { IfSome result (λ over. children.new
        ≡ children_after_running over.index children.old) }
    ensures on { All IsRunningChild children.new }
    ensures place { IfSome result (λ over. over.index < length children.old) }
{
    for i in 0..children.len() {
        let watched = &children[i];
        let mut counts = watched.counts;
        match poll_once(os, watched.case.child(), watched.limit, &mut counts) {
            ChildProgress::Ended(outcome) => return Some(FinishedChild { index: i, outcome }),
            ChildProgress::StillRunning => children[i].counts = counts,
        }
    }
    None
}

/// Polls the children in rounds until a child has finished, and returns that child. After each
/// round without a finished child, the system pauses.
pub(crate) fn poll_until_finished<O: Os>(os: &mut O, children: &mut [RunningChild]) -> FinishedChild
    requires some { 0 < length children.old }
    requires on { All IsRunningChild children.old }
    ensures waited { (calls : List Call) × Chain O.leads os.old calls os.new
        × PollsInRounds children.old calls result.index result.outcome children.new }
    ensures on { All IsRunningChild children.new }
    ensures place { result.index < length children.old }
    ensures same { length children.new ≡ length children.old }
{
    'rounds: loop {
        if let Some(over) = poll_each_once(os, children) {
            return over;
        }
        let _ = os.pause();
    }
}
