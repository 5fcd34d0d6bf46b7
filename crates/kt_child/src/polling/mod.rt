//! Polls of the running children, in rounds.

pub(crate) mod polls;

use crate::planning::CaseAttempt;
use kt_base::Outcome;

/// A pair of counts of the polls that reported a child as running: before and after its kill. The
/// driver measures a timeout in polls, 100 for each second.
#[derive(Clone, Copy)]
pub(crate) struct PollCounts {
    /// The number of polls that reported the child as running before a kill.
    pub before: u64,
    /// `true` if the driver has killed the child.
    pub killed: bool,
    /// The number of polls that reported the child as running after the kill.
    pub after: u64,
}

/// A running child with its case, its timeout and the counts of its polls.
#[derive(Drop)]
pub(crate) struct RunningChild {
    /// The attempt of the child, with the data of its case.
    pub case: CaseAttempt,
    /// The timeout of the child, in seconds, from 1 to 1,000,000.
    pub limit: u64,
    /// The numbers of polls that reported the child as running, before and after its kill.
    pub counts: PollCounts,
}

/// A state of a child after a poll.
#[derive(Clone, Copy)]
pub(crate) enum ChildProgress {
    /// The child is still running.
    StillRunning,
    /// The child has finished, with this outcome.
    Ended(Outcome),
}
