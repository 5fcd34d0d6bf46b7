use crate::Ended;
use kt_base::{Refused, Role};

/// A step that the scheduler requests from its caller. Positions are those in the plan, from 0.
#[derive(Clone, Copy)]
pub enum Next {
    /// Start the body or the cleanup of the case at this position.
    Start(u32, Role),
    /// Wait for the end of a child.
    Wait,
    /// Put the entry of the case at this position into the sink.
    Put(u32),
    /// Finish the run: no step is left.
    Done,
}

/// A response to the step that [`Sched::next`] returned.
#[derive(Drop)]
pub enum Answer {
    /// The launcher started the child at this timestamp, in milliseconds since 1970 in UTC.
    Started(u64),
    /// The launcher did not start the child, for this cause.
    Refused(Refused),
    /// A child ended.
    Ended(Ended),
    /// The sink recorded the entry.
    Stored,
    /// The sink failed to record the entry.
    StoreFailed,
}
