use crate::Job;
use kt_base::{Output, Verdict};

/// A stage of a case during a run.
#[derive(Drop)]
pub enum Stage {
    /// The body was not started yet, and is to be started in turn order: exclusive cases come last.
    Waiting,
    /// The verdict was decided before the run. The entry is to be recorded when the case comes next
    /// in turn order (exclusive cases come last).
    Decided,
    /// The body runs. It was started at this timestamp, in milliseconds since 1970 in UTC.
    Running(u64),
    /// The body ended, with this data, and the declared cleanup of the case is to be started.
    PendingCleanup(EndedBody),
    /// The cleanup runs. The body ended with this data.
    Cleaning(EndedBody),
    /// The case is over, with this result, and its entry is to be recorded.
    Finished(CaseRecord),
    /// The entry of the case was moved out to be put into the sink, or a function is replacing the
    /// stage.
    Taken,
}

/// A result of a case that is over: the entry of the case, without the data of its job.
#[derive(Drop)]
pub struct CaseRecord {
    /// The verdict on the case.
    pub verdict: Verdict,
    /// The timestamp of the body's start, in milliseconds since 1970 in UTC, or 0 if the body was
    /// not started.
    pub started: u64,
    /// The duration of the case in milliseconds. It is 0 if the body was not started, or if the
    /// clock was set back.
    pub millis: u64,
    /// The output of the body.
    pub body: Output,
    /// The output of the cleanup, which is empty if no cleanup was started.
    pub cleanup: Output,
}

/// A body that ended before its case is over: its timestamps, verdict and output.
#[derive(Drop)]
pub struct EndedBody {
    /// The timestamp of the body's start, in milliseconds since 1970 in UTC.
    pub started: u64,
    /// The timestamp of the body's end, in milliseconds since 1970 in UTC.
    pub ended: u64,
    /// The verdict on the case by its body alone. The cleanup can change it.
    pub verdict: Verdict,
    /// The output of the body.
    pub output: Output,
}

/// A test case during a run: its job, and the stage that the case has reached.
#[derive(Drop)]
pub struct Case {
    /// The job of the case. Once the entry was moved out, the program path, the case name and the
    /// properties are empty, and `decided` is `None`.
    pub job: Job,
    /// The stage that the case has reached in the run.
    pub stage: Stage,
}
