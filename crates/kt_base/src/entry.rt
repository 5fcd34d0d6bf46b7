use crate::{Bytes, Items, Text, Variables, Verdict};

/// The latest timestamp that can be recorded, in milliseconds since 1970 in UTC: the last
/// millisecond of the year 9999. The earliest timestamp is 0.
pub const LATEST_MOMENT_MILLIS: u64 = 253_402_300_799_999;

/// The recorded output of a child process.
#[derive(Drop)]
pub struct Output {
    /// The recorded bytes of the child's standard output, at most 1,048,576.
    pub out: Bytes,
    /// The recorded bytes of the child's standard error, at most 1,048,576.
    pub err: Bytes,
}

/// The recorded result of one test case in a run.
pub struct Entry {
    /// The position of the case among the selected cases, counted from 0.
    pub position: u32,
    /// The path of the test program, relative to the directory of the root Kyuafile.
    pub program: Text,
    /// The name of the test case in its program.
    pub case_name: Text,
    /// The verdict on the case: its kind and its reason.
    pub verdict: Verdict,
    /// The start time of the body, in milliseconds since 1970 in UTC.
    ///
    /// The time is 0 if the body was not started. It is also 0 if the clock failed at the start of
    /// the body, or reported a time after the year 9999.
    pub started: u64,
    /// The time from the start of the body to the end of the case, in milliseconds.
    ///
    /// The time is 0 if the body was not started, or if the clock failed at the end or reported an
    /// earlier time. If the clock failed at the start only, the time is counted from 1970.
    pub millis: u64,
    /// The output of the body. Both streams are empty if the body was not started.
    pub body: Output,
    /// The output of the cleanup. Both streams are empty if no cleanup was started.
    pub cleanup: Output,
    /// The metadata of the case: the names and values of its properties, such as `timeout`.
    pub meta: Variables,
}

/// A manual impl instead of `#[derive(Drop)]`, so that the prover handles each drop as one call.
impl Drop for Entry {
    fn drop(self) {
        let Entry {
            position: _,
            program: _,
            case_name: _,
            verdict: _,
            started: _,
            millis: _,
            body: _,
            cleanup: _,
            meta: _,
        } = self;
    }
}

/// A run of `kyua test`, with the entries recorded so far.
#[derive(Drop)]
pub struct Run {
    /// The number of the run, counted from 1.
    pub number: u64,
    /// The start time of the run, in milliseconds since 1970 in UTC.
    ///
    /// The time is 0 if the clock failed, or reported a time after the year 9999.
    pub started: u64,
    /// The number of test cases that were selected for the run.
    pub total: u32,
    /// `true` if the run is finished: each selected case has an entry.
    pub finished: bool,
    /// The recorded entries, ordered by position.
    pub entries: Items<Entry>,
}
