use kt_base::{Interface, Outcome, Output, Refused, Role, Text, Variables, Verdict};
use kt_claim::Evidence;

/// The greatest width of a run (this profile). The width is the greatest number of cases that may
/// be active at once: started, and not over.
pub const MAX_WIDTH: u32 = 256;

/// The greatest timeout of a case, in seconds (this profile).
pub const MAX_TIMEOUT_SECONDS: u32 = 1_000_000;

/// A job of the scheduler: one test case of a plan.
pub struct Job {
    /// The position of the job in the plan, from 0.
    pub position: u32,
    /// The interface of the test program.
    pub interface: Interface,
    /// The path of the test program, relative to the directory of the root Kyuafile.
    pub program: Text,
    /// The name of the test case, such as `main` for a plain program.
    pub case_name: Text,
    /// The configuration variables of the case's test suite, as names with values.
    pub vars: Variables,
    /// The timeout of the case's body, in seconds, 1 to 1,000,000.
    pub timeout: u32,
    /// `true` if no other case may be active at the same time (`is_exclusive` of kyuafile(5)).
    pub exclusive: bool,
    /// `true` if the case declares a cleanup (`has.cleanup` of atf-test-case(4)).
    pub cleanup: bool,
    /// The verdict of a case that must not be started, because a requirement is not met or its
    /// program failed to list its cases. `None` if the case is to be started.
    pub decided: Option<Verdict>,
    /// The properties that the case or its program declares, as names with values. The entry of the
    /// case contains them, too.
    pub meta: Variables,
}

/// A manual impl instead of `#[derive(Drop)]`, so that the prover handles each drop as one call.
impl Drop for Job {
    fn drop(self) {
        let Job {
            position: _,
            interface: _,
            program: _,
            case_name: _,
            vars: _,
            timeout: _,
            exclusive: _,
            cleanup: _,
            decided: _,
            meta: _,
        } = self;
    }
}

/// A response of a launcher to the request to start a child.
#[derive(Clone, Copy)]
pub enum StartAnswer {
    /// The launcher started the child at this timestamp, in milliseconds since 1970 in UTC.
    Started(u64),
    /// The launcher did not start the child, for this cause.
    Refused(Refused),
}

/// An end of a child that a launcher started.
#[derive(Drop)]
pub struct Ended {
    /// The position of the child's case in the plan.
    pub position: u32,
    /// The role of the child: body or cleanup.
    pub role: Role,
    /// The outcome of the child, such as its exit status.
    pub outcome: Outcome,
    /// The evidence by which the body is judged: the claim of its result file, the summary of its
    /// TAP output, or `Plain`, as its interface selects. For a cleanup, it is `Plain`, and is not
    /// used.
    pub evidence: Evidence,
    /// The standard output and the standard error of the child.
    pub output: Output,
    /// The timestamp of the child's end, in milliseconds since 1970 in UTC.
    pub moment: u64,
}
