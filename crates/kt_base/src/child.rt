/// An interface by which a test program reports its results, see kyuafile(5).
#[derive(Clone, Copy)]
pub enum Interface {
    /// ATF: result files and lists of cases, see atf-test-program(1).
    Atf,
    /// The Test Anything Protocol (TAP), on standard output.
    Tap,
    /// A plain program: only the outcome of its process, such as the exit status, decides the
    /// verdict.
    Plain,
}

/// A role of a child process: it runs the body or the cleanup of a test case.
#[derive(Clone, Copy, PartialEq, Eq, Hash)]
pub enum Role {
    /// The body, which performs the test.
    Body,
    /// The cleanup, which an ATF case can declare, see atf-test-case(4).
    Cleanup,
}

/// An outcome of a child process: how the process ended.
#[derive(Clone, Copy, Debug)]
pub enum Outcome {
    /// The process exited by itself, with this exit status.
    Exited(u8),
    /// The signal with this number killed the process. The flag is `true` if the process left a
    /// core dump.
    Signaled(u8, bool),
    /// The process reached its time limit, and the runner killed it.
    TimedOut,
    /// The wait for the process failed, so its exit status is unknown.
    WaitFailed,
}
