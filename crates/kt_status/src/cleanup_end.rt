use kt_base::Outcome;

/// A result of the cleanup that a test case declares: a failed start, or an outcome.
#[derive(Clone, Copy)]
pub enum CleanupEnd {
    /// The cleanup could not be started.
    Refused,
    /// The cleanup was started, and ended with this outcome.
    Ended(Outcome),
}
