use kt_store::StoreFault;

/// Errors returned by `read_run`.
#[derive(Clone, Copy)]
pub enum ReportError {
    /// The store has no runs.
    NoRuns,
    /// The store has runs, but none with this number.
    NoRun(u64),
    /// A call of the store failed with this fault.
    Refused(StoreFault),
}
