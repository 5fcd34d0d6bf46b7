ghost use Rattle.std.specs.Prelude.{◌≡◌};

/// A set of counts of the entries that were put into a sink: all, good and bad.
#[derive(Clone, Copy)]
pub struct Totals {
    /// The number of all entries that were put into the sink.
    pub total: u64,
    /// The number of entries whose verdict is passed, skipped or expected_failure.
    pub good: u64,
    /// The number of entries whose verdict is failed or broken.
    pub bad: u64,
}

impl Totals {
    /// Creates totals that are all 0.
    pub(crate) fn new() -> Totals
        ensures { result ≡ record { total = 0; good = 0; bad = 0 } }
    {
        Totals {
            total: 0,
            good: 0,
            bad: 0,
        }
    }
}
