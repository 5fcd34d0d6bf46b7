/// A rule on the number of filters that a command accepts as arguments.
#[derive(Clone, Copy)]
pub enum FilterRule {
    /// Any number of filters, for `list` and `test`. Without a filter, every case is selected.
    AnyFilters,
    /// Exactly one filter, which names a test case, for `debug`.
    OneCase,
}
