/// A kind of access to a results file: to add a run, or to read runs.
///
/// With both kinds, a missing file is created, and the older tables of schema 1 are migrated to
/// schema 2. Commits in the log are copied into the file.
#[derive(Clone, Copy)]
pub enum Access {
    /// Access to add a run.
    Record,
    /// Access to read recorded runs, without adding a run.
    Read,
}

impl Access {
    /// Returns the maximum number of pages of the results file that are cached in memory.
    ///
    /// With a page size of 1,024 bytes, 1,100 pages can contain an output of 1 MiB. A reader needs
    /// fewer pages, since most pages are read once.
    pub fn max_cached_pages(self) -> usize {
        match self {
            Access::Record => 1_100,
            Access::Read => 64,
        }
    }
}
