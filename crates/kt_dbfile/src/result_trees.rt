use std::alloc::Global;

/// The B-trees of a results file, with the allocator for the rows that are read and written.
///
/// The methods are in the modules of their tasks. In contracts, the field `store` is the state of
/// the trees.
#[derive(Drop)]
pub(crate) struct ResultTrees<S> {
    /// The store of the B-trees.
    pub(crate) store: S,
    /// The allocator of rows, keys and results.
    pub(crate) alloc: Global,
}
