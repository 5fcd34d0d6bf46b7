use crate::identity::DirIdentity;
use kt_base::Text;

/// A queue of the directories below a root directory that are removed in short steps.
///
/// A subdirectory with entries is moved into the queue directory, where its name is a number: `0`,
/// `1` and so on. The directory of a case that takes too long to empty is moved, too. The
/// directories of the queue are emptied in the order of their numbers. Each path stays short in
/// this way, even for deeply nested directories.
///
/// If the root was removed or replaced by another directory, nothing is removed. If the queue
/// directory was removed or replaced, no directory is moved into it, and its entries are left. The
/// removal of the root then fails if a directory with entries is at the path of the queue
/// directory.
#[derive(Drop)]
pub struct Removals {
    /// The path of the root directory, below which directories are removed.
    pub root: Text,
    /// The path of the queue directory, which is an entry of the root.
    pub queue_dir: Text,
    /// The identity of the root directory when the queue was created.
    pub(crate) root_identity: DirIdentity,
    /// The identity of the queue directory when it was created.
    pub(crate) queue_identity: DirIdentity,
    /// The number that the next directory gets when it is moved into the queue. The first number is
    /// 0.
    pub(crate) next_number: u64,
    /// The number of the directory in the queue that is emptied next, or `moved` if the queue is
    /// empty.
    pub(crate) current_number: u64,
    /// The numbers that no directory in the queue has, because the move to them failed.
    pub(crate) gaps: Vec<u64>,
    /// `true` if an entry of the directory that is being emptied was removed or moved.
    pub(crate) progress: bool,
}
