use std::alloc::Global;

/// A set of handles with which a command accesses the host.
#[derive(Drop)]
pub struct HostHandles<M: Drop, O: Drop> {
    /// The allocator of the memory that the command uses.
    pub alloc: Global,
    /// The files and the clock that the command reads.
    pub machine: M,
    /// The system that runs test programs.
    pub os: O,
}
