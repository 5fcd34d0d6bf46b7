//! The commands over the host: its files, its results files, and the environment of the process.

pub(crate) mod command_line;
pub(crate) mod host_execution;
pub(crate) mod host_handles;
pub(crate) mod host_world;
pub(crate) mod performing;
pub(crate) mod results_host;
