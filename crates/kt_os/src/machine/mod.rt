//! The files, the clock and the environment of the host.

pub(crate) mod file_fault;
pub(crate) mod host_files;
pub(crate) mod host_path;
pub(crate) mod os_files;
pub(crate) mod process_env;
pub(crate) mod program_search;
