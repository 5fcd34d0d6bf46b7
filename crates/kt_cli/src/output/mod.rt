//! The buffered output of a command, and its exit status.

pub(crate) mod backlog;
pub(crate) mod exit;
pub(crate) mod fixed_buffer;
pub(crate) mod flushing;
pub(crate) mod line_output;
pub(crate) mod nonblocking_output;
pub(crate) mod nonblocking_writer;
pub(crate) mod shared_output;
pub(crate) mod spool;
pub(crate) mod standard_output;
