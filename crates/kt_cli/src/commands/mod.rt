//! The commands, over any world, results store and writer.

pub(crate) mod debugging;
pub(crate) mod execution;
pub(crate) mod listing;
pub(crate) mod recorder;
pub(crate) mod report_error;
pub(crate) mod reporting;
pub(crate) mod stored_details;
pub(crate) mod testing;
