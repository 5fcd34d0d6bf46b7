//! The results store: test runs in the tables of an SQLite database.
#![tactic(auto)]

mod access;
pub mod attach;
mod batch;
mod crashes;
mod entries;
pub mod heads;
pub mod lookup;
pub mod outlines;
pub mod put;
mod result_store;
mod results;
pub mod run_rows;
mod statements;
pub mod store_fault;
pub mod value;

pub use access::Access;
pub use crashes::theorem_of_crashes;
pub use outlines::empty_output;
pub use result_store::{CaseOutputs, ResultStore, RunHead, StoreSpec};
pub use results::Results;
pub use store_fault::{AllocationFailure, DatabaseFailure, StoreFault};
