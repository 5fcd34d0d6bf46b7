//! Computes the verdict on a case from its evidence and its outcome.
#![tactic(auto)]

mod atf;
mod cleanup;
mod cleanup_end;
mod tap;
mod verdict;

pub use cleanup::with_cleanup;
pub use cleanup_end::CleanupEnd;
pub use verdict::{body_verdict, refused_verdict};
