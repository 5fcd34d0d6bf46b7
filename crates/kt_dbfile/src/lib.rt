//! The results file: opening it, and reading and writing its trees.
#![tactic(auto)]

mod edits;
mod ends;
mod files;
mod layout;
mod mounts;
mod new_file;
mod opening;
mod reopening;
mod result_trees;
mod rules;
mod runs_file;
mod seeks;
mod tables;
mod trees;
mod trusted_contents;

pub use files::FailedOpenWitness;
pub use reopening::theorem_of_reopening;
pub use runs_file::RunsFile;
pub use trusted_contents::TrustedContents;
