//! Removes directories with all their entries, in short steps.
#![tactic(auto)]

mod bounds;
mod cases;
mod entries;
mod identity;
mod known_files;
mod numbers;
mod removals;
mod state;

pub use numbers::numbered_path;
pub use removals::empty_queue_or_sleep;
pub use state::Removals;
