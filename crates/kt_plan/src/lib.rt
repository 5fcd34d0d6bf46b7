//! The steps of a command before a test starts: it reads its settings, selects the test cases and
//! makes their plan.
#![tactic(auto)]

mod cases;
mod options;
mod plan;
mod selection_error;
mod world;

pub use cases::collecting::select_cases;
pub use cases::{Candidate, CaseSelection, CommandSelection};
pub use options::Settings;
pub use plan::planning::prepare_plan;
pub use selection_error::SelectionError;
pub use world::World;
