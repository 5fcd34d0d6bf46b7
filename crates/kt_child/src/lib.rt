//! The driver of child processes: the calls that it makes to the system, and the outcomes that it
//! derives from their results.
#![tactic(auto)]

mod driving;
mod ending;
mod planning;
mod polling;

pub use driving::driver::{Driver, DriverFault};
pub use driving::run::{run_driver, theorem_of_names, theorem_of_numbers, theorem_of_traces};
pub use kt_os::{Background, Child, ChildState, EnvPlan, FileRead, HostOs, Os, OsFault};
pub use planning::Want;
pub use planning::environment::env_plan;
pub use planning::words::argv_plan;
pub use planning::workdir::{Paths, workdir_plan};
