//! Runs the cases of a plan: the scheduler selects each next step, and a loop executes it.
#![tactic(auto)]

mod case_records;
mod count;
mod entries;
mod job;
mod launcher;
mod next;
mod progress;
mod run;
mod run_fault;
mod sched;
mod setup;
mod sink;
mod stage;
mod totals;

pub use job::{Ended, Job, MAX_TIMEOUT_SECONDS, MAX_WIDTH, StartAnswer};
pub use launcher::Launcher;
pub use next::{Answer, Next};
pub use run::run_cases;
pub use run_fault::RunFault;
pub use sched::Sched;
pub use sink::{Sink, SinkFault};
pub use totals::Totals;
