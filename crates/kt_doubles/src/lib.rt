//! Test doubles of a launcher, a system, a sink and a store, and the examples that need them.
#![tactic(auto)]

mod children;
mod endless_reader;
mod entry_copies;
mod example_store;
mod failing_calls;
mod filters;
mod folds;
mod mem_runs;
mod memory_sink;
mod plans;
mod scene;
mod scene_reading;
mod schedules;
mod scripted_launcher;
mod scripted_system;
mod store_calls;
mod systems;

pub use example_store::{ExampleStore, SplitReadStore};
pub use failing_calls::FailingCalls;
use kt_examples::{Example, ExampleOutput, Result};
pub use mem_runs::MemRuns;
pub use scene::{Scene, fail_allocation};
pub use scene_reading::{parse_scene, provoke_no_memory, provoke_store_error};
pub use scripted_system::ScriptedSystem;
pub use store_calls::{push_call, push_runs, state_text};
pub use systems::push_calls;

/// Executes `example`, and appends its output to `out`.
///
/// `subject` is the name of the example's file without `.rows`, such as `filters`.
///
/// # Errors
///
/// - `InvalidExample`: neither this crate nor kt_examples has such a subject, or `example` doesn't
///   have the format of its subject.
/// - `NoMemory`: an allocation failed. A failed append to `out` is returned by
///   `ExampleOutput::into_string` instead.
pub fn push_example_output(
    out: &mut ExampleOutput,
    subject: &str,
    example: &Example<'_>,
) -> Result<()> {
    match subject {
        "filters" => filters::push_output(out, example),
        "schedules" => schedules::push_output(out, example),
        "systems" => systems::push_output(out, example),
        _ => kt_examples::push_example_output(out, subject, example),
    }
}
