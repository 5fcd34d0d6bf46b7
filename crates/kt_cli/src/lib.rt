//! The commands of kyua(1): over any world, results store and writer, and over the host.
#![tactic(auto)]

mod commands;
mod host;
mod messages;
mod no_store;
mod output;

pub use commands::execution::{execute, execute_all, theorem_of_sound_stores};
pub use host::command_line::run_process_args;
pub use host::host_execution::absolute_directory;
pub use host::host_handles::HostHandles;
pub use host::host_world::HostWorld;
pub use host::performing::run_command;
pub use host::results_host::ResultsHost;
pub use messages::{print_command_fault, print_driver_fault, print_store_fault};
pub use output::exit::Exit;
pub use output::line_output::LineOutput;
pub use output::nonblocking_output::NonblockingOutput;
pub use output::nonblocking_writer::NonblockingWriter;
pub use output::shared_output::SharedOutput;
pub use output::standard_output::StandardOutput;
