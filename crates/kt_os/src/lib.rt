//! The host's processes, files, clocks and environment, with the traits by which they are called.
#![tactic(auto)]

mod host;
mod machine;
mod system;

pub use host::background::Background;
pub use host::file_start::read_up_to;
pub use host::host_os::HostOs;
pub use host::reads::read_and_peek;
pub use machine::file_fault::FileFault;
pub use machine::host_files::HostFiles;
pub use machine::host_path::{MAX_PATH_BYTES, join_path};
pub use machine::os_files::OsFiles;
pub use machine::process_env::ProcessEnv;
pub use machine::program_search::is_program_found;
pub use system::moments::moment;
pub use system::os::Os;
pub use system::{Child, ChildState, EnvPlan, FileRead, OsFault};
