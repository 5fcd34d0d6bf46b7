//! Trees of Kyuafiles, and the test programs that they register.
#![tactic(auto)]

mod call;
mod cause;
mod disjoint;
mod fault;
mod filter;
mod kyuafile;
mod loader;
mod meaning;
mod paths;
mod program;
mod registry;
mod selecting;
mod statement;
mod stepping;
mod table;
mod tree;
mod within;

pub use cause::SuiteCause;
pub use disjoint::{check_disjoint, theorem_of_overlaps};
pub use fault::SuiteFault;
pub use filter::{Filter, FilterFault};
pub use kyuafile::Kyuafile;
pub use loader::{load, theorem_of_reloading};
pub use paths::parent_path;
pub use program::Program;
pub use selecting::{Item, SelectFault, Selection, select};
pub use tree::{ReadFault, Tree};
