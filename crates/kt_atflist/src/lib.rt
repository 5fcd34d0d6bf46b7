//! The test cases of a program, and the list of test cases that an ATF program prints.
#![tactic(auto)]

mod block;
mod list_fault;
mod list_line;
mod listed_cases;
mod listing;
mod names;
mod program_cases;
mod reader;
mod reading;
mod steps;

pub use list_fault::{ListCause, ListFault};
pub use listing::{CaseDef, ListBytes, Listing};
pub use program_cases::{cases, theorem_of_one_case_list};
pub use reader::parse_list;
