//! The configuration of the runner and of test suites: the last value of each variable.
#![tactic(auto)]

mod config;
mod fault;
mod meaning;
mod reading;
mod suite_variables;
mod suites;
mod width;
mod words;

pub use config::Config;
pub use fault::ConfigFault;
pub use suite_variables::SuiteVariables;
