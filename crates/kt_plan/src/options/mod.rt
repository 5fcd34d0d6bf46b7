//! The settings of a command that selects test cases: its configuration and its filters.

pub(crate) mod case_filters;
pub(crate) mod configuring;

use kt_base::Items;
use kt_config::Config;
use kt_suite::Filter;

/// The settings of a command that selects test cases: its configuration and its filters.
#[derive(Drop)]
pub struct Settings {
    /// The configuration, from the configuration file and the arguments of `-v`.
    pub config: Config,
    /// The filters in the order of their arguments. No two filters can match the same case.
    pub filters: Items<Filter>,
}
