//! The driver: starts children, waits for them and lists test cases.

pub(crate) mod driver;
pub(crate) mod lists;
pub(crate) mod run;
pub(crate) mod running_children;
pub(crate) mod starts;
