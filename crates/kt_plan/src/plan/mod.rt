//! The plan of the selected cases, and the properties of the host that it depends on.

pub(crate) mod looking;
pub(crate) mod planning;
pub(crate) mod shared_variables;
