//! The properties of test programs and cases, and the checks of the requirements that they state.
#![tactic(auto)]

mod fault;
mod form;
mod host;
mod layer;
mod list_keys;
mod meta;
mod props;
mod reasons;
mod requirements;
mod shared_layer;
mod table;
mod value;
mod values;

pub use fault::PropFault;
pub use host::{Host, Need};
pub use list_keys::property_name_of_key;
pub use meta::Meta;
pub use props::Props;
pub use requirements::unmet;
pub use table::is_kyuafile_property;
pub use value::RequiredUser;
pub use values::theorem_of_unique_elements;
