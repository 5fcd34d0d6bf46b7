ghost use Rattle.std.specs.Prelude.{◌≡◌, Bool, false, None, Some, IfOk, OnOk, OnErr};
ghost use Rattle.kt_metadata.specs.Properties.{definition_fault, IfFault};
ghost use Rattle.kt_atflist.specs.Blocks.{has_property, empty_case, with_property};

use crate::CaseDef;
use kt_base::Text;
use kt_metadata::{PropFault, Props};
use std::alloc::Global;
use std::marker::Model;

/// A block of a list of test cases: the name of one case, and the properties that the block has set
/// so far.
///
/// In contracts, a `Block` is the `CaseDef` of this case, whose `fault` is `None`.
#[derive(Drop)]
pub struct Block {
    name: Text,
    props: Props,
}

impl Model for Block {
    ghost use Rattle.std.specs.Prelude.{◌≡◌, None};
    ghost use Rattle.kt_base.specs.LastValues.{last_values};
    ghost use Rattle.kt_atflist.specs.declared.listing.CaseDef.{CaseDef};

    ghost Value = { CaseDef };

    ghost view = { λ b. record { name = b.name; props = b.props; fault = None } };

    // Each property is set once.
    ghost invariant = { λ b. b.props ≡ last_values b.props };
}

impl Block {
    /// Creates the block of the case `name` in a list of test cases, without properties.
    ///
    /// Allocates nothing.
    pub fn new(alloc: Global, name: Text) -> Block
        ensures { result ≡ empty_case name }
    {
        Block {
            name,
            props: Props::new(alloc),
        }
    }

    /// Returns `true` if a line of the block has set the property `name`.
    pub fn has_property(&self, name: &Text) -> bool
        ensures { result ≡ has_property self.now.props name.now }
    {
        self.props.get(name).is_some()
    }

    /// Sets the property `name` of the block's case to `value`.
    ///
    /// The caller checks that the property is not set yet.
    ///
    /// # Errors
    ///
    /// The block is unchanged on an error.
    ///
    /// - `UnknownProperty`: no property has the name `name`.
    /// - `BadValue`: the property does not accept `value`.
    /// - `NoMemory`: an allocation fails.
    pub fn set(&mut self, name: &Text, value: &Text) -> Result<(), PropFault>
        requires { has_property self.old.props name.now ≡ false }
        ensures ok { OnOk result (self.new ≡ with_property self.old name.now value.now) }
        ensures err { OnErr result (self.new ≡ self.old) }
        ensures accepted { OnOk result (definition_fault name.now value.now ≡ None) }
        ensures refused { IfFault result (λ fault.
            definition_fault name.now value.now ≡ Some fault) }
    {
        self.props.set(name, value)
    }

    /// Converts the finished block to the test case that it describes.
    pub fn into_case(self) -> CaseDef
        ensures { result ≡ self }
    {
        CaseDef {
            name: self.name,
            props: self.props,
            fault: None,
        }
    }
}
