ghost use Rattle.std.specs.Prelude.{◌≡◌, IfOk};
ghost use Rattle.kt_metadata.specs.Common.{listing};

use crate::layer::Layer;
use kt_base::{NoMemory, Variables};
use std::marker::Model;

/// The properties of a program with their listing, in memory that the program's cases share.
///
/// In contracts, a `SharedLayer` is the list of the properties' names, each with the text of its
/// last definition. Each name occurs once.
#[derive(Drop)]
pub struct SharedLayer {
    layer: Layer,
    pairs: Variables,
}

impl Model for SharedLayer {
    ghost use Rattle.std.specs.Prelude.{◌≡◌, List};
    ghost use Rattle.kt_base.specs.declared.variable.Variable.{Variable};
    ghost use Rattle.kt_metadata.specs.Listing.{listing};

    ghost Value = { List Variable };

    ghost view = { λ s. s.layer };

    ghost invariant = { λ s. s.pairs ≡ listing s.layer };
}

impl SharedLayer {
    /// Creates a shared layer from `layer` and its listing `pairs`.
    pub fn new(layer: Layer, pairs: Variables) -> SharedLayer
        requires { pairs ≡ listing layer }
        ensures { result ≡ layer }
    {
        SharedLayer { layer, pairs }
    }

    /// Returns the layer, without its listing.
    pub fn layer(&self) -> &Layer
        ensures { result.now ≡ self.now }
    {
        &self.layer
    }

    /// Returns a copy of the layer's listing, which shares the memory of the listing.
    ///
    /// # Errors
    ///
    /// - `NoMemory`: an allocation fails, or the count of copies would overflow.
    pub fn listing(&self) -> Result<Variables, NoMemory>
        ensures { IfOk result (λ pairs. pairs ≡ listing self.now) }
    {
        self.pairs.copy()
    }
}
