ghost use Rattle.std.specs.Prelude.{◌≡◌, ◌↔◌, ◌∷◌, ◌++◌, [], List, IfOk, IsTrue, OnOk, OnErr, chars};
ghost use Rattle.kt_metadata.specs.Common.{option_copied, option_map, filter, Variable, last_values, value_of, texts_of, parsed_value, HasParsedValue, custom_pairs, has_value, name_with_value};

use crate::table::is_custom;
use crate::value::PropertyDefinition;
use indexmap::IndexMap;
use kt_base::{NoMemory, Text, Variable, Variables};
use std::alloc::Global;
use std::marker::Model;

/// A map from the names of properties to their last definitions, in the order in which the
/// properties were first defined.
///
/// In contracts, a `Layer` is the list of the names, each with the text of its last definition.
/// Each name occurs once.
#[derive(Drop)]
pub struct Layer {
    given: IndexMap<String, PropertyDefinition>,
}

impl Model for Layer {
    ghost use Rattle.std.specs.Prelude.{List};
    ghost use Rattle.kt_base.specs.declared.variable.Variable.{Variable};
    ghost use Rattle.kt_metadata.specs.Inner.Layers.{pairs_in, AreConsistent};

    ghost Value = { List Variable };

    ghost view = { λ l. pairs_in l.given.entries };

    ghost invariant = { λ l. AreConsistent l.given.entries };
}

impl Layer {
    /// Creates a layer that defines no property.
    ///
    /// Allocates nothing.
    pub fn new(alloc: Global) -> Layer
        ensures { result ≡ [] }
    {
        Layer {
            given: IndexMap::new(alloc),
        }
    }

    /// Returns the allocator with which the layer was created.
    pub fn allocator(&self) -> Global
        // Each name occurs once.
        ensures { self.now ≡ last_values self.now }
    {
        *self.given.allocator()
    }

    /// Returns `true` if the layer defines no property.
    pub fn is_empty(&self) -> bool
        ensures { IsTrue result ↔ (self.now ≡ []) }
    {
        self.given.is_empty()
    }

    /// Returns the definition of the property `name`, or `None` if the layer has no such
    /// definition.
    ///
    /// Takes constant time.
    pub fn get(&self, name: &str) -> Option<&PropertyDefinition>
        ensures text { option_map (λ it. it.text) (option_copied result)
            ≡ value_of (chars name.now) self.now }
        ensures value { option_map (λ it. it.value) (option_copied result)
            ≡ parsed_value (texts_of self.now) (chars name.now) }
    {
        self.given.get(name)
    }

    /// Sets the definition of the property `name` to `given`.
    ///
    /// An earlier definition of the property is replaced in place. Otherwise, `given` is appended.
    ///
    /// # Errors
    ///
    /// - `NoMemory`: an allocation fails. The layer is unchanged.
    pub fn put_definition(&mut self, name: &str, given: PropertyDefinition) -> Result<(), NoMemory>
        requires { HasParsedValue (chars name.now) given }
        ensures ok { OnOk result (self.new
            ≡ last_values (self.old ++ name_with_value (chars name.now) given.text ∷ [])) }
        ensures err { OnErr result (self.new ≡ self.old) }
    {
        let name = String::from_str(self.allocator(), name)?;
        self.given.insert(name, given)?;
        Ok(())
    }

    /// Copies each definition of `more` into the layer, where it replaces an earlier definition of
    /// the same property.
    ///
    /// # Errors
    ///
    /// - `NoMemory`: an allocation fails. Some definitions may have been copied.
    pub fn put_definitions(&mut self, more: &Layer) -> Result<(), NoMemory>
        ensures { OnOk result (self.new ≡ last_values (self.old ++ more.now)) }
    {
        let alloc = self.allocator();
        for (name, given) in more.given.iter() {
            self.put_definition(name.as_str(), given.copy(alloc)?)?;
        }
        Ok(())
    }

    /// Appends the names of the layer's custom properties, with their texts, to `pairs`.
    ///
    /// Properties with empty texts are omitted.
    ///
    /// # Errors
    ///
    /// - `NoMemory`: an allocation fails. Some properties may have been appended.
    pub fn add_custom_properties(&self, pairs: &mut Variables) -> Result<(), NoMemory>
        ensures { OnOk result (pairs.new ≡ pairs.old ++ custom_pairs self.now) }
    {
        let alloc = self.allocator();
        for (name, given) in self.given.iter() {
            add_custom_property(alloc, pairs, name.as_str(), &given.text)?;
        }
        Ok(())
    }
}

/// Appends the pair of `name` and `value` to `pairs`, unless `value` is empty.
///
/// # Errors
///
/// - `NoMemory`: an allocation fails.
pub fn push_if_not_empty(pairs: &mut Variables, name: Text, value: Text) -> Result<(), NoMemory>
    ensures { OnOk result (pairs.new ≡ pairs.old ++ filter has_value (name_with_value name value ∷
        [])) }
{
    if value.is_empty() {
        return Ok(());
    }
    pairs.push(Variable { name, value })
}

/// Appends copies of `name` and `value` as a pair to `pairs`, if `name` is a custom property.
///
/// Appends nothing if `value` is empty.
fn add_custom_property(
    alloc: Global,
    pairs: &mut Variables,
    name: &str,
    value: &Text,
) -> Result<(), NoMemory>
    ensures { OnOk result (pairs.new
        ≡ pairs.old ++ custom_pairs (name_with_value (chars name.now) value.now ∷ [])) }
{
    if !is_custom(name) {
        return Ok(());
    }
    push_if_not_empty(pairs, Text::from_str(alloc, name)?, value.copy()?)
}
