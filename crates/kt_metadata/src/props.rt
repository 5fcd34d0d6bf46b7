ghost use Rattle.std.specs.Prelude.{◌≡◌, [], ◌∷◌, ◌++◌, chars, List, None, Some, IfOk, OnOk, OnErr, map};
ghost use Rattle.kt_metadata.specs.Common.{option_copied, option_map, Variable, last_values, value_of, texts_of, parsed_value, program_layer, name_with_value, definition_fault, IfFault, row_in, custom_pairs, property_pairs, property_text, listing};

use crate::PropFault;
use crate::layer::{Layer, push_if_not_empty};
use crate::shared_layer::SharedLayer;
use crate::table::{PROPERTY_TABLE, PropertyRow, parse_property_value};
use crate::value::{PropertyDefinition, Value};
use kt_base::{NoMemory, Text, Variables};
use std::alloc::Global;
use std::marker::Model;
use std::rc::Rc;

/// A set of properties of a test program or a test case, with their values.
///
/// In contracts, a `Props` is the list of the properties' names, each with the text to which the
/// property was last set. The order is that in which the properties were first set.
///
/// If the properties of a program come from [`Props::to_shared`], the properties of its cases share
/// their memory ([`Props::overlay`]).
pub struct Props {
    program: Option<Rc<SharedLayer>>,
    own: Layer,
}

/// A manual impl instead of `#[derive(Drop)]`, so that the prover handles each drop as one call.
impl Drop for Props {
    fn drop(self) {
        let Props { program, own } = self;
        drop(program);
        drop(own);
    }
}

impl Model for Props {
    ghost use Rattle.std.specs.Prelude.{List, ◌++◌};
    ghost use Rattle.kt_base.specs.declared.variable.Variable.{Variable};
    ghost use Rattle.kt_base.specs.LastValues.{last_values};
    ghost use Rattle.kt_metadata.specs.Inner.Layers.{program_layer};

    ghost Value = { List Variable };

    ghost view = { λ p. last_values (program_layer p.program ++ p.own) };
}

/// Clones the reference to the layer `program`, or returns `Ok(None)` if `program` is `None`.
fn program_layer(program: &Option<Rc<SharedLayer>>) -> Result<Option<Rc<SharedLayer>>, NoMemory>
    ensures { IfOk result (λ layer. program_layer layer ≡ program_layer program.now) }
{
    match program {
        None => Ok(None),
        Some(layer) => Ok(Some(layer.clone()?)),
    }
}

impl Props {
    /// Creates an empty set of properties.
    ///
    /// Allocates nothing.
    pub fn new(alloc: Global) -> Props
        ensures { result ≡ [] }
    {
        Props {
            program: None,
            own: Layer::new(alloc),
        }
    }

    /// Returns the allocator with which the properties were created.
    pub(crate) fn allocator(&self) -> Global
        // Each name has one value.
        ensures { self.now ≡ last_values self.now }
    {
        self.own.allocator()
    }

    /// Returns the last definition of the property `name`, or `None` if the property isn't set.
    ///
    /// A definition of the case takes precedence over a definition of its program.
    pub(crate) fn find_definition(&self, name: &str) -> Option<&PropertyDefinition>
        ensures text { option_map (λ it. it.text) (option_copied result)
            ≡ texts_of self.now (chars name.now) }
        ensures value { option_map (λ it. it.value) (option_copied result)
            ≡ parsed_value (texts_of self.now) (chars name.now) }
    {
        match self.own.get(name) {
            Some(given) => Some(given),
            None => match &self.program {
                Some(program) => program.layer().get(name),
                None => None,
            },
        }
    }

    /// Returns the text to which the property `key` was last set, or `None` if it isn't set.
    ///
    /// Allocates nothing.
    pub fn get(&self, key: &Text) -> Option<&Text>
        ensures value { (definitions : List Variable) → self.now ≡ last_values definitions
            → option_copied result ≡ value_of key.now definitions }

        // Each name has one value.
        ensures once { self.now ≡ last_values self.now }
    {
        // No effect: the prover needs this use to see the fields of `self`.
        let _ = &self.own;
        match self.find_definition(key.as_str()) {
            Some(given) => Some(&given.text),
            None => None,
        }
    }

    /// Returns the parsed value of the property `name`, or `None` if the property isn't set.
    pub(crate) fn parsed_value(&self, name: &str) -> Option<&Value>
        ensures { option_copied result ≡ parsed_value (texts_of self.now) (chars name.now) }
    {
        match self.find_definition(name) {
            Some(given) => Some(&given.value),
            None => None,
        }
    }

    /// Sets the property `key` to `text`, in place of an earlier value.
    ///
    /// On failure, the properties are unchanged.
    ///
    /// # Errors
    ///
    /// - `UnknownProperty`: no property has the name `key`.
    /// - `BadValue`: a property has the name `key`, but `text` isn't a value of the property
    ///   (kyuafile(5)).
    /// - `NoMemory`: an allocation fails.
    pub fn set(&mut self, key: &Text, text: &Text) -> Result<(), PropFault>
        ensures ok { (definitions : List Variable) → self.old ≡ last_values definitions
            → OnOk result (self.new ≡ last_values (definitions ++ name_with_value key.now text.now
            ∷ [])) }
        ensures err { OnErr result (self.new ≡ self.old) }
        ensures accepted { OnOk result (definition_fault key.now text.now ≡ None) }
        ensures refused { IfFault result (λ fault. definition_fault key.now text.now ≡ Some fault) }
    {
        let alloc = self.allocator();
        let value = parse_property_value(alloc, key, text)?;
        let text = text.copy()?;
        self.own
            .put_definition(key.as_str(), PropertyDefinition { text, value })?;
        Ok(())
    }

    /// Copies each property into `layer`, where it replaces an earlier value of the property.
    fn copy_into(&self, layer: &mut Layer) -> Result<(), NoMemory>
        ensures { OnOk result (layer.new ≡ last_values (layer.old ++ self.now)) }
    {
        match &self.program {
            None => layer.put_definitions(&self.own),
            Some(program) => {
                layer.put_definitions(program.layer())?;
                layer.put_definitions(&self.own)
            }
        }
    }

    /// Creates one layer with copies of the properties of the program and of the case.
    ///
    /// A definition of the case takes precedence over a definition of its program.
    ///
    /// # Errors
    ///
    /// - `NoMemory`: an allocation fails.
    pub(crate) fn merge_layers(&self) -> Result<Layer, NoMemory>
        ensures { IfOk result (λ layer. layer ≡ self.now) }
    {
        let mut layer = Layer::new(self.allocator());
        self.copy_into(&mut layer)?;
        Ok(layer)
    }

    /// Creates the listing of the properties, such that copies of the listing share its memory.
    fn create_shared_listing(&self) -> Result<Variables, NoMemory>
        ensures { IfOk result (λ pairs. pairs ≡ listing self.now) }
    {
        let pairs = self.create_listing()?;
        pairs.into_shared()
    }

    /// Creates a shared layer with copies of all properties and with their listing.
    fn shared_layer(&self) -> Result<SharedLayer, NoMemory>
        ensures { IfOk result (λ layer. layer ≡ self.now) }
    {
        let layer = self.merge_layers()?;
        let pairs = self.create_shared_listing()?;
        Ok(SharedLayer::new(layer, pairs))
    }

    /// Copies the properties into memory that the properties of several test cases can share.
    ///
    /// [`Props::overlay`] over the copy doesn't copy these properties again. The call also computes
    /// the listing of the properties. If an overlay adds no property, [`Props::listing`] shares the
    /// memory of this listing.
    ///
    /// # Errors
    ///
    /// - `NoMemory`: an allocation fails.
    pub fn to_shared(&self) -> Result<Props, NoMemory>
        ensures { IfOk result (λ props. props ≡ self.now) }
    {
        let alloc = self.allocator();
        let program = Rc::new(alloc, self.shared_layer()?)?;
        Ok(Props {
            program: Some(program),
            own: Layer::new(alloc),
        })
    }

    /// Creates the properties of a test case: those of `program`, overlaid with those of `case`.
    ///
    /// A value in `case` replaces the value of the same property in `program`.
    ///
    /// # Errors
    ///
    /// - `NoMemory`: an allocation fails.
    pub fn overlay(program: &Props, case: &Props) -> Result<Props, NoMemory>
        ensures overlaid { (under : List Variable) → (over : List Variable)
            → program.now ≡ last_values under → case.now ≡ last_values over
            → IfOk result (λ props. props ≡ last_values (under ++ over)) }
        ensures value { IfOk result (λ props. props ≡ last_values (program.now ++ case.now)) }
    {
        let mut own = Layer::new(program.allocator());
        own.put_definitions(&program.own)?;
        case.copy_into(&mut own)?;
        Ok(Props {
            program: program_layer(&program.program)?,
            own,
        })
    }
}

impl Props {
    /// Returns the text that a listing of the properties has for the property in the table row
    /// `row`.
    ///
    /// The text represents the value of the property, or its default value if the property isn't
    /// set.
    fn listing_text(&self, row: &PropertyRow) -> Result<Text, NoMemory>
        ensures { IfOk result (λ text. text ≡ property_text (texts_of self.now) (row_in row.now)) }
    {
        let alloc = self.allocator();
        match self.find_definition(row.0) {
            Some(given) => given.value.listing_text(alloc, given.text.as_str()),
            None => row.2.default_value(alloc).listing_text(alloc, ""),
        }
    }

    /// Appends the name and the text of each property in `rows` to `pairs`.
    ///
    /// `rows` are rows of `PROPERTY_TABLE`. The text represents the value of the property, or its
    /// default value if the property isn't set. A property with an empty text is omitted.
    fn add_table_properties(
        &self,
        pairs: &mut Variables,
        rows: &[PropertyRow],
    ) -> Result<(), NoMemory>
        ensures { OnOk result (pairs.new
            ≡ pairs.old ++ property_pairs (texts_of self.now) (map row_in rows.now)) }
    {
        for row in rows {
            let name = Text::from_str(self.allocator(), row.0)?;
            push_if_not_empty(pairs, name, self.listing_text(row)?)?;
        }
        Ok(())
    }

    /// Appends the names of the custom properties, with their texts, to `pairs`.
    ///
    /// Properties with empty texts are omitted.
    fn add_custom_properties(&self, pairs: &mut Variables) -> Result<(), NoMemory>
        ensures { OnOk result (pairs.new ≡ pairs.old ++ custom_pairs self.now) }
    {
        let all = self.merge_layers()?;
        all.add_custom_properties(pairs)
    }

    /// Creates a listing of the properties: names with the texts of their effective values.
    ///
    /// The listing is in newly allocated memory.
    fn create_listing(&self) -> Result<Variables, NoMemory>
        ensures { IfOk result (λ pairs. pairs ≡ listing self.now) }
    {
        let mut pairs = Variables::new(self.allocator());
        self.add_table_properties(&mut pairs, &PROPERTY_TABLE)?;
        self.add_custom_properties(&mut pairs)?;
        Ok(pairs)
    }

    /// Returns a listing of the properties: names with the texts of their effective values.
    ///
    /// The properties with fixed names come first, in alphabetical order. The custom properties
    /// follow in the order of their first definitions. The elements of a list are joined by one
    /// space, and numbers are decimal. A property with an empty text is omitted.
    ///
    /// If these properties are an overlay that adds no property to a result of
    /// [`Props::to_shared`], the listings of both share their memory.
    ///
    /// # Errors
    ///
    /// - `NoMemory`: an allocation fails.
    pub fn listing(&self) -> Result<Variables, NoMemory>
        ensures value { IfOk result (λ pairs. pairs ≡ listing self.now) }
        ensures defined { (definitions : List Variable) → self.now ≡ last_values definitions
            → IfOk result (λ pairs. pairs ≡ listing definitions) }
    {
        match &self.program {
            Some(program) if self.own.is_empty() => program.listing(),
            _ => self.create_listing(),
        }
    }
}
