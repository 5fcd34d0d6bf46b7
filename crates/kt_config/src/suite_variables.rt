ghost use Rattle.std.specs.Prelude.{◌≡◌, [], ◌∷◌, ◌++◌, List, is_some, IfOk, OnOk, OnErr};
ghost use Rattle.kt_config.specs.Common.{option_copied, Variable, value_of, last_values, variable_in, variables_in, HasUniqueNames};

use crate::words::into_key;
use indexmap::IndexMap;
use kt_base::{NoMemory, Text, Variable, Variables};
use std::alloc::Global;
use std::marker::Model;

/// A map from the names of a test suite's variables to their last values.
///
/// The variables are in the order of their first definitions, not of hashes. In contracts, a
/// `SuiteVariables` is the list of its variables, with each name once.
#[derive(Drop)]
pub struct SuiteVariables {
    /// The last value of each variable, by the name of the variable.
    values: IndexMap<String, Text>,
}

impl Model for SuiteVariables {
    ghost Value = { List Variable };

    ghost view = { λ v. variables_in v.values.entries };

    ghost invariant = { λ v. HasUniqueNames (variables_in v.values.entries) };
}

impl SuiteVariables {
    /// Creates a map without variables. Allocates nothing.
    pub(crate) fn new(alloc: Global) -> SuiteVariables
        ensures { result ≡ [] }
    {
        SuiteVariables {
            values: IndexMap::new(alloc),
        }
    }

    /// Appends `variable` to the map, or replaces the value of the variable with the same name.
    ///
    /// # Errors
    ///
    /// - `NoMemory`: an allocation fails. The variables are unchanged.
    pub(crate) fn put_variable(&mut self, variable: Variable) -> Result<(), NoMemory>
        ensures ok { OnOk result (self.new ≡ last_values (self.old ++ variable ∷ [])) }
        ensures err { OnErr result (self.new ≡ self.old) }
    {
        let Variable { name, value } = variable;
        self.values.insert(into_key(name), value)?;
        Ok(())
    }

    /// Returns the value of the variable `name`, or `None` if the suite does not have the variable.
    ///
    /// Takes constant time and allocates nothing.
    pub fn get(&self, name: &Text) -> Option<&Text>
        ensures { option_copied result ≡ value_of name.now self.now }
    {
        self.values.get(name.as_str())
    }

    /// Returns `true` if the suite has the variable `name`. Takes constant time.
    pub fn has_variable(&self, name: &Text) -> bool
        ensures { result ≡ is_some (value_of name.now self.now) }
    {
        self.get(name).is_some()
    }

    /// Copies the variables into a new list, in the order of their first definitions.
    ///
    /// # Errors
    ///
    /// - `NoMemory`: an allocation fails.
    pub fn copy(&self) -> Result<Variables, NoMemory>
        ensures { IfOk result (λ variables. variables ≡ self.now) }
    {
        let mut variables = Variables::new(*self.values.allocator());
        let mut rest = self.values.as_slice();
        while let Some(((name, value), after)) = rest.split_first() {
            variables.push(copy_entry(name, value)?)?;
            rest = after;
        }
        Ok(variables)
    }
}

/// Creates a variable from copies of the name `name` and the value `value`.
fn copy_entry(name: &String, value: &Text) -> Result<Variable, NoMemory>
    ensures { IfOk result (λ variable. variable ≡ variable_in (name.now, value.now)) }
{
    let name = Text::from_string(name.clone()?);
    let value = value.copy()?;
    Ok(Variable { name, value })
}
