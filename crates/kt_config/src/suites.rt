ghost use Rattle.std.specs.Prelude.{◌≡◌, [], List, map, OnOk, OnErr};
ghost use Rattle.kt_config.specs.Common.{option_copied, SetsSuiteVariable, suite_in, SuiteValues, variables_of};

use crate::SuiteVariables;
use crate::words::into_key;
use indexmap::IndexMap;
use kt_base::{NoMemory, Text, Variable};
use std::alloc::Global;
use std::marker::Model;

/// A map from the names of test suites to the variables of these suites.
///
/// The suites are in the order in which a variable of each suite is first defined. In contracts, a
/// `Suites` is the list of the suites, each with its name and its variables.
#[derive(Drop)]
pub struct Suites {
    /// The variables of each suite, by the name of the suite.
    groups: IndexMap<String, SuiteVariables>,
}

impl Model for Suites {
    ghost Value = { List SuiteValues };

    ghost view = { λ s. map suite_in s.groups.entries };
}

impl Suites {
    /// Creates a map without suites. Allocates nothing.
    pub fn new(alloc: Global) -> Suites
        ensures { result ≡ [] }
    {
        Suites {
            groups: IndexMap::new(alloc),
        }
    }

    /// Returns the variables of the test suite `suite`, or `None` if the suite has no variables.
    pub fn get(&self, suite: &Text) -> Option<&SuiteVariables>
        ensures { option_copied result ≡ variables_of suite.now self.now }
    {
        self.groups.get(suite.as_str())
    }

    /// Sets `variable` for the test suite `suite`, and replaces an earlier value of the variable.
    ///
    /// A suite that is not in the map is appended to it.
    ///
    /// # Errors
    ///
    /// - `NoMemory`: an allocation fails. The suites are unchanged.
    pub fn put_variable(&mut self, suite: Text, variable: Variable) -> Result<(), NoMemory>
        ensures ok { OnOk result (SetsSuiteVariable suite variable self.old self.new) }
        ensures err { OnErr result (self.new ≡ self.old) }
    {
        if let Some(variables) = self.groups.get_mut(suite.as_str()) {
            variables.put_variable(variable)?;
            return Ok(());
        }
        let mut variables = SuiteVariables::new(*self.groups.allocator());
        variables.put_variable(variable)?;
        self.groups.insert(into_key(suite), variables)?;
        Ok(())
    }
}
