ghost use Rattle.std.specs.Prelude.{◌≡◌, ◌≤◌, [], OnOk, OnErr, Ok, Err, unwrap_or, codes, chars};
ghost use Rattle.kt_config.specs.Common.{option_copied, Definition, ConfigFault, largest_width, definition_named, Values, variables_of, HasValuesSetBy, Adds, IfFault, AddsDefinition};

use crate::meaning::{Definition, definition_of};
use crate::suites::Suites;
use crate::width::Width;
use crate::{ConfigFault, SuiteVariables};
use kt_base::{NoMemory, Text};
use std::alloc::Global;
use std::marker::Model;

/// A configuration: the variables of the runner and of test suites (kyua.conf(5)).
///
/// Each variable has the value of its last definition. In contracts, a `Config` is the record of
/// these values. `HasValuesSetBy` relates the values to the definitions.
pub struct Config {
    alloc: Global,
    /// The last value of the variable `architecture`, which is not empty, or `None` if the variable
    /// is not defined.
    architecture: Option<Text>,
    /// The last value of the variable `platform`, which is not empty, or `None` if the variable is
    /// not defined.
    platform: Option<Text>,
    /// The maximum number of test cases that run at the same time, 1 to 256.
    parallelism: Width,
    /// The variables of each test suite that has variables.
    suites: Suites,
}

/// A manual impl instead of `#[derive(Drop)]`, so that the prover handles each drop as one call.
impl Drop for Config {
    fn drop(self) {
        let Config {
            alloc: _,
            architecture: _,
            platform: _,
            parallelism: _,
            suites: _,
        } = self;
    }
}

impl Model for Config {
    ghost Value = { Values };

    ghost view = { λ c. record {
      architecture = c.architecture;
      platform = c.platform;
      parallelism = c.parallelism;
      suites = c.suites;
    } };
}

impl Config {
    /// Creates a configuration without definitions. Allocates nothing.
    pub fn new(alloc: Global) -> Config
        ensures { HasValuesSetBy result [] }
    {
        Config {
            alloc,
            architecture: None,
            platform: None,
            parallelism: Width::one(),
            suites: Suites::new(alloc),
        }
    }

    /// Sets the variable that `definition` defines to its new value, which replaces an earlier
    /// value.
    ///
    /// A definition of `unprivileged_user` has no effect.
    ///
    /// # Errors
    ///
    /// - `NoMemory`: an allocation fails. The configuration is unchanged.
    pub(crate) fn define(&mut self, definition: Definition) -> Result<(), NoMemory>
        ensures ok { OnOk result (Adds definition self.old self.new) }
        ensures err { OnErr result (self.new ≡ self.old) }
    {
        match definition {
            Definition::Architecture(value) => {
                self.architecture = Some(value);
                Ok(())
            }
            Definition::Platform(value) => {
                self.platform = Some(value);
                Ok(())
            }
            Definition::Parallelism(width) => {
                self.parallelism = width;
                Ok(())
            }
            Definition::UnprivilegedUser => Ok(()),
            Definition::SuiteVariable(suite, variable) => self.suites.put_variable(suite, variable),
        }
    }

    /// Returns the variables of the test suite `suite`, or `None` if the suite has no variables.
    ///
    /// Takes constant time and allocates nothing.
    pub fn suite_vars(&self, suite: &Text) -> Option<&SuiteVariables>
        ensures { option_copied result ≡ variables_of suite.now self.now.suites }
    {
        self.suites.get(suite)
    }

    /// Returns the last value of the variable `architecture`, or `unknown` if it is not set.
    ///
    /// Allocates nothing.
    pub fn architecture(&self) -> &str
        ensures { chars result.now ≡ unwrap_or self.now.architecture (codes "unknown") }
    {
        match &self.architecture {
            Some(value) => value.as_str(),
            None => "unknown",
        }
    }

    /// Returns the last value of the variable `platform`, or `unknown` if it is not set.
    ///
    /// Allocates nothing.
    pub fn platform(&self) -> &str
        ensures { chars result.now ≡ unwrap_or self.now.platform (codes "unknown") }
    {
        match &self.platform {
            Some(value) => value.as_str(),
            None => "unknown",
        }
    }

    /// Returns the maximum number of cases that run at the same time: 1 to 256, by default 1.
    ///
    /// Allocates nothing.
    pub fn parallelism(&self) -> u32
        ensures value { result ≡ self.now.parallelism }
        ensures within { (1 ≤ result) × (result ≤ largest_width) }
    {
        self.parallelism.max_cases()
    }

    /// Sets the variable `name` to `value`, as the option `--variable` does (kyua(1)).
    ///
    /// The variable `unprivileged_user` has no effect.
    ///
    /// Dots separate the parts of `name`, as in `test_suites.SUITE.NAME`.
    ///
    /// # Errors
    ///
    /// The configuration is unchanged on an error.
    ///
    /// - `UnknownVariable`: `name` is not the name of a variable.
    /// - `BadValue`: the variable does not accept `value`.
    /// - `NoMemory`: an allocation fails.
    pub fn set(&mut self, name: &Text, value: &Text) -> Result<(), ConfigFault>
        ensures ok { OnOk result (AddsDefinition self.old self.new (definition_named name.now
            value.now)) }
        ensures refused { IfFault result (λ fault.
            definition_named name.now value.now ≡ Err fault) }
        ensures err { OnErr result (self.new ≡ self.old) }
    {
        let parts = name.split('.')?;
        let definition = definition_of(parts.as_slice(), value.copy()?)??;
        self.define(definition)?;
        Ok(())
    }
}
