use crate::options::configuring::copy_suite_variables;
use kt_base::{NoMemory, Text, Variables};
use kt_config::Config;
use std::alloc::Global;

/// The variables of a test suite, in one reference-counted copy that the jobs of the suite's cases
/// share.
#[derive(Drop)]
pub struct SharedVariables {
    /// The name of the test suite.
    pub suite: Text,
    /// The variables that the configuration sets for the test suite.
    pub variables: Variables,
}

impl SharedVariables {
    ghost use Rattle.std.specs.Prelude.{◌≡◌, IfOk};
    ghost use Rattle.kt_plan.specs.Common.{variables_for};

    /// Creates the shared variables of the test suite `suite`, as `config` sets them.
    ///
    /// # Errors
    ///
    /// - `NoMemory`: an allocation fails.
    pub fn for_suite(
        alloc: Global,
        config: &Config,
        suite: &Text,
    ) -> Result<SharedVariables, NoMemory>
        ensures suite { IfOk result (λ shared. shared.suite ≡ suite.now) }
        ensures variables { IfOk result (λ shared.
            shared.variables ≡ variables_for config.now suite.now) }
    {
        let variables = copy_suite_variables(alloc, config, suite)?;
        Ok(SharedVariables {
            suite: suite.copy()?,
            variables: variables.into_shared()?,
        })
    }

    /// Returns the shared variables of `suite`, the test suite of the next case of a plan.
    ///
    /// Returns `self` if it has the variables of this test suite. Otherwise, creates shared
    /// variables for `suite`.
    ///
    /// # Errors
    ///
    /// - `NoMemory`: an allocation fails.
    pub fn for_next_case(
        self,
        alloc: Global,
        config: &Config,
        suite: &Text,
    ) -> Result<SharedVariables, NoMemory>
        requires { self.variables ≡ variables_for config.now self.suite }
        ensures suite { IfOk result (λ shared. shared.suite ≡ suite.now) }
        ensures variables { IfOk result (λ shared.
            shared.variables ≡ variables_for config.now suite.now) }
    {
        if self.suite.is_equal_to(suite.as_str()) {
            return Ok(self);
        }
        let other = SharedVariables::for_suite(alloc, config, suite)?;
        Ok(other)
    }
}
