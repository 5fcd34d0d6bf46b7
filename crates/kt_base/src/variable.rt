use crate::{NoMemory, Text};

/// A pair of a name and its value, such as a variable of a test suite.
#[derive(Drop)]
pub struct Variable {
    /// The name of the variable or property.
    pub name: Text,
    /// The value of the variable or property, as a text.
    pub value: Text,
}

impl Variable {
    ghost use Rattle.std.specs.Prelude.{◌≡◌, IfOk};

    /// Copies the name and the value of the pair into new allocations.
    ///
    /// # Errors
    ///
    /// - `NoMemory`: an allocation fails.
    pub fn copy(&self) -> Result<Variable, NoMemory>
        ensures { IfOk result (λ v. v ≡ self.now) }
    {
        Ok(Variable {
            name: self.name.copy()?,
            value: self.value.copy()?,
        })
    }
}
