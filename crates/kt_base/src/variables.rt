ghost use Rattle.std.specs.Prelude.{◌≡◌, ◌↔◌, [], ◌∷◌, ◌++◌, List, length, IfOk, OnOk, OnErr, IsTrue};
ghost use Rattle.kt_base.specs.Common.{Variable, shared_or_own};

use crate::{NoMemory, Variable};
use std::alloc::Global;
use std::marker::Model;
use std::rc::Rc;

/// A list of pairs, each a name with its value, such as the variables of a test suite.
///
/// Copies of a shared list use the same memory. In contracts, a `Variables` is the list of its
/// pairs, shared or not.
pub struct Variables {
    /// The pairs of a list that is not shared, or an empty vector if `shared` is `Some`.
    own: Vec<Variable>,
    /// The pairs of a shared list, or `None` if the list is not shared.
    shared: Option<Rc<Vec<Variable>>>,
}

/// A manual impl instead of `#[derive(Drop)]`, so that the prover handles each drop as one call.
impl Drop for Variables {
    fn drop(self) {
        let Variables { own: _, shared: _ } = self;
    }
}

impl Model for Variables {
    ghost Value = { List Variable };

    ghost view = { λ v. shared_or_own v.shared v.own.items };
}

impl Variables {
    /// Creates an empty list of pairs. Allocates nothing.
    pub fn new(alloc: Global) -> Variables
        ensures { result ≡ [] }
    {
        Variables {
            own: Vec::new(alloc),
            shared: None,
        }
    }

    /// Returns the pairs of the list as a slice.
    pub fn as_slice(&self) -> &[Variable]
        ensures { result.now ≡ self.now }
    {
        match &self.shared {
            Some(pairs) => pairs.as_slice(),
            None => self.own.as_slice(),
        }
    }

    /// Returns the number of pairs in the list.
    pub fn len(&self) -> usize
        ensures { result ≡ length self.now }
    {
        self.as_slice().len()
    }

    /// Returns `true` if the list contains no pair.
    pub fn is_empty(&self) -> bool
        ensures { IsTrue result ↔ (self.now ≡ []) }
    {
        self.as_slice().is_empty()
    }

    /// Appends the pair `variable` to the list. If the list is shared, its pairs are copied first.
    ///
    /// The other copies of a shared list are unchanged. This list is not shared afterwards.
    ///
    /// # Errors
    ///
    /// - `NoMemory`: an allocation fails. The list is unchanged, and `variable` is dropped.
    pub fn push(&mut self, variable: Variable) -> Result<(), NoMemory>
        ensures ok { OnOk result (self.new ≡ self.old ++ variable ∷ []) }
        ensures err { OnErr result (self.new ≡ self.old) }
    {
        if let Some(pairs) = &self.shared {
            self.own = copy_pairs(pairs)?;
            self.shared = None;
        }
        self.own.push(variable)?;
        Ok(())
    }

    /// Converts the list to a shared list, so that copies of the list use the same memory.
    ///
    /// # Errors
    ///
    /// - `NoMemory`: the allocation fails.
    pub fn into_shared(self) -> Result<Variables, NoMemory>
        ensures { IfOk result (λ v. v ≡ self) }
    {
        let Variables { own, shared } = self;
        let alloc = *own.allocator();
        let pairs = match shared {
            Some(pairs) => pairs,
            None => Rc::new(alloc, own)?,
        };
        Ok(Variables {
            own: Vec::new(alloc),
            shared: Some(pairs),
        })
    }

    /// Copies the list of pairs. A copy of a shared list uses the same memory.
    ///
    /// # Errors
    ///
    /// - `NoMemory`: an allocation fails, or the count of copies would overflow.
    pub fn copy(&self) -> Result<Variables, NoMemory>
        ensures { IfOk result (λ v. v ≡ self.now) }
    {
        match &self.shared {
            Some(pairs) => Ok(Variables {
                own: Vec::new(*self.own.allocator()),
                shared: Some(pairs.clone()?),
            }),
            None => Ok(Variables {
                own: copy_pairs(&self.own)?,
                shared: None,
            }),
        }
    }
}

/// Copies `pairs` into new allocations.
fn copy_pairs(pairs: &Vec<Variable>) -> Result<Vec<Variable>, NoMemory>
    ensures { IfOk result (λ copy. copy.items ≡ pairs.now.items) }
{
    let mut copied = Vec::new(*pairs.allocator());
    for pair in pairs {
        copied.push(pair.copy()?)?;
    }
    Ok(copied)
}
