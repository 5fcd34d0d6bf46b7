ghost use Rattle.std.specs.Prelude.{◌≡◌, ℕ, List, [], ◌∷◌, ◌++◌, Bool, false, bytes_eq, map, OnOk, OnErr};
ghost use Rattle.std.specs.List.{list_any};

use indexmap::IndexSet;
use kt_base::{NoMemory, Text};
use std::alloc::Global;
use std::marker::Model;

/// A set of the names of test cases, with lookup in constant time.
///
/// In contracts, a `NameSet` is the list of the names in the order of their insertion.
#[derive(Drop)]
pub struct NameSet {
    keys: IndexSet<String>,
}

impl Model for NameSet {
    ghost use Rattle.std.specs.Prelude.{ℕ, List, map};
    ghost use Rattle.kt_atflist.specs.Inner.Keys.{characters};

    ghost Value = { List (List ℕ) };

    ghost view = { λ names. map characters names.keys.keys };
}

impl NameSet {
    /// Creates an empty set of names.
    ///
    /// Allocates nothing.
    pub fn new(alloc: Global) -> NameSet
        ensures { result ≡ [] }
    {
        NameSet {
            keys: IndexSet::new(alloc),
        }
    }

    /// Returns `true` if the set contains `name`.
    pub fn contains(&self, name: &Text) -> bool
        ensures { result ≡ list_any (bytes_eq name.now) self.now }
    {
        self.keys.contains(name.as_str())
    }

    /// Inserts the name `name`, which the set must not contain yet.
    ///
    /// # Errors
    ///
    /// - `NoMemory`: an allocation fails. The set is unchanged.
    pub fn insert(&mut self, alloc: Global, name: &Text) -> Result<(), NoMemory>
        requires { list_any (bytes_eq name.now) self.old ≡ false }
        ensures ok { OnOk result (self.new ≡ self.old ++ name.now ∷ []) }
        ensures err { OnErr result (self.new ≡ self.old) }
    {
        let key = String::from_str(alloc, name.as_str())?;
        self.keys.insert(key)?;
        Ok(())
    }
}
