ghost use Rattle.std.specs.Prelude.{◌≡◌, ◌↔◌, [], ◌++◌, List, ℕ, length, IfOk, OnOk, OnErr, IsTrue};

use crate::NoMemory;
use std::alloc::Global;
use std::marker::Model;

/// A growable byte string whose methods return `NoMemory` if an allocation fails.
///
/// In contracts, a `Bytes` is the list of its bytes.
#[derive(Debug)]
pub struct Bytes {
    bytes: Vec<u8>,
}

/// A manual impl instead of `#[derive(Drop)]`, so that the prover handles each drop as one call.
impl Drop for Bytes {
    fn drop(self) {
        let Bytes { bytes: _ } = self;
    }
}

impl Model for Bytes {
    ghost Value = { List ℕ };

    ghost view = { λ b. b.bytes.items };
}

impl Bytes {
    /// Creates an empty byte string. Allocates nothing.
    pub fn new(alloc: Global) -> Bytes
        ensures { result ≡ [] }
    {
        Bytes {
            bytes: Vec::new(alloc),
        }
    }

    /// Creates a byte string that contains a copy of `bytes`.
    ///
    /// # Errors
    ///
    /// - `NoMemory`: the allocation fails.
    pub fn from_slice(alloc: Global, bytes: &[u8]) -> Result<Bytes, NoMemory>
        ensures { IfOk result (λ b. b ≡ bytes.now) }
    {
        Ok(Bytes {
            bytes: bytes.to_vec(alloc)?,
        })
    }

    /// Converts the vector `bytes` to a byte string, without a copy.
    pub fn from_vec(bytes: Vec<u8>) -> Bytes
        ensures { result ≡ bytes.items }
    {
        Bytes { bytes }
    }

    /// Converts the byte string to a vector, without a copy.
    pub fn into_vec(self) -> Vec<u8>
        ensures { result.items ≡ self }
    {
        let Bytes { bytes } = self;
        bytes
    }

    /// Returns the bytes of the byte string as a slice.
    pub fn as_slice(&self) -> &[u8]
        ensures { result.now ≡ self.now }
    {
        self.bytes.as_slice()
    }

    /// Returns the number of bytes in the byte string.
    pub fn len(&self) -> usize
        ensures { result ≡ length self.now }
    {
        self.bytes.len()
    }

    /// Returns `true` if the byte string is empty.
    pub fn is_empty(&self) -> bool
        ensures { IsTrue result ↔ (self.now ≡ []) }
    {
        self.bytes.is_empty()
    }

    /// Copies the byte string into a new allocation.
    ///
    /// # Errors
    ///
    /// - `NoMemory`: the allocation fails.
    pub fn copy(&self) -> Result<Bytes, NoMemory>
        ensures { IfOk result (λ b. b ≡ self.now) }
    {
        Ok(Bytes {
            bytes: self.bytes.clone()?,
        })
    }

    /// Appends the bytes `more` to the byte string.
    ///
    /// # Errors
    ///
    /// - `NoMemory`: the allocation fails. The byte string is unchanged.
    pub fn append(&mut self, more: &[u8]) -> Result<(), NoMemory>
        ensures ok { OnOk result (self.new ≡ self.old ++ more.now) }
        ensures err { OnErr result (self.new ≡ self.old) }
    {
        self.bytes.extend_from_slice(more)?;
        Ok(())
    }
}
