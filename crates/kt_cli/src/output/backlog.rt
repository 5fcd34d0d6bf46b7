use kt_base::NoMemory;
use std::alloc::Global;
use std::marker::Model;

/// A queue of bytes that are still to be written.
///
/// In contracts its value is these bytes, in order.
pub struct Backlog {
    /// The bytes that were written and are not removed yet, followed by the bytes that are still to
    /// be written.
    bytes: Vec<u8>,
    /// The index in `bytes` of the first byte that is still to be written, at most the length of
    /// `bytes`.
    start: usize,
}

/// A manual impl instead of `#[derive(Drop)]`, so that the prover handles each drop as one call.
impl Drop for Backlog {
    fn drop(self) {
        let Backlog { bytes: _, start: _ } = self;
    }
}

impl Model for Backlog {
    ghost use Rattle.std.specs.Prelude.{ℕ, List, ◌≤◌, drop, length};

    ghost Value = { List ℕ };

    ghost view = { λ b. drop b.start b.bytes.items };

    ghost invariant = { λ b. b.start ≤ length b.bytes.items };
}

impl Backlog {
    ghost use Rattle.std.specs.Prelude.{◌≡◌, ◌↔◌, ◌++◌, ◌≤◌, [], IsTrue, OnErr, OnOk, drop, length};

    /// Creates an empty backlog. Allocates nothing.
    pub fn new(alloc: Global) -> Backlog
        ensures { result ≡ [] }
    {
        Backlog {
            bytes: Vec::new(alloc),
            start: 0,
        }
    }

    /// Returns the bytes that are still to be written, in order.
    pub fn as_slice(&self) -> &[u8]
        ensures { result.now ≡ self.now }
    {
        &self.bytes[self.start..]
    }

    /// Returns `true` if no bytes are still to be written.
    pub fn is_empty(&self) -> bool
        ensures { IsTrue result ↔ (self.now ≡ []) }
    {
        self.as_slice().is_empty()
    }

    /// Appends bytes to the end of the backlog.
    ///
    /// # Errors
    ///
    /// - `NoMemory`: the allocation fails. The backlog is unchanged.
    pub fn append(&mut self, more: &[u8]) -> Result<(), NoMemory>
        ensures ok { OnOk result (self.new ≡ self.old ++ more.now) }
        ensures err { OnErr result (self.new ≡ self.old) }
    {
        self.compact();
        self.bytes.extend_from_slice(more)?;
        Ok(())
    }

    /// Moves the bytes that are still to be written to the start of `bytes`, unless they are more
    /// than the written bytes before them.
    fn compact(&mut self)
        ensures { self.new ≡ self.old }
    {
        let count = self.bytes.len();
        let start = self.start;
        if start < count - start {
            return;
        }
        self.bytes.copy_within(start..count, 0);
        self.bytes.truncate(count - start);
        self.start = 0;
    }

    /// Removes all bytes from the backlog.
    pub fn clear(&mut self)
        ensures { self.new ≡ [] }
    {
        self.bytes.clear();
        self.start = 0;
    }

    /// Removes the first `count` bytes from the backlog, after they were written.
    pub fn advance(&mut self, count: usize)
        requires { count ≤ length self.old }
        ensures { self.new ≡ drop count self.old }
    {
        self.start += count;
        if self.start == self.bytes.len() {
            self.clear();
        }
    }
}
