ghost use Rattle.std.specs.Prelude.{◌≡◌, ◌<◌, ◌≤◌, ◌+◌, ◌++◌, [], true, false, length};
ghost use Rattle.std.specs.Io.KnownBytes.{Keeps, append_known};

use kt_base::write_until_failure;
use std::io::Write;
use std::marker::Model;

/// The capacity of a [`FixedBuffer`], in bytes.
pub const BUFFER_BYTES: usize = 65_536;

/// A buffer of 65,536 bytes on the stack.
///
/// In contracts its value is the buffered bytes, in order.
#[derive(Drop)]
pub struct FixedBuffer {
    /// The memory of the buffer, of which the first `count` bytes are in use.
    memory: [u8; BUFFER_BYTES],
    /// The number of buffered bytes, at most 65,536.
    count: usize,
}

impl Model for FixedBuffer {
    ghost use Rattle.std.specs.Prelude.{ℕ, List, ◌≤◌, take};

    ghost Value = { List ℕ };

    ghost view = { λ h. take h.count h.memory };

    ghost invariant = { λ h. h.count ≤ 65536 };
}

impl FixedBuffer {
    /// Creates an empty buffer. Allocates nothing.
    pub fn new() -> FixedBuffer
        ensures { result ≡ [] }
    {
        FixedBuffer {
            memory: [0; BUFFER_BYTES],
            count: 0,
        }
    }

    /// Returns the number of buffered bytes.
    pub fn len(&self) -> usize
        ensures value { result ≡ length self.now }
        ensures bound { result ≤ 65536 }
    {
        self.count
    }

    /// Appends bytes, which must fit into the buffer.
    pub fn append(&mut self, more: &[u8])
        requires { length self.old + length more.now ≤ 65536 }
        ensures { self.new ≡ self.old ++ more.now }
    {
        let count = self.count;
        self.memory[count..count + more.len()].copy_from_slice(more);
        self.count = count + more.len();
    }

    /// Writes the buffered bytes to `out`, and returns `true` if a write failed.
    ///
    /// Bytes that were not written stay, moved to the start of the buffer.
    pub fn write_buffered<W: Write>(&mut self, out: &mut W) -> bool
        ensures bytes { Keeps (append_known (W.contents out.old) self.old)
            (append_known (W.contents out.new) self.new) }
        ensures all { result ≡ false → self.new ≡ [] }
        ensures short { result ≡ true → 0 < length self.new }
    {
        let count = self.count;
        let (sent, failed) = write_until_failure(&self.memory[..count], out);
        self.memory.copy_within(sent..count, 0);
        self.count = count - sent;
        failed
    }
}
