use crate::NonblockingWriter;
use crate::output::backlog::Backlog;
use kt_base::write_until_failure;
use std::alloc::Global;
use std::io;
use std::io::{ErrorKind, Write};

/// The maximum number of times that one `try_flush` or write offers held bytes to the inner writer.
const MAX_OFFERS: usize = 16;

/// The maximum number of bytes that a `NonblockingOutput` holds in memory before the first call of
/// `try_flush`: 1 MiB.
const MAX_HELD_BYTES: usize = 1_048_576;

/// A writer that does not wait for its reader.
///
/// Bytes that the reader does not take yet are held in memory, in order. Each later write and step
/// offers them to the inner writer again. If more than 1 MiB is held and `try_flush` was never
/// called, the inner writer stores the bytes by `spool_bytes`. A flush writes all held and stored
/// bytes, and waits for the reader. So does a write whose bytes can't be held because the
/// allocation fails. After a failed write each later write and flush fails, and nothing more is
/// written.
#[derive(Drop)]
pub struct NonblockingOutput<W> {
    /// The inner writer, to which the bytes are written.
    out: W,
    /// The bytes in memory that the reader did not take yet.
    held: Backlog,
    /// The maximum number of bytes in `held`: 1 MiB before the first call of `try_flush`, and no
    /// limit afterwards.
    max_held_bytes: usize,
    /// Whether a write of the inner writer has failed.
    failed: bool,
}

/// Creates the error of a write or a flush of a `NonblockingOutput` whose inner writer has failed.
fn broken_pipe_error() -> io::Error {
    io::Error::from(ErrorKind::BrokenPipe)
}

impl<W: NonblockingWriter> NonblockingOutput<W> {
    ghost use Rattle.std.specs.Prelude.{◌≡◌, ◌≤◌, ◌+◌, [], false, length};
    ghost use Rattle.kt_cli.specs.Common.{Keeps, WriteAppends, WritesAtMost, accepted_bytes, has_stopped, unsent_bytes};

    /// Creates a writer that holds no bytes. Allocates nothing.
    pub fn new(alloc: Global, out: W) -> NonblockingOutput<W>
        ensures bytes { Keeps (W.contents out) (accepted_bytes W.contents result) }
        ensures held { unsent_bytes result ≡ [] }
        ensures whole { has_stopped result ≡ false }
    {
        NonblockingOutput {
            out,
            held: Backlog::new(alloc),
            max_held_bytes: MAX_HELD_BYTES,
            failed: false,
        }
    }

    /// Offers the held bytes to the inner writer once, and returns `true` if the writer took at
    /// least one of them. An error of the writer is recorded in `failed`.
    fn offer_held_bytes(&mut self) -> bool
        ensures bytes { Keeps (accepted_bytes W.contents self.old) (accepted_bytes W.contents
            self.new) }
        ensures few { length (unsent_bytes self.new) ≤ length (unsent_bytes self.old) }
    {
        match self.out.try_write(self.held.as_slice()) {
            Ok(count) => {
                self.held.advance(count);
                count > 0
            }
            Err(_fault) => {
                self.failed = true;
                false
            }
        }
    }

    /// Offers the held bytes to the inner writer, in order, at most 16 times and as long as the
    /// writer takes some of them.
    fn offer_while_accepted(&mut self)
        ensures bytes { Keeps (accepted_bytes W.contents self.old) (accepted_bytes W.contents
            self.new) }
        ensures few { length (unsent_bytes self.new) ≤ length (unsent_bytes self.old) }
    {
        for _ in 0..MAX_OFFERS {
            if self.failed || self.held.is_empty() || !self.offer_held_bytes() {
                return;
            }
        }
    }

    /// Offers the held bytes to the inner writer, at most 16 times and as long as the writer takes
    /// some of them, without waiting.
    ///
    /// After the first step, held bytes are never spooled: they stay in memory until they are
    /// written.
    pub fn try_flush(&mut self)
        ensures bytes { Keeps (accepted_bytes W.contents self.old) (accepted_bytes W.contents
            self.new) }
        ensures few { length (unsent_bytes self.new) ≤ length (unsent_bytes self.old) }
    {
        self.max_held_bytes = usize::MAX;
        self.offer_while_accepted();
    }

    /// Moves all held bytes to the spool of the inner writer if they are more than the limit
    /// `max_held_bytes`.
    fn spool_excess(&mut self)
        ensures bytes { Keeps (accepted_bytes W.contents self.old) (accepted_bytes W.contents
            self.new) }
        ensures few { length (unsent_bytes self.new) ≤ length (unsent_bytes self.old) }
    {
        let held = self.held.as_slice();
        if held.len() <= self.max_held_bytes {
            return;
        }
        match self.out.spool_bytes(held) {
            Ok(()) => self.held.clear(),
            Err(_fault) => self.failed = true,
        }
    }

    /// Writes all held bytes, waits for the reader, and returns `true` if a write failed.
    fn write_held_bytes(&mut self) -> bool
        ensures bytes { Keeps (accepted_bytes W.contents self.old) (accepted_bytes W.contents
            self.new) }
        ensures all { result ≡ false → unsent_bytes self.new ≡ [] }
        ensures few { length (unsent_bytes self.new) ≤ length (unsent_bytes self.old) }
    {
        let (sent, failed) = write_until_failure(self.held.as_slice(), &mut self.out);
        self.held.advance(sent);
        self.failed = failed;
        failed
    }

    /// Writes some of `buf` directly to the inner writer, and returns the number of written bytes.
    /// No bytes may be held. Fails if this write fails.
    fn write_through(&mut self, buf: &[u8]) -> io::Result<usize>
        requires { unsent_bytes self.old ≡ [] }
        ensures bound { WritesAtMost result buf.now }
        ensures bytes { WriteAppends (accepted_bytes W.contents self.old)
            (accepted_bytes W.contents self.new) result buf.now }
        ensures few { unsent_bytes self.new ≡ [] }
    {
        let answer = self.out.write(buf);
        self.failed = answer.is_err();
        answer
    }

    /// Appends `buf` to the held bytes, and returns the number of bytes of `buf` that were held or
    /// written.
    ///
    /// If the allocation fails, this writes all held bytes, and then some of `buf`. Fails if one of
    /// these writes fails.
    fn hold_bytes(&mut self, buf: &[u8]) -> io::Result<usize>
        ensures bound { WritesAtMost result buf.now }
        ensures bytes { WriteAppends (accepted_bytes W.contents self.old)
            (accepted_bytes W.contents self.new) result buf.now }
        ensures few { length (unsent_bytes self.new)
            ≤ length (unsent_bytes self.old) + length buf.now }
    {
        if self.held.append(buf).is_ok() {
            self.spool_excess();
            return Ok(buf.len());
        }
        if self.write_held_bytes() {
            return Err(broken_pipe_error());
        }
        self.write_through(buf)
    }

    /// Offers `buf` to the inner writer, and calls `hold_bytes` if the writer takes none of the
    /// bytes. No bytes may be held before. Returns the number of bytes that were taken or held.
    /// Fails if the offer or `hold_bytes` fails.
    fn offer_or_hold(&mut self, buf: &[u8]) -> io::Result<usize>
        requires { unsent_bytes self.old ≡ [] }
        ensures bound { WritesAtMost result buf.now }
        ensures bytes { WriteAppends (accepted_bytes W.contents self.old)
            (accepted_bytes W.contents self.new) result buf.now }
        ensures few { length (unsent_bytes self.new)
            ≤ length (unsent_bytes self.old) + length buf.now }
    {
        match self.out.try_write(buf) {
            Ok(0) => self.hold_bytes(buf),
            Ok(count) => Ok(count),
            Err(fault) => {
                self.failed = true;
                Err(fault)
            }
        }
    }
}

impl<W: NonblockingWriter> Write for NonblockingOutput<W> {
    ghost use Rattle.std.specs.Prelude.{◌≡◌, ◌≤◌, ◌+◌, [], OnOk, length};
    ghost use Rattle.kt_cli.specs.Common.{Keeps, WriteAppends, WritesAtMost, accepted_bytes, unsent_bytes};

    ghost contents = { accepted_bytes W.contents };

    // Bytes that a write counts as written may still be held, in order.
    fn write(&mut self, buf: &[u8]) -> io::Result<usize>
        ensures bound { WritesAtMost result buf.now }
        ensures bytes { WriteAppends (accepted_bytes W.contents self.old)
            (accepted_bytes W.contents self.new) result buf.now }
        ensures few { length (unsent_bytes self.new)
            ≤ length (unsent_bytes self.old) + length buf.now }
    {
        self.offer_while_accepted();
        if self.failed {
            return Err(broken_pipe_error());
        }
        if !self.held.is_empty() {
            return self.hold_bytes(buf);
        }
        self.offer_or_hold(buf)
    }

    // After a successful flush, no bytes are held.
    fn flush(&mut self) -> io::Result<()>
        ensures bytes { Keeps (accepted_bytes W.contents self.old) (accepted_bytes W.contents
            self.new) }
        ensures all { OnOk result (unsent_bytes self.new ≡ []) }
    {
        if self.failed || self.write_held_bytes() {
            return Err(broken_pipe_error());
        }
        self.out.flush()
    }
}
