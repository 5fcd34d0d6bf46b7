ghost use Rattle.std.specs.Prelude.{◌≡◌, ◌<◌, true, false, length};

use crate::Exit;
use crate::output::exit::FAILURE;
use crate::output::fixed_buffer::{BUFFER_BYTES, FixedBuffer};
use crate::output::flushing::{FlushFault, flush_writer};
use std::io;
use std::io::{ErrorKind, Write};

/// A buffered writer, which writes when its buffer of 64 KiB is full.
///
/// If `by_line` is set, it also writes when a line is complete. An interrupted write counts as
/// failed, and so does a write of 0 bytes. After a failed write or flush of the inner writer, each
/// later call fails, and nothing more is written. A drop writes nothing. The writer allocates
/// nothing.
#[derive(Drop)]
pub struct LineOutput<W> {
    /// The inner writer, to which the buffered bytes are written.
    out: W,
    /// The bytes that are not written to the inner writer yet.
    held: FixedBuffer,
    /// Whether bytes are also written when a line is complete, and not only when the buffer is
    /// full.
    by_line: bool,
    /// Whether a write of the inner writer has failed.
    failed: bool,
    /// The fault of the inner writer's flush, if it failed.
    flush_fault: Option<FlushFault>,
    ghost caused: { failed ≡ true → 0 < length held },
    ghost spare: { failed ≡ false → length held < 65536 },
}

/// Creates the error of a write or a flush of a `LineOutput` whose inner writer has failed.
fn broken_pipe_error() -> io::Error {
    io::Error::from(ErrorKind::BrokenPipe)
}

impl<W: Write> LineOutput<W> {
    ghost use Rattle.std.specs.Prelude.{◌≡◌, [], false};
    ghost use Rattle.kt_cli.specs.Common.{Keeps, given_bytes, is_broken, unwritten, line_state, FlushesOutput};

    /// Creates a writer with an empty buffer. Allocates nothing.
    ///
    /// If `by_line` is set, each line is written when it is complete.
    pub fn new(out: W, by_line: bool) -> LineOutput<W>
        ensures bytes { Keeps (W.contents out) (given_bytes W.contents result) }
        ensures held { unwritten result ≡ [] }
        ensures whole { is_broken result ≡ false }
    {
        LineOutput {
            out,
            held: FixedBuffer::new(),
            by_line,
            failed: false,
            flush_fault: None,
        }
    }

    /// Sets whether each line is written when it is complete.
    pub fn set_line_buffered(&mut self, by_line: bool)
        ensures { line_state W.contents self.new ≡ line_state W.contents self.old }
    {
        self.by_line = by_line;
    }

    /// Returns `true` if a write or a flush of the inner writer has failed.
    fn is_broken(&self) -> bool
        ensures { result ≡ is_broken self.now }
    {
        self.failed || self.flush_fault.is_some()
    }

    /// Flushes the output of a command, and returns `exit`, its exit status, or 2 if the flush
    /// fails.
    pub fn finish(&mut self, exit: Exit) -> Exit
        ensures { FlushesOutput (given_bytes W.contents self.old) (line_state W.contents self.new)
            exit.status result.status }
    {
        match self.flush() {
            Ok(()) => exit,
            Err(_fault) => Exit { status: FAILURE },
        }
    }
}

impl<W: Write> Write for LineOutput<W> {
    ghost use Rattle.std.specs.Prelude.{◌≡◌, ◌<◌, true, is_err, length, IfOk};
    ghost use Rattle.kt_cli.specs.Common.{WritesAtMost, Keeps, WriteAppends, FlushResult, given_bytes, has_failed, is_broken, flush_fault, unwritten};

    ghost contents = { given_bytes W.contents };

    // A write fails only after a failed call. Otherwise it takes a byte if there is one.
    fn write(&mut self, buf: &[u8]) -> io::Result<usize>
        ensures bound { WritesAtMost result buf.now }
        ensures bytes { WriteAppends (given_bytes W.contents self.old)
            (given_bytes W.contents self.new) result buf.now }
        ensures fails { is_err result ≡ is_broken self.old }
        ensures takes { IfOk result (λ n. 0 < length buf.now → 0 < n) }
        ensures flush { flush_fault self.new ≡ flush_fault self.old }
        ensures silent { is_broken self.old ≡ true → self.new ≡ self.old }
    {
        if self.is_broken() {
            return Err(broken_pipe_error());
        }
        let taken = buf.len().min(BUFFER_BYTES - self.held.len());
        self.held.append(&buf[..taken]);
        let has_line = self.by_line && buf[..taken].contains(&b'\n');
        if self.held.len() < BUFFER_BYTES && !has_line {
            return Ok(taken);
        }
        self.failed = self.held.write_buffered(&mut self.out);
        Ok(taken)
    }

    fn flush(&mut self) -> io::Result<()>
        ensures bytes { Keeps (given_bytes W.contents self.old) (given_bytes W.contents self.new) }
        ensures ends { FlushResult (has_failed self.new) (flush_fault self.new) (unwritten self.new)
            (is_err result) }
        ensures silent { is_broken self.old ≡ true → (self.new ≡ self.old)
            × (is_err result ≡ true) }
    {
        if self.is_broken() {
            return Err(broken_pipe_error());
        }
        self.failed = self.held.write_buffered(&mut self.out);
        if self.failed {
            return Err(broken_pipe_error());
        }
        match flush_writer(&mut self.out) {
            Ok(()) => Ok(()),
            Err(fault) => {
                self.flush_fault = Some(fault);
                Err(broken_pipe_error())
            }
        }
    }
}
