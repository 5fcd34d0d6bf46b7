use kt_base::NoMemory;
use std::alloc::Global;
use std::io;
use std::io::{ErrorKind, Write};

/// A way in which a write fails.
#[derive(Clone, Copy)]
pub enum WriteFault {
    /// The write fails with `BrokenPipe`.
    Broken,
    /// The write fails with `Interrupted`.
    Interrupted,
    /// The write accepts no bytes and returns 0.
    ZeroBytes,
}

/// A `Write` that stores the bytes that are written to it. Each write accepts at most `at_most`
/// bytes. If `failing_write` isn't 0, write number `failing_write` and all later writes fail.
#[derive(Drop)]
pub struct ScriptedWriter {
    /// The bytes that the writes so far accepted, in order.
    written: Vec<u8>,
    /// The last allocation that failed in a write, if any.
    refusal: Option<NoMemory>,
    /// The maximum number of bytes that a write accepts.
    pub at_most: usize,
    /// The number of writes so far, including the failed writes.
    pub writes: u64,
    /// The number of the first write that fails, counted from 1, or 0 for none.
    pub failing_write: u64,
    /// The way in which the writes from number `failing_write` on fail.
    pub fault: WriteFault,
    /// `true` if each flush fails with `BrokenPipe`.
    pub flush_fails: bool,
}

impl ScriptedWriter {
    /// Creates a writer that accepts all bytes, and whose writes and flushes don't fail.
    pub fn new(alloc: Global) -> ScriptedWriter {
        ScriptedWriter {
            written: Vec::new(alloc),
            refusal: None,
            at_most: usize::MAX,
            writes: 0,
            failing_write: 0,
            fault: WriteFault::Broken,
            flush_fails: false,
        }
    }

    /// Returns the bytes that were written. Allocates nothing.
    ///
    /// # Errors
    ///
    /// - `NoMemory`: an allocation in a write failed.
    pub fn written_bytes(&self) -> Result<&[u8], NoMemory> {
        match self.refusal {
            None => Ok(self.written.as_slice()),
            Some(refusal) => Err(refusal),
        }
    }

    /// Returns the bytes that were written, as text with invalid UTF-8 replaced by U+FFFD.
    ///
    /// # Errors
    ///
    /// - `NoMemory`: an allocation in a write or for the text failed.
    pub fn written_text(&self, alloc: Global) -> Result<String, NoMemory> {
        Ok(String::from_utf8_lossy(alloc, self.written_bytes()?)?)
    }
}

impl Write for ScriptedWriter {
    fn write(&mut self, bytes: &[u8]) -> io::Result<usize> {
        self.writes = self.writes.saturating_add(1);
        if self.failing_write > 0 && self.writes >= self.failing_write {
            return match self.fault {
                WriteFault::Broken => Err(io::Error::from(ErrorKind::BrokenPipe)),
                WriteFault::Interrupted => Err(io::Error::from(ErrorKind::Interrupted)),
                WriteFault::ZeroBytes => Ok(0),
            };
        }
        let taken = bytes.len().min(self.at_most);
        match self.written.extend_from_slice(&bytes[..taken]) {
            Ok(()) => Ok(taken),
            Err(refusal) => {
                self.refusal = Some(NoMemory::from(refusal));
                Err(io::Error::from(refusal))
            }
        }
    }

    fn flush(&mut self) -> io::Result<()> {
        if self.flush_fails {
            return Err(io::Error::from(ErrorKind::BrokenPipe));
        }
        Ok(())
    }
}
