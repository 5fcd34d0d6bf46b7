use crate::{NonblockingOutput, NonblockingWriter};
use kt_child::Background;
use std::cell::RefCell;
use std::io;
use std::io::{ErrorKind, Write};

/// A handle of a `NonblockingOutput` that commands and the host share.
///
/// Commands write to it. While children run, the host offers the held bytes to the reader.
#[derive(Drop)]
pub struct SharedOutput<'a, W> {
    /// The output that this handle shares with the other handles.
    held: &'a RefCell<NonblockingOutput<W>>,
}

impl<'a, W> SharedOutput<'a, W> {
    /// Creates a handle of an output. Allocates nothing.
    pub fn new(held: &'a RefCell<NonblockingOutput<W>>) -> SharedOutput<'a, W> {
        SharedOutput { held }
    }
}

/// Creates the error of a call on an output that is already executing another call. The program
/// makes no such call.
fn borrow_error() -> io::Error {
    io::Error::from(ErrorKind::Other)
}

impl<W: NonblockingWriter> Write for SharedOutput<'_, W> {
    fn write(&mut self, buf: &[u8]) -> io::Result<usize> {
        match self.held.try_borrow_mut() {
            Ok(mut held) => held.write(buf),
            Err(_) => Err(borrow_error()),
        }
    }

    fn flush(&mut self) -> io::Result<()> {
        match self.held.try_borrow_mut() {
            Ok(mut held) => held.flush(),
            Err(_) => Err(borrow_error()),
        }
    }
}

impl<W: NonblockingWriter> Background for SharedOutput<'_, W> {
    fn advance(&self) {
        if let Ok(mut held) = self.held.try_borrow_mut() {
            held.try_flush();
        }
    }
}
