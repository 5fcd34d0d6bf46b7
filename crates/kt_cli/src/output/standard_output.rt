use crate::NonblockingWriter;
use crate::output::spool::Spool;
use libc::net::{POLLOUT, poll};
use libc::types::pollfd;
use std::fs::{File, OpenOptions};
use std::io::{ErrorKind, Print, Write};
use std::os::fd::AsRawFd;
use std::os::unix::fs::FileTypeExt;
use std::rt::{Env, Files};
use std::{fs, io};

/// The minimum number of bytes that a writable pipe takes (limits.h, `PIPE_BUF`).
const PIPE_BUF: usize = 4_096;

/// The path by which a process can open its standard output on Linux (proc(5)).
const PATH: &str = "/proc/self/fd/1";

/// A handle of the standard output of the process.
#[derive(Drop)]
pub struct StandardOutput<'a, R> {
    /// The runtime, through which standard output is written.
    rt: &'a R,
    /// A second descriptor of standard output, or `None` if standard output is neither a terminal
    /// nor a pipe, or can't be opened again.
    ///
    /// Writes to this descriptor don't wait, while writes to the inherited descriptor do. A
    /// terminal or pipe that can't be opened again is polled before each write. Polling alone is
    /// not enough for a terminal, which may be ready for one byte only.
    reopened: Option<File>,
    /// Whether standard output is a file or a device, whose writes wait for no reader.
    is_file: bool,
    /// The file with the bytes that the next write or flush writes first, if there are any.
    spool: Option<Spool>,
}

/// Returns `true` if standard output can take bytes now, or if poll(2) fails.
fn is_ready() -> bool {
    let mut asked = [pollfd {
        fd: libc::STDOUT_FILENO,
        events: POLLOUT,
        revents: 0,
    }];
    poll(&mut asked, 0) != 0
}

/// Returns `true` if standard output is known to be neither a terminal nor a pipe nor a socket.
fn is_file<R: Files>(rt: &R) -> bool {
    if libc::isatty(libc::STDOUT_FILENO) == 1 {
        return false;
    }
    match fs::metadata(rt, PATH) {
        Ok(found) => !found.file_type().is_fifo() && !found.file_type().is_socket(),
        Err(_) => false,
    }
}

/// Returns `true` if standard output is a pipe.
fn is_pipe<R: Files>(rt: &R) -> bool {
    fs::metadata(rt, PATH).is_ok_and(|found| found.file_type().is_fifo())
}

/// Opens standard output a second time, to write to it, in non-blocking mode. Returns `None` if a
/// call fails.
fn reopen_output<R: Files<File = File>>(rt: &R) -> Option<File> {
    let opened = OpenOptions::new().write(true).open(rt, PATH);
    let reopened = opened.ok()?;
    if os::set_nonblocking(reopened.as_raw_fd(), true) == 0 {
        Some(reopened)
    } else {
        None
    }
}

/// Opens standard output a second time if it is a pipe. Returns `None` if it is not a pipe, or if a
/// call fails.
fn open_pipe<R: Files<File = File>>(rt: &R) -> Option<File> {
    if !is_pipe(rt) {
        return None;
    }
    // Opening a pipe without a reader would wait for one, so this is a reader meanwhile.
    let reader = OpenOptions::new().read(true).open(rt, PATH);
    let _reader = reader.ok()?;
    reopen_output(rt)
}

/// Opens standard output a second time if it is a terminal. Returns `None` if it is not a terminal,
/// or if a call fails.
fn open_terminal<R: Files<File = File>>(rt: &R) -> Option<File> {
    if libc::isatty(libc::STDOUT_FILENO) != 1 {
        return None;
    }
    reopen_output(rt)
}

impl<'a, R: Files<File = File>> StandardOutput<'a, R> {
    /// Creates a handle of standard output. If it is a terminal or a pipe, this opens it a second
    /// time.
    pub fn new(rt: &'a R) -> StandardOutput<'a, R> {
        StandardOutput {
            rt,
            reopened: open_terminal(rt).or_else(|| open_pipe(rt)),
            is_file: is_file(rt),
            spool: None,
        }
    }
}

impl<R: Print> StandardOutput<'_, R> {
    /// Writes the bytes in the spool, if there is one, and waits for the reader. Fails if a read of
    /// the spool or a write fails.
    fn write_spool(&mut self) -> io::Result<()> {
        match self.spool.take() {
            Some(mut spool) => spool.print_all(self.rt),
            None => Ok(()),
        }
    }
}

impl<R: Print> Write for StandardOutput<'_, R> {
    fn write(&mut self, buf: &[u8]) -> io::Result<usize> {
        self.write_spool()?;
        self.rt.write_some(buf)
    }

    fn flush(&mut self) -> io::Result<()> {
        self.write_spool()
    }
}

impl<R: Env + Print> NonblockingWriter for StandardOutput<'_, R> {
    fn try_write(&mut self, buf: &[u8]) -> io::Result<usize> {
        if self.spool.is_some() {
            return Ok(0);
        }
        if let Some(reopened) = &mut self.reopened {
            return match reopened.write(buf) {
                Err(fault) if fault.kind() == ErrorKind::WouldBlock => Ok(0),
                answer => answer,
            };
        }
        if self.is_file {
            return self.rt.write_some(buf);
        }
        if !is_ready() {
            return Ok(0);
        }
        self.rt.write_some(&buf[..buf.len().min(PIPE_BUF)])
    }

    fn spool_bytes(&mut self, buf: &[u8]) -> io::Result<()> {
        let mut spool = match self.spool.take() {
            Some(spool) => spool,
            None => Spool::create(self.rt)?,
        };
        let appended = spool.append(buf);
        self.spool = Some(spool);
        appended
    }
}
