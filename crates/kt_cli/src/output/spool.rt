ghost use Rattle.std.specs.Prelude.{◌≡◌, ◌<◌, ◌≤◌, pos, IfOk};

use std::io;
use std::io::{ErrorKind, Print};
use std::rt::Env;

/// The length of the longest path that the host accepts, in bytes.
const MAX_PATH_BYTES: usize = 4_095;

/// The directory of a spool's file if the environment variable `TMPDIR` is unset, empty or too
/// long.
const DIRECTORY: &[u8] = b"/tmp";

/// The last part of the path of a spool's file. mkstemp(3) replaces its six last characters.
const NAME: &[u8] = b"/kyua.XXXXXX";

/// The maximum length of the path of the directory of a spool's file, in bytes.
const MAX_DIRECTORY_BYTES: usize = MAX_PATH_BYTES - NAME.len();

/// The maximum number of bytes that one read of a spool returns.
const BLOCK_BYTES: usize = 65_536;

/// A file without a name that stores bytes until they are written to standard output, in order.
///
/// The file exists until the process exits.
#[derive(Drop)]
pub struct Spool {
    /// The descriptor of the spool's file.
    fd: i32,
    /// The offset in the spool's file, in bytes, of the first byte that is not written to standard
    /// output yet.
    start: u64,
    /// The number of bytes in the spool's file that are not written to standard output yet.
    left: u64,
}

/// Converts `answer`, the result of a system call, to the number of bytes that the call read or
/// wrote.
///
/// Fails if the call failed, or if the number is 0.
fn byte_count(answer: isize) -> io::Result<usize>
    ensures { IfOk result (λ count. (0 < count) × (answer ≡ pos count)) }
{
    match usize::try_from(answer) {
        Ok(0) => Err(io::Error::from(ErrorKind::WriteZero)),
        Ok(count) => Ok(count),
        Err(_) => Err(io::Error::from_raw_os_error(os::errno())),
    }
}

/// Writes the template of a spool's path, for mkstemp(3), to `path`, and returns the length of the
/// template in bytes.
fn write_path_template<R: Env>(rt: &R, path: &mut [u8; MAX_PATH_BYTES]) -> usize
    ensures { result ≤ 4095 }
{
    let length = match rt.var("TMPDIR", &mut path[..MAX_DIRECTORY_BYTES]) {
        Ok(length) if length > 0 => length,
        _ => {
            path[..DIRECTORY.len()].copy_from_slice(DIRECTORY);
            DIRECTORY.len()
        }
    };
    path[length..length + NAME.len()].copy_from_slice(NAME);
    length + NAME.len()
}

impl Spool {
    /// Creates an empty file in the directory that the environment variable `TMPDIR` names, or in
    /// `/tmp` if the variable is unset, empty or too long. The file's name is removed at once.
    ///
    /// # Errors
    ///
    /// - an `io::Error`: the file can't be created.
    pub fn create<R: Env>(rt: &R) -> io::Result<Spool> {
        let mut room = [0u8; MAX_PATH_BYTES];
        let length = write_path_template(rt, &mut room);
        let path = &mut room[..length];
        let fd = os::create_temp(path);
        if fd < 0 {
            return Err(io::Error::from_raw_os_error(os::errno()));
        }
        let _ = os::unlink(path);
        Ok(Spool {
            fd,
            start: 0,
            left: 0,
        })
    }

    /// Appends bytes to the spool's file.
    ///
    /// # Errors
    ///
    /// - an `io::Error`: a write fails. Nothing is appended.
    pub fn append(&mut self, bytes: &[u8]) -> io::Result<()> {
        let mut rest = bytes;
        let mut end = self.start.saturating_add(self.left);
        while !rest.is_empty() {
            let count = byte_count(libc::pwrite(self.fd, rest, end.cast_signed()))?;
            rest = &rest[count..];
            end = end.saturating_add(count as u64);
        }
        self.left = end.saturating_sub(self.start);
        Ok(())
    }

    /// Writes all bytes of the spool that are not written yet to standard output, in order. Waits
    /// while the reader of standard output takes no bytes.
    ///
    /// # Errors
    ///
    /// - an `io::Error`: a read or a write fails.
    pub fn print_all<R: Print>(&mut self, rt: &R) -> io::Result<()> {
        let mut room = [0u8; BLOCK_BYTES];
        while self.left > 0 {
            let most = self.left.min(BLOCK_BYTES as u64) as usize;
            let start = self.start.cast_signed();
            let count = byte_count(libc::pread(self.fd, &mut room[..most], start))?;
            rt.write_all(&room[..count])?;
            self.start = self.start.saturating_add(count as u64);
            self.left -= count as u64;
        }
        Ok(())
    }
}
