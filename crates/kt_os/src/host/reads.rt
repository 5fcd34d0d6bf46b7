ghost use Rattle.std.specs.Prelude.{◌≡◌, ◌+◌, ◌<◌, MatchResult, IfOk, OnOk, IfSome};
ghost use Rattle.kt_os.specs.Common.{error_kind, SeeksTo, IsOpenFailure, IsReadOf, IsHostRead, IsNotMissing, ConsumesAtMost};

use crate::host::file_start::read_up_to;
use crate::host::into_os_result;
use crate::host::leases::is_leased;
use crate::{FileRead, OsFault};
use std::alloc::Global;
use std::fs::{File, Metadata, OpenFile, OpenOptions};
use std::io::{ErrorKind, Read, Seek, SeekFrom};
use std::os::unix::fs::MetadataExt;
use std::rt::Files;
use std::{fs, io};

/// Reads at most `limit` bytes of a file, from its current position. Returns the bytes, and whether
/// more bytes follow.
///
/// At most one byte after the limit is read. An interrupted read counts as an error.
///
/// # Errors
///
/// - `Failed`: a read fails, or an allocation fails.
/// - `Memory`: the read of the one byte after the limit fails with the error kind `OutOfMemory`.
pub fn read_and_peek<F: Read>(alloc: Global, file: &mut F, limit: u64) -> Result<FileRead, OsFault>
    ensures within { IsHostRead limit result }
    ensures opened { IsNotMissing result }
    ensures front { IfSome (F.remaining file.old) (λ xs. IsReadOf limit xs result) }
    ensures past { ConsumesAtMost (limit + 1) (F.remaining file.old) (F.remaining file.new) }
{
    let Ok(bytes) = read_up_to(alloc, file, limit as usize) else {
        return Err(OsFault::Failed);
    };
    if (bytes.len() as u64) < limit {
        return Ok(FileRead::Part(bytes, false));
    }
    let mut next = [0u8; 1];
    let count = into_os_result(file.read(&mut next))?;
    Ok(FileRead::Part(bytes, count > 0))
}

/// Returns the metadata of a regular file. Fails for any other file, such as a symbolic link.
fn stat_regular_file<R: Files>(rt: &R, path: &str) -> io::Result<Metadata> {
    let seen = fs::symlink_metadata(rt, path)?;
    if !seen.is_file() {
        return Err(io::Error::from(ErrorKind::InvalidInput));
    }
    Ok(seen)
}

/// Opens a file for reading. `seen` is the metadata that an earlier check of the path returned.
/// Fails if the path now leads to another file.
fn open_same_file<R: Files>(rt: &R, path: &str, seen: &Metadata) -> io::Result<R::File> {
    // Open the file for writing, too, if its permissions allow that: such a call never waits for
    // the other end of a FIFO.
    let file = match OpenOptions::new().read(true).write(true).open(rt, path) {
        Ok(file) => file,
        Err(_) => File::open(rt, path)?,
    };
    let opened = file.metadata()?;
    if opened.ino() == seen.ino() && opened.dev() == seen.dev() {
        Ok(file)
    } else {
        Err(io::Error::from(ErrorKind::InvalidInput))
    }
}

/// Opens a regular file for reading. Fails for any other file.
pub(crate) fn open_regular_file<R: Files>(rt: &R, path: &str) -> io::Result<R::File> {
    let seen = stat_regular_file(rt, path)?;
    open_same_file(rt, path, &seen)
}

/// Opens a regular file for reading. Fails for any other file, and if a process holds a lease on
/// the file, since opening it would wait for that process.
pub(crate) fn open_unleased_file<R: Files + AllocGlobal>(
    rt: &R,
    path: &str,
) -> io::Result<R::File> {
    let seen = stat_regular_file(rt, path)?;
    if is_leased(rt, rt.alloc(), &seen) {
        return Err(io::Error::from(ErrorKind::WouldBlock));
    }
    open_same_file(rt, path, &seen)
}

/// Reads at most `limit` bytes of a file, from the byte `from`, counted from 0. `opened` is the
/// result of opening the file.
///
/// Returns `Missing` if the file was not found. Fails if the file could not be opened for another
/// reason, or if a read fails.
pub(crate) fn read_open_file<F: Read + Seek + Drop>(
    alloc: Global,
    opened: io::Result<F>,
    from: u64,
    limit: u64,
) -> Result<FileRead, OsFault>
    ensures within { IsHostRead limit result }
    ensures opened { MatchResult opened (λ _. IsNotMissing result)
        (λ error. IsOpenFailure (error_kind error) result) }
    ensures front { IfOk opened (λ file. (at : F) × (from ≡ 0 → at ≡ file)
        × OnOk result (SeeksTo from (F.stream_position file) (F.stream_position at))
        × IfSome (F.remaining at) (λ xs. IsReadOf limit xs result)) }
{
    match opened {
        Ok(mut file) => {
            if from > 0 {
                into_os_result(file.seek(SeekFrom::Start(from)))?;
            }
            read_and_peek(alloc, &mut file, limit)
        }
        Err(error) => match error.kind() {
            ErrorKind::NotFound => Ok(FileRead::Missing),
            _ => Err(OsFault::Failed),
        },
    }
}
