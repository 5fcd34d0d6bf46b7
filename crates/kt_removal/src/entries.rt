ghost use Rattle.std.specs.Prelude.{◌≡◌, ◌++◌, ◌∷◌, IfOk};
ghost use Rattle.kt_removal.specs.Common.{MayEmpty, MayRemove, is_entry_name, queued_dir, utf8};

use crate::state::Removals;
use kt_base::{Bytes, NoMemory, Text};
use std::alloc::Global;
use std::fs::Permissions;
use std::os::unix::fs::{MetadataExt, PermissionsExt};
use std::rt::Files;
use std::{fs, io, str};

/// The mode bits that let the owner read, write and search a directory.
const OWNER_RIGHTS: u32 = 0o700;

/// Returns the path of the entry `name` of the directory `directory`. The name may contain any
/// bytes.
pub(crate) fn entry_path(alloc: Global, directory: &Text, name: &[u8]) -> Result<Bytes, NoMemory>
    ensures { IfOk result (λ path. path ≡ utf8 directory.now ++ 47 ∷ name.now) }
{
    let mut path = Bytes::from_slice(alloc, directory.as_bytes())?;
    path.append(b"/")?;
    path.append(name)?;
    Ok(path)
}

/// Returns `true` if `name` can be the name of a directory's entry: not empty, without a slash, and
/// neither `.` nor `..`.
pub(crate) fn is_entry_name(name: &[u8]) -> bool
    ensures { result ≡ is_entry_name name.now }
{
    name != b"".as_slice()
        && name != b".".as_slice()
        && name != b"..".as_slice()
        && !name.contains(&b'/')
}

/// Converts the return value of a system call to a result: an error with the number `errno` if the
/// value is not 0.
fn result_of_status(status: i32) -> io::Result<()> {
    if status == 0 {
        Ok(())
    } else {
        Err(io::Error::from_raw_os_error(os::errno()))
    }
}

// Only these methods remove or move files, so their clauses bound what a removal may touch.
impl Removals {
    /// Removes the file or symbolic link at `path`. Fails if `path` is a directory or can't be
    /// removed.
    pub(crate) fn remove_file<R: Files>(&self, rt: &R, path: &[u8]) -> io::Result<()>
        requires { MayRemove self.now path.now }
    {
        match str::from_utf8(path) {
            Ok(text) => fs::remove_file(rt, text),
            Err(_) => result_of_status(os::unlink(path)),
        }
    }

    /// Removes the empty directory at `path`. Fails if `path` is a file or a directory with
    /// entries, or can't be removed.
    pub(crate) fn remove_empty_dir<R: Files>(&self, rt: &R, path: &[u8]) -> io::Result<()>
        requires { MayRemove self.now path.now }
    {
        match str::from_utf8(path) {
            Ok(text) => fs::remove_dir(rt, text),
            Err(_) => result_of_status(os::rmdir(path)),
        }
    }

    /// Removes the directory `directory` if it is empty. Returns `true` if it was removed.
    pub(crate) fn remove_if_empty<R: Files>(&self, rt: &R, directory: &Text) -> bool
        requires { MayEmpty self.now directory.now }
    {
        fs::remove_dir(rt, directory.as_str()).is_ok()
    }

    /// Moves the directory `path` to `to`, a path in the queue directory with the next unused
    /// number.
    ///
    /// Fails if the directory can't be renamed.
    pub(crate) fn move_into_queue<R: Files>(&self, rt: &R, path: &[u8], to: &Text) -> io::Result<()>
        requires from { MayRemove self.now path.now }
        requires to { to.now ≡ queued_dir self.now.queue_dir self.now.next_number }
    {
        match str::from_utf8(path) {
            Ok(text) => fs::rename(rt, text, to.as_str()),
            Err(_) => result_of_status(os::rename(path, to.as_bytes())),
        }
    }

    /// Sets the mode of the directory `path` to 0700. Returns `true` on success.
    ///
    /// The caller has found `path` to be a directory with entries, so it is not a symbolic link.
    pub(crate) fn set_owner_mode(&self, path: &[u8]) -> bool
        requires { MayRemove self.now path.now }
    {
        os::chmod(path, OWNER_RIGHTS) == 0
    }

    /// Makes the directory `path` accessible to its owner. Returns `true` if it may be emptied.
    ///
    /// The mode becomes 0700 if the owner may not read, write or search the directory. A failure to
    /// set the mode is ignored.
    ///
    /// Returns `false` if the status of `path` can't be read, or if `path` is not a directory. A
    /// symbolic link is not a directory. Returns `false`, too, if `path` is on another device than
    /// the root directory, since then a file system is mounted at `path`.
    pub(crate) fn make_accessible<R: Files>(&self, rt: &R, path: &Text) -> bool
        requires { MayEmpty self.now path.now }
    {
        match fs::symlink_metadata(rt, path.as_str()) {
            Ok(metadata) => {
                if !metadata.is_dir() || metadata.dev() != self.root_identity.device {
                    return false;
                }
                if metadata.permissions().mode() & OWNER_RIGHTS != OWNER_RIGHTS {
                    let _ = fs::set_permissions(
                        rt,
                        path.as_str(),
                        Permissions::from_mode(OWNER_RIGHTS),
                    );
                }
                true
            }
            Err(_) => false,
        }
    }

    /// Opens the directory `path` to read the names of its entries. Returns `None` if that fails,
    /// or if [`Self::make_accessible`] returns `false`.
    pub(crate) fn open_directory<R: Files>(&self, rt: &R, path: &Text) -> Option<R::Dir>
        requires { MayEmpty self.now path.now }
    {
        if !self.make_accessible(rt, path) {
            return None;
        }
        rt.open_dir(path.as_str()).ok()
    }
}
