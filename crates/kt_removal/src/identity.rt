use std::io::ErrorKind;
use std::os::unix::fs::MetadataExt;
use std::rt::Files;
use std::{fs, io};

/// An identity of a directory: its device and inode number, which don't depend on its path.
#[derive(Clone, Copy)]
pub struct DirIdentity {
    /// The number of the device that contains the directory.
    pub(crate) device: u64,
    /// The inode number of the directory on its device.
    number: u64,
}

impl DirIdentity {
    ghost use Rattle.std.specs.Prelude.{◌≡◌, ◌↔◌, IsTrue};

    /// Returns the identity of the directory at `path`.
    ///
    /// # Errors
    ///
    /// - `NotADirectory`: `path` is a symbolic link or a file of another type.
    /// - Any other error: the status of `path` can't be read.
    pub fn from_path<R: Files>(rt: &R, path: &str) -> io::Result<DirIdentity> {
        let found = fs::symlink_metadata(rt, path)?;
        if !found.is_dir() {
            return Err(io::Error::from(ErrorKind::NotADirectory));
        }
        Ok(DirIdentity {
            device: found.dev(),
            number: found.ino(),
        })
    }

    /// Returns `true` if `self` and `other` are identities of the same directory.
    fn is_same(self, other: DirIdentity) -> bool
        ensures { IsTrue result ↔ ((self.device ≡ other.device) × (self.number ≡ other.number)) }
    {
        self.device == other.device && self.number == other.number
    }

    /// Returns `true` if the directory at `path` has this identity. Returns `false` for a symbolic
    /// link to the directory, and if the status of `path` can't be read.
    pub(crate) fn is_at<R: Files>(self, rt: &R, path: &str) -> bool {
        match DirIdentity::from_path(rt, path) {
            Ok(found) => self.is_same(found),
            Err(_) => false,
        }
    }
}
