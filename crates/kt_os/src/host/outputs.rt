ghost use Rattle.std.specs.Prelude.{◌≡◌, IfOk};
ghost use Rattle.kt_os.specs.Common.{queue_path};

use crate::OsFault;
use crate::host::into_os_result;
use kt_base::{NoMemory, Text};
use kt_removal::{Removals, numbered_path};
use std::alloc::Global;
use std::fs::{DirBuilder, Metadata, OpenFile, OpenOptions, Permissions};
use std::io::ErrorKind;
use std::os::unix::fs::{DirBuilderExt, MetadataExt, OpenOptionsExt, PermissionsExt};
use std::rt::Files;
use std::{fs, io};

/// The mode of a directory that only its owner may enter (this profile).
const PRIVATE_MODE: u32 = 0o700;

/// The mode of a directory that the user root owns. Other users may pass through it, since a case
/// may change its user (this profile).
const PASSABLE_MODE: u32 = 0o711;

/// The mode of a work directory if the user root runs the cases (this profile).
const WORK_MODE: u32 = 0o755;

/// The mode of an output file (this profile).
const OUTPUT_MODE: u32 = 0o600;

/// A pair of facts that decide the modes of new directories and files. They are whether the user
/// root owns the driver's root directory, and whether the umask removes a needed permission.
#[derive(Clone, Copy)]
pub(crate) struct Rights {
    /// `true` if the user root owns the driver's root directory, which contains all attempts.
    of_root: bool,
    /// `true` if the umask removes a permission that new directories and files need, or if that is
    /// unknown.
    umask_removes: bool,
}

impl Rights {
    /// The facts about owner and umask that are assumed before the first directory is created.
    pub(crate) const NONE: Rights = Rights {
        of_root: false,
        umask_removes: false,
    };
}

/// Sets the mode of a new directory. Removes the directory if that fails.
fn set_dir_mode<R: Files>(rt: &R, path: &str, mode: u32) -> io::Result<()> {
    let given = fs::set_permissions(rt, path, Permissions::from_mode(mode));
    if given.is_err() {
        let _ = fs::remove_dir(rt, path);
    }
    given
}

/// Creates a directory with a mode. Sets the mode again if `umask_removes` is `true`, since the
/// umask may have removed permissions.
fn create_dir_of_mode<R: Files>(
    rt: &R,
    dir: &str,
    mode: u32,
    umask_removes: bool,
) -> io::Result<()> {
    DirBuilder::new().mode(mode).create(rt, dir)?;
    if umask_removes {
        set_dir_mode(rt, dir, mode)
    } else {
        Ok(())
    }
}

/// Creates the directory of an attempt, or its work directory, whose path ends in `/work`.
///
/// The mode is 0700. If the user root owns the driver's root directory, it is 0711 for the attempt
/// and 0755 for the work directory.
pub(crate) fn create_directory<R: Files>(rt: &R, dir: &str, rights: Rights) -> io::Result<()> {
    let mode = if !rights.of_root {
        PRIVATE_MODE
    } else if dir.ends_with("/work") {
        WORK_MODE
    } else {
        PASSABLE_MODE
    };
    create_dir_of_mode(rt, dir, mode, rights.umask_removes)
}

/// Returns `true` if a new directory with the metadata `made` has all permissions of the mode
/// `mode`.
fn has_mode(made: &Metadata, mode: u32) -> bool {
    made.permissions().mode() & mode == mode
}

/// Creates the driver's root directory, with the mode 0711 if the user root owns it and otherwise
/// 0700. Returns the facts that decide the modes of later directories and files.
fn create_root_dir<R: Files>(rt: &R, path: &str) -> io::Result<Rights> {
    create_dir_of_mode(rt, path, PRIVATE_MODE, false)?;
    let rights = match fs::symlink_metadata(rt, path) {
        Ok(made) => Rights {
            of_root: made.uid() == 0,
            umask_removes: !has_mode(&made, PRIVATE_MODE),
        },
        Err(_) => Rights {
            of_root: false,
            umask_removes: true,
        },
    };
    if rights.of_root {
        set_dir_mode(rt, path, PASSABLE_MODE)?;
    } else if rights.umask_removes {
        set_dir_mode(rt, path, PRIVATE_MODE)?;
    }
    Ok(rights)
}

/// Creates the queue directory `place`, to which removals move other directories, with the mode
/// 0700.
///
/// `rights` has the facts about the driver's root directory. If the user root does not own that
/// directory, the result is `rights`. If the user root owns it, `umask_removes` of the result
/// reports the umask: it is `true` if the umask removes a permission of the mode 0755, or if that
/// is unknown.
fn create_queue_dir<R: Files>(rt: &R, place: &str, rights: Rights) -> io::Result<Rights> {
    if !rights.of_root {
        create_dir_of_mode(rt, place, PRIVATE_MODE, rights.umask_removes)?;
        return Ok(rights);
    }
    create_dir_of_mode(rt, place, WORK_MODE, false)?;
    let umask_removes = match fs::symlink_metadata(rt, place) {
        Ok(made) => !has_mode(&made, WORK_MODE),
        Err(_) => true,
    };
    set_dir_mode(rt, place, PRIVATE_MODE)?;
    Ok(Rights {
        of_root: true,
        umask_removes,
    })
}

/// Returns the path of the queue directory in `root`, the driver's root directory. Removals move
/// other directories to the queue directory.
fn queue_path(alloc: Global, root: &Text) -> Result<Text, NoMemory>
    ensures { IfOk result (λ path. path ≡ queue_path root.now) }
{
    numbered_path(alloc, root, "/kyua.", 0)
}

/// Creates the driver's root directory `path` and a queue directory in it, to which removals move
/// directories.
///
/// Returns an empty queue of removals, and the facts that decide the modes of later directories and
/// files. Fails if one of the directories can't be created, or if an allocation fails.
pub(crate) fn create_root<R: Files + AllocGlobal>(
    rt: &R,
    path: &Text,
) -> Result<(Removals, Rights), OsFault>
    ensures root { IfOk result (λ made. made.0.root ≡ path.now) }
    ensures place { IfOk result (λ made. made.0.queue_dir ≡ queue_path path.now) }
{
    let root = path.copy()?;
    let place = queue_path(rt.alloc(), path)?;
    let first = into_os_result(create_root_dir(rt, root.as_str()))?;
    let rights = match into_os_result(create_queue_dir(rt, place.as_str(), first)) {
        Ok(rights) => rights,
        Err(fault) => {
            let _ = fs::remove_dir(rt, root.as_str());
            return Err(fault);
        }
    };
    let removals = into_os_result(Removals::new(rt, root, place))?;
    Ok((removals, rights))
}

/// Returns `true` if the parent of a path is a directory and not a symbolic link.
///
/// Returns `false` for a path without a slash. Fails if the metadata of the parent can't be read.
fn has_parent_dir<R: Files>(rt: &R, path: &str) -> io::Result<bool> {
    match path.rsplit_once('/') {
        Some((parent, _)) => Ok(fs::symlink_metadata(rt, parent)?.is_dir()),
        None => Ok(false),
    }
}

/// Creates an output file that only its owner may read and write.
///
/// Fails if the path exists or the parent is not a directory. `second` is `true` for the second
/// file of a child, whose parent is not checked again.
pub(crate) fn create_output<R: Files>(
    rt: &R,
    path: &str,
    second: bool,
    rights: Rights,
) -> io::Result<R::File> {
    if !second && !has_parent_dir(rt, path)? {
        return Err(io::Error::from(ErrorKind::InvalidInput));
    }
    let file = OpenOptions::new()
        .write(true)
        .create_new(true)
        .mode(OUTPUT_MODE)
        .open(rt, path)?;
    if rights.umask_removes {
        file.set_permissions(Permissions::from_mode(OUTPUT_MODE))?;
    }
    Ok(file)
}
