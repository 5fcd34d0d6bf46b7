ghost use Rattle.std.specs.Prelude.{◌≡◌, ◌++◌, ℕ, List, IfOk, IfSome, IsTrue};
ghost use Rattle.sqlite_pool.specs.Header.{first_page};
ghost use Rattle.sqlite_wal.specs.Recovery.{IsIgnored};
ghost use Rattle.kt_dbfile.specs.Inner.NewFiles.{HoldsEmpty, IsNewNameOf, IsOwnName};
ghost use Rattle.std.specs.Str.{chars};

use kt_base::{NoMemory, Text, emit};
use std::fs::{File, Metadata, OpenFile, OpenOptions, Permissions};
use std::io::{ErrorKind, Read};
use std::os::unix::fs::{MetadataExt, PermissionsExt};
use std::rt::Files;
use std::{fs, io};

/// The page size of a new results file, in bytes (docs/DECISIONS.md).
const PAGE_SIZE: usize = 1_024;

/// The size below which a log can't have a frame, in bytes. SQLite ignores a shorter log.
pub(crate) const MIN_LOG_BYTES: usize = 56;

/// The permission bits with which the owner can read and write a file.
const OWNER_RIGHTS: u32 = 0o600;

/// The first 24 bytes of a new results file. They give the format, pages of 0x0400 bytes, a log for
/// writers and readers, no reserved bytes in a page, and the payload fractions.
const HEADER: [u8; 24] = *b"SQLite format 3\0\x04\x00\x02\x02\x00\x40\x20\x20";

/// Returns the only page of an empty database (SQLite's "Database File Format", sections 1.3 and
/// 1.6).
fn first_page() -> [u8; PAGE_SIZE]
    ensures exact { result ≡ first_page 1024 }
    // Holds without a log, and with a log that SQLite ignores.
    ensures holds { (log : List ℕ) → IsIgnored log
        → HoldsEmpty (record { log = log; db = result }) }
{
    let mut page = [0; PAGE_SIZE];
    page[..24].copy_from_slice(&HEADER);
    // The number of pages, the version and the format of the schema, and UTF-8.
    page[31] = 1;
    page[43] = 1;
    page[47] = 4;
    page[59] = 1;
    // The version of SQLite that writes such a page: 3,045,000.
    page[97] = 46;
    page[98] = 118;
    page[99] = 136;
    // The schema: a table leaf without cells, whose content begins at the end of the page.
    page[100] = 13;
    page[105] = 4;
    page
}

/// Creates an empty file at `path`, and opens it for reads and writes. Fails if a file of any type
/// exists at `path`. `path` is `results`, the path of the results file, or `results` with `-new`
/// appended. The umask applies, but the owner then gets the rights to read and write.
// Tested, not proved: results_file_creation_is_atomic.
fn create_file<R: Files>(rt: &R, results: &Text, path: &Text) -> io::Result<R::File>
    requires { IsOwnName results.now path.now }
{
    let made = OpenOptions::new()
        .read(true)
        .write(true)
        .create_new(true)
        .open(rt, path.as_str())?;
    let Ok(found) = made.metadata() else {
        return Ok(made);
    };
    let mode = found.permissions().mode();
    if mode & OWNER_RIGHTS != OWNER_RIGHTS {
        let _ = made.set_permissions(Permissions::from_mode(mode | OWNER_RIGHTS));
    }
    Ok(made)
}

/// Returns the path `file` with the suffix `ending` appended.
fn path_with_suffix(file: &Text, ending: &str) -> Result<Text, NoMemory>
    ensures { IfOk result (λ name. name ≡ file.now ++ chars ending.now) }
{
    let mut name = file.copy()?;
    name.push_str(ending)?;
    Ok(name)
}

/// Returns the path of the unfinished results file: `file` with `-new` appended.
fn new_path(file: &Text) -> Result<Text, NoMemory>
    ensures { IfOk result (IsNewNameOf file.now) }
{
    path_with_suffix(file, "-new")
}

/// Returns `true` if the log of the results file `file` may have a frame. Such a log has at least
/// 56 bytes, isn't a regular file, or can't be examined. SQLite would replay the frames of such a
/// log into a new file.
// Tested, not proved: results_file_creation_is_atomic.
fn may_have_frames<R: Files>(rt: &R, file: &Text) -> Result<bool, NoMemory> {
    let log = path_with_suffix(file, "-wal")?;
    Ok(match fs::symlink_metadata(rt, log.as_str()) {
        Ok(found) => !found.is_file() || MIN_LOG_BYTES as u64 <= found.len(),
        Err(error) => error.kind() != ErrorKind::NotFound,
    })
}

/// Opens the unfinished results file at the path `name`, so that its first page can be written.
/// Creates the file, unless a killed process left one. `results` is the path of the finished file.
/// Returns `None` if something other than a regular file has the path `name`, or if the open fails.
// Tested, not proved: results_file_creation_is_atomic.
fn open_new_file<R: Files<File = File>>(rt: &R, results: &Text, name: &Text) -> Option<File>
    requires { IsNewNameOf results.now name.now }
{
    match create_file(rt, results, name) {
        Ok(made) => Some(made),
        Err(error) if error.kind() == ErrorKind::AlreadyExists => {
            let found = fs::symlink_metadata(rt, name.as_str()).ok()?;
            if !found.is_file() {
                return None;
            }
            OpenOptions::new()
                .read(true)
                .write(true)
                .open(rt, name.as_str())
                .ok()
        }
        Err(_fault) => None,
    }
}

/// Writes the missing bytes of the first page to the file `made`. Returns `true` if the page is on
/// the disk, and `false` if the write or the sync fails. Returns `None` if another process has
/// locked the file, or if the file can't be read or has other bytes.
// Tested, not proved: results_file_creation_is_atomic.
fn complete_first_page(made: &mut File) -> Option<bool> {
    made.try_lock().ok()?;
    let mut found = [0; PAGE_SIZE + 1];
    let length = made.read(&mut found).ok()?;
    let page = first_page();
    let rest = page.strip_prefix(&found[..length])?;
    Some(emit(rest, made).is_ok() && made.sync_all().is_ok())
}

/// Creates the results file `results` as a hard link to the complete file `name`, and returns
/// `true` on success. A rename would replace a file that another process created.
fn link_results_file<R: Files>(rt: &R, results: &Text, name: &Text) -> bool
    requires { IsNewNameOf results.now name.now }
{
    fs::hard_link(rt, name.as_str(), results.as_str()).is_ok()
}

/// Removes `name`, the `-new` path of the results file `results`. Ignores a failure.
fn remove_new_file<R: Files>(rt: &R, results: &Text, name: &Text)
    requires { IsNewNameOf results.now name.now }
{
    let _ = fs::remove_file(rt, name.as_str());
}

/// Creates an empty database at the path `file`, and returns `true` on success. The file gets this
/// path once it is complete and on the disk. Returns `false` if an older log is present or a step
/// fails.
fn create_database<R: Files<File = File>>(rt: &R, file: &Text) -> Result<bool, NoMemory> {
    if may_have_frames(rt, file)? {
        return Ok(false);
    }
    let new = new_path(file)?;
    let Some(mut made) = open_new_file(rt, file, &new) else {
        return Ok(false);
    };
    let Some(is_complete) = complete_first_page(&mut made) else {
        return Ok(false);
    };
    let is_named = is_complete && link_results_file(rt, file, &new);
    remove_new_file(rt, file, &new);
    Ok(is_named)
}

/// An identity of a file: its device and inode numbers, which all its paths share.
#[derive(Clone, Copy)]
struct FileId {
    /// The number of the device that contains the file.
    device: u64,
    /// The inode number of the file on the device.
    inode: u64,
}

/// Returns the device and inode numbers in `found`, the metadata of a file.
// Tested, not proved: results_file_creation_is_atomic.
fn file_id(found: &Metadata) -> FileId {
    FileId {
        device: found.dev(),
        inode: found.ino(),
    }
}

/// Returns `true` if `one` and `other` identify the same file.
fn is_same_file(one: FileId, other: FileId) -> bool
    ensures { IsTrue result → one ≡ other }
{
    one.device == other.device && one.inode == other.inode
}

/// A path that ends in `-new`, with the identity of its file.
#[derive(Drop)]
struct NewPath {
    /// The path, which ends in `-new`.
    name: Text,
    /// The identity of the file at the path.
    id: FileId,
}

/// Returns the path `file` with `-new` appended, and the identity of the file at this path. Returns
/// `None` if there is no such file or a call fails.
fn find_new_path<R: Files>(rt: &R, file: &Text) -> Option<NewPath>
    ensures { IfSome result (λ it. IsNewNameOf file.now it.name) }
{
    let name = new_path(file).ok()?;
    let found = fs::symlink_metadata(rt, name.as_str()).ok()?;
    let id = file_id(&found);
    Some(NewPath { name, id })
}

/// Removes the path `first`, which is `file` with `-new` appended and names the results file.
/// `results` is the identity of the results file. Ignores a failure.
fn remove_new_path<R: Files>(rt: &R, results: FileId, file: &Text, first: &NewPath)
    requires name { IsNewNameOf file.now first.now.name }
    requires same { first.now.id ≡ results }
{
    let _ = fs::remove_file(rt, first.name.as_str());
}

/// Returns the directory of the path `file`, or `.` if the path has no slash.
pub(crate) fn parent_directory(file: &str) -> &str {
    match file.rsplit_once('/') {
        Some(("", _)) => "/",
        Some((directory, _)) => directory,
        None => ".",
    }
}

/// Removes `path` if it ends in `-new` and names the results file, whose identity is `results`.
///
/// Returns `None` if an allocation for the path without `-new` fails. Any other failure is ignored.
fn remove_if_same_file<R: Files + AllocGlobal>(rt: &R, path: &str, results: FileId) -> Option<()> {
    let Some(front) = path.strip_suffix("-new") else {
        return Some(());
    };
    let file = Text::from_str(rt.alloc(), front).ok()?;
    if let Some(first) = find_new_path(rt, &file) {
        if is_same_file(first.id, results) {
            remove_new_path(rt, results, &file, &first);
        }
    }
    Some(())
}

/// Removes each path in the directory of `file` that ends in `-new` and names the results file,
/// whose identity is `results`. A killed process left such a path, and `file` may have been renamed
/// since. A file with two paths can't be opened. Returns `None` if the directory can't be read to
/// its end, or if an allocation fails.
fn remove_new_paths<R: Files + AllocGlobal + Clone + Drop>(
    rt: &R,
    file: &Text,
    results: FileId,
) -> Option<()> {
    for entry in fs::read_dir(rt, parent_directory(file.as_str())).ok()? {
        let entry = entry.ok()?;
        remove_if_same_file(rt, entry.path().to_string_lossy(), results)?;
    }
    Some(())
}

/// Creates the results file at the path `file` if it doesn't exist. If it exists, removes the other
/// hard links to it in its directory whose names end in `-new`.
///
/// The new file is a database without tables. If this database can't be created, the new file has
/// no bytes. For example, the file system may have no hard links, or an older log may be present.
/// The later open of the results turns an empty file into a database with larger pages. The content
/// of an existing file isn't changed. A failure is reported by the later open, which also creates
/// the log, with the file's permissions.
pub(crate) fn create_missing_file<R: Files<File = File> + AllocGlobal + Clone + Drop>(
    rt: &R,
    file: &Text,
) {
    match fs::symlink_metadata(rt, file.as_str()) {
        Ok(found) => {
            if found.nlink() > 1 {
                let _ = remove_new_paths(rt, file, file_id(&found));
            }
        }
        Err(_missing) => {
            if !matches!(create_database(rt, file), Ok(true)) {
                let _ = create_file(rt, file, file);
            }
        }
    }
}
