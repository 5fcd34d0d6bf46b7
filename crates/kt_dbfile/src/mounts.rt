use crate::new_file::parent_directory;
use kt_base::Text;
use std::fs::{self, File};
use std::io::Read;
use std::os::fd::AsRawFd;
use std::rt::Files;
use std::str;

/// The maximum number of bytes that are read from the start of a file's `fdinfo`
/// (proc_pid_fdinfo(5)). The number of the mount is in the third line.
const MAX_INFO_BYTES: usize = 256;

/// Returns the mount number in `info`, the text of a file's `fdinfo` (proc_pid_fdinfo(5)), or
/// `None` if the text has none.
fn parse_mount_id(info: &str) -> Option<u64> {
    for line in info.split('\n') {
        if let Some(number) = line.strip_prefix("mnt_id:\t") {
            return number.parse::<u64>().ok();
        }
    }
    None
}

/// Returns the number of the mount that contains the open file `file`, or `None` if the number
/// can't be read from `/proc`.
fn read_mount_id<R: Files<File = File> + AllocGlobal>(rt: &R, file: &File) -> Option<u64> {
    let path = format!(in rt.alloc(); "/proc/self/fdinfo/{}", file.as_raw_fd()).ok()?;
    let mut list = File::open(rt, path.as_str()).ok()?;
    let mut info = [0u8; MAX_INFO_BYTES];
    let count = list.read(&mut info).ok()?;
    parse_mount_id(str::from_utf8(&info[..count]).ok()?)
}

/// Returns `true` if the regular file at `path` is in another mount than its directory. Returns
/// `None` if the path isn't a regular file, or if a mount can't be determined.
fn is_on_other_mount<R: Files<File = File> + AllocGlobal>(rt: &R, path: &str) -> Option<bool> {
    if !fs::symlink_metadata(rt, path).ok()?.is_file() {
        return None;
    }
    let file = File::open(rt, path).ok()?;
    let directory = File::open(rt, parent_directory(path)).ok()?;
    Some(read_mount_id(rt, &file)? != read_mount_id(rt, &directory)?)
}

/// Returns `true` if the file at the path `file` is mounted as a single file. Symbolic links are
/// followed.
///
/// Each path of such a file has a separate log next to it. A command that opens one path misses the
/// log that a killed command left next to another. Returns `false` if there is no regular file at
/// the path, or if a mount can't be determined.
// Tested, not proved: results_file_mounted_alone_exits_2.
pub(crate) fn is_mounted_alone<R: Files<File = File> + AllocGlobal>(rt: &R, file: &Text) -> bool {
    match fs::canonicalize(rt, file.as_str()) {
        Ok(path) => is_on_other_mount(rt, path.as_str()).unwrap_or(false),
        Err(_fault) => false,
    }
}
