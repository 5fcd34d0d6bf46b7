use crate::host::file_start::read_up_to;
use std::alloc::Global;
use std::fs::{File, Metadata};
use std::os::unix::fs::MetadataExt;
use std::rt::Files;

/// The greatest number of bytes that are read from `/proc/locks`.
const MAX_LOCKS_BYTES: usize = 1_048_576;

/// Returns `true` if a list of locks (proc_locks(5)) contains a lease on a file. `file` is the
/// file's device and inode number in the form of that list.
fn has_lease(locks: &str, file: &str) -> bool {
    for line in locks.split('\n') {
        if line.contains(" LEASE ") && line.contains(file) {
            return true;
        }
    }
    false
}

/// Returns the device and the inode number of a file in the form of proc_locks(5). Returns `None`
/// if an allocation fails.
fn lock_name(alloc: Global, file: &Metadata) -> Option<String> {
    let device = file.dev();
    let major = device >> 8 & 0xfff | device >> 32 & 0xffff_f000;
    let minor = device & 0xff | device >> 12 & 0xffff_ff00;
    let number = file.ino();
    format!(in alloc; " {major:02x}:{minor:02x}:{number} ").ok()
}

/// Returns `true` if a process holds a lease on a file (fcntl(2), `F_SETLEASE`).
///
/// Opening such a file would wait for that process. Returns `true`, too, if the list of locks can't
/// be read or an allocation fails. Returns `false` if the list can't be opened. Only the first
/// 1,048,576 bytes of the list are searched.
pub(crate) fn is_leased<R: Files>(rt: &R, alloc: Global, file: &Metadata) -> bool {
    let Ok(mut list) = File::open(rt, "/proc/locks") else {
        return false;
    };
    let Ok(locks) = read_up_to(alloc, &mut list, MAX_LOCKS_BYTES) else {
        return true;
    };
    match (str::from_utf8(locks.as_slice()), lock_name(alloc, file)) {
        (Ok(locks), Some(name)) => has_lease(locks, name.as_str()),
        _ => true,
    }
}
