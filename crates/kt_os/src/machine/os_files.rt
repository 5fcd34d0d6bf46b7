ghost use Rattle.std.specs.Prelude.{◌≡◌, ◌≤◌, IfOk, length};
ghost use Rattle.kt_os.specs.Common.{may_execute, read_limit};

use crate::host::file_start::read_up_to;
use crate::{FileFault, HostFiles};
use kt_base::{Bytes, LATEST_MOMENT_MILLIS, NoMemory};
use std::fs::File;
use std::io::ErrorKind;
use std::os::unix::fs::PermissionsExt;
use std::rt::{Clock, Files};
use std::time::SystemTime;
use std::{fs, io};

/// The maximum number of bytes that are read from a file. This is one byte more than a Kyuafile or
/// a configuration file may have.
const MAX_FILE_BYTES: usize = 1_048_577;

/// The permission bits for execution by the owner, the group and others.
const EXECUTE_RIGHTS: u32 = 0o111;

/// A `HostFiles` that reads the files and the clock of the host.
#[derive(Drop)]
pub struct OsFiles<'a, R> {
    /// The runtime, through which files and the clock are read.
    pub rt: &'a R,
}

/// Converts the I/O error of a system call on a file to a `FileFault`.
fn to_read_fault(error: io::Error) -> FileFault {
    if let Some(refusal) = NoMemory::from_io_error(&error) {
        return FileFault::Memory(refusal);
    }
    match error.kind() {
        ErrorKind::NotFound => FileFault::Missing,
        _ => FileFault::Failed,
    }
}

/// Returns `true` if the owner, the group or others may execute a file with the permission bits
/// `mode`.
fn may_execute(mode: u32) -> bool
    ensures { result ≡ may_execute mode }
{
    mode & EXECUTE_RIGHTS != 0
}

impl<R: Files<File = File> + Clock + AllocGlobal> HostFiles for OsFiles<'_, R> {
    // The results of the host are restricted only by the contracts of the trait, so this relation
    // is trivial.
    ghost answers = { λ _ _ _. Unit {0} };

    fn read_start(&mut self, path: &str) -> Result<Bytes, FileFault> {
        match fs::metadata(self.rt, path) {
            Ok(metadata) if metadata.is_file() => {}
            Ok(_) => return Err(FileFault::Failed),
            Err(error) => return Err(to_read_fault(error)),
        }
        match File::open(self.rt, path) {
            Ok(mut file) => Ok(read_up_to(self.rt.alloc(), &mut file, MAX_FILE_BYTES)?),
            Err(error) => Err(to_read_fault(error)),
        }
    }

    fn is_file(&mut self, path: &str) -> bool {
        match fs::metadata(self.rt, path) {
            Ok(metadata) => metadata.is_file(),
            Err(_) => false,
        }
    }

    fn path_exists(&mut self, path: &str) -> bool {
        fs::metadata(self.rt, path).is_ok()
    }

    fn is_program(&mut self, path: &str) -> bool {
        match fs::metadata(self.rt, path) {
            Ok(metadata) => metadata.is_file() && may_execute(metadata.permissions().mode()),
            Err(_) => false,
        }
    }

    fn moment(&mut self) -> u64 {
        let Ok(now) = SystemTime::now(self.rt) else {
            return 0;
        };
        let Ok(since) = now.duration_since(SystemTime::UNIX_EPOCH) else {
            return 0;
        };
        match u64::try_from(since.as_millis()) {
            Ok(millis) if millis <= LATEST_MOMENT_MILLIS => millis,
            _ => 0,
        }
    }
}
