ghost use Rattle.std.specs.Prelude.{◌≤◌, IfOk, length};
ghost use Rattle.kt_os.specs.Machines.{read_limit};

use kt_base::{Bytes, LATEST_MOMENT_MILLIS};
use kt_doubles::{Scene, fail_allocation};
use kt_os::{FileFault, HostFiles};
use std::alloc::Global;

/// The maximum number of bytes that are read of a file: one more than a Kyuafile may have.
const READ_LIMIT_BYTES: usize = 1_048_577;

/// A `HostFiles` with the files, programs and clock of a scene.
#[derive(Drop)]
pub struct ScriptedFiles<'a> {
    /// The scene whose files, programs and clock are used.
    pub scene: &'a Scene,
    /// The number of timestamps that `moment` has returned so far.
    pub moment_count: usize,
}

/// Returns a copy of the first `READ_LIMIT_BYTES` bytes of `bytes`, or of all bytes if they are
/// fewer.
fn copy_first_bytes(alloc: Global, bytes: &[u8]) -> Result<Bytes, FileFault>
    ensures { IfOk result (λ bytes. length bytes ≤ read_limit) }
{
    let count = bytes.len().min(READ_LIMIT_BYTES);
    match Bytes::from_slice(alloc, &bytes[..count]) {
        Ok(front) => Ok(front),
        Err(refusal) => Err(FileFault::Memory(refusal)),
    }
}

impl HostFiles for ScriptedFiles<'_> {
    // The script decides each result, so the relation is trivial.
    ghost answers = { λ _ _ _. Unit {0} };

    fn read_start(&mut self, path: &str) -> Result<Bytes, FileFault> {
        if self.scene.has_path("dear", path) {
            if let Err(refusal) = fail_allocation(self.scene.alloc) {
                return Err(FileFault::Memory(refusal));
            }
        }
        if self.scene.has_path("locked", path) {
            return Err(FileFault::Failed);
        }
        match self.scene.find_bytes(path) {
            None => Err(FileFault::Missing),
            Some(bytes) => copy_first_bytes(self.scene.alloc, bytes),
        }
    }

    fn is_file(&mut self, path: &str) -> bool {
        self.scene.has_path("program", path)
    }

    fn path_exists(&mut self, path: &str) -> bool {
        self.scene.has_path("found-file", path)
    }

    fn is_program(&mut self, path: &str) -> bool {
        self.scene.has_path("found-program", path)
    }

    fn moment(&mut self) -> u64 {
        let moments = self.scene.clock.as_slice();
        let index = self.moment_count;
        self.moment_count = index.saturating_add(1);
        match moments.get(index).or(moments.last()) {
            Some(moment) => (*moment).min(LATEST_MOMENT_MILLIS),
            None => 0,
        }
    }
}
