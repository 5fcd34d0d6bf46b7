ghost use Rattle.std.specs.Prelude.{◌≡◌, ◌≤◌, ◌<◌, length, take, drop, Some, IfOk, OnOk, IfSome};
ghost use Rattle.kt_os.specs.Common.{ConsumesAtMost};

use crate::OsFault;
use kt_base::Bytes;
use std::alloc::Global;
use std::io::Read;

/// The greatest number of bytes that one call of `read` requests from a file.
const READ_PIECE_BYTES: usize = 8_192;

/// Reads at most `limit` bytes of a file, from its current position, and returns them. Returns
/// fewer bytes only at the end of the file. An interrupted read counts as an error.
///
/// # Errors
///
/// - `Failed`: a read fails.
/// - `Memory`: an allocation fails.
pub fn read_up_to<F: Read>(alloc: Global, file: &mut F, limit: usize) -> Result<Bytes, OsFault>
    ensures few { IfOk result (λ bytes. length bytes ≤ limit) }
    // If the remaining bytes are known, the result is their prefix, and the others remain.
    ensures front { IfOk result (λ bytes. IfSome (F.remaining file.old)
        (λ all. bytes ≡ take limit all)) }
    ensures rest { OnOk result (IfSome (F.remaining file.old)
        (λ all. F.remaining file.new ≡ Some (drop limit all))) }
    // At most `limit` bytes are consumed, even if the call fails.
    ensures past { ConsumesAtMost limit (F.remaining file.old) (F.remaining file.new) }
{
    let mut bytes = Bytes::new(alloc);
    let mut buffer = [0u8; READ_PIECE_BYTES];
    while bytes.len() < limit {
        let want = READ_PIECE_BYTES.min(limit - bytes.len());
        let count = match file.read(&mut buffer[..want]) {
            Ok(count) => count,
            Err(_) => return Err(OsFault::Failed),
        };
        if count == 0 {
            return Ok(bytes);
        }
        if let Err(refusal) = bytes.append(&buffer[..count]) {
            return Err(OsFault::Memory(refusal));
        }
    }
    Ok(bytes)
}
