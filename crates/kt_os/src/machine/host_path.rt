ghost use Rattle.std.specs.Prelude.{◌≡◌, ◌++◌, ◌+◌, ◌≤◌, ◌<◌, length, take, IfSome, IfNone};
ghost use Rattle.kt_os.specs.Common.{longest_path};

/// The maximum length of a path that the host accepts, in bytes (`PATH_MAX` without the null byte).
pub const MAX_PATH_BYTES: usize = 4_095;

/// Copies `piece` into the buffer `room` at index `from`, and returns the index after the copy.
///
/// Returns `None` if the buffer is too short.
fn copy_to_buffer(room: &mut [u8], from: usize, piece: &str) -> Option<usize>
    requires { from ≤ length room.old }
    ensures within { IfSome result (λ end. end ≤ length room.new) }
    ensures length { length room.new ≡ length room.old }
    ensures put { IfSome result (λ end. (end ≡ from + length piece.now)
        × (take end room.new ≡ take from room.old ++ piece.now)) }
    ensures full { IfNone result (length room.old < from + length piece.now) }
{
    let bytes = piece.as_bytes();
    if bytes.len() > room.len() - from {
        return None;
    }
    let end = from + bytes.len();
    room[from..end].copy_from_slice(bytes);
    Some(end)
}

/// Concatenates `directory`, the separator `between` and `name` to a path in the buffer `room`.
///
/// Returns `None` if the path has more than 4,095 bytes. Allocates nothing.
pub fn join_path<'a>(
    directory: &str,
    between: &str,
    name: &str,
    room: &'a mut [u8],
) -> Option<&'a str>
    requires { length room.old ≡ longest_path }
    ensures path { IfSome result (λ path. path.now ≡ directory.now ++ (between.now ++ name.now)) }
    ensures fits { IfSome result (λ path. length path.now ≤ longest_path) }
    ensures long { IfNone result (longest_path
        < length directory.now + (length between.now + length name.now)) }
{
    let from = copy_to_buffer(room, 0, directory)?;
    let from = copy_to_buffer(room, from, between)?;
    let end = copy_to_buffer(room, from, name)?;
    str::from_utf8(&room[..end]).ok()
}
