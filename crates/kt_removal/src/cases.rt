ghost use Rattle.std.specs.Prelude.{IsTrue};
ghost use Rattle.kt_removal.specs.Common.{IsCaseDirectory, IsNumber};

use kt_base::{Text, is_digit};

/// Returns `true` if `name` consists of one or more decimal digits.
fn is_number(name: &[u8]) -> bool
    ensures { IsTrue result → IsNumber name.now }
{
    !name.is_empty() && name.iter().all(|c| is_digit(*c))
}

/// Returns `true` if `path` has the form of a case's directory: an entry of `root` whose name is a
/// number.
pub(crate) fn is_case_directory(root: &Text, path: &Text) -> bool
    ensures { IsTrue result → IsCaseDirectory root.now path.now }
{
    let Some(below) = path.as_bytes().strip_prefix(root.as_bytes()) else {
        return false;
    };
    match below.split_first() {
        Some((slash, name)) => *slash == b'/' && is_number(name),
        None => false,
    }
}
