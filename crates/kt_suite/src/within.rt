ghost use Rattle.std.specs.Prelude.{◌≡◌, [], chars, drop};
ghost use Rattle.kt_suite.specs.Common.{is_within};

use kt_base::Text;

/// Returns `true` if a path component can end before the byte at the index `place` of `path`.
///
/// It can if this byte is a slash, or if `path` has no byte at this index.
fn is_component_end_at(path: &[u8], place: usize) -> bool
    ensures { result ≡ is_within [] (drop place path.now) }
{
    match path.get(place) {
        None => true,
        Some(c) => *c == b'/',
    }
}

/// Returns `true` if `rest`, the remaining text of a path, is empty or begins with a slash.
///
/// A path component can end before such a text.
fn is_component_end(rest: &str) -> bool
    ensures { result ≡ is_within [] (chars rest.now) }
{
    match rest.chars().next() {
        None => true,
        Some(c) => c == '/',
    }
}

/// Returns `true` if the path `path` is `directory` or is below `directory`.
///
/// The paths are compared as texts. The byte of `path` whose index is the length of `directory` is
/// checked first, since this rejects most paths.
pub fn is_within(directory: &Text, path: &Text) -> bool
    ensures { result ≡ is_within directory.now path.now }
{
    let directory = directory.as_str();
    let path = path.as_str();
    if !is_component_end_at(path.as_bytes(), directory.len()) {
        return false;
    }
    match path.strip_prefix(directory) {
        None => false,
        Some(rest) => is_component_end(rest),
    }
}
