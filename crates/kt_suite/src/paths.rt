ghost use Rattle.std.specs.Prelude.{◌≡◌, chars, IfOk};
ghost use Rattle.kt_suite.specs.Common.{directory_of, parent_of, name_in, sibling_of, has_directory, is_component, is_plain_relative};

use kt_base::{NoMemory, Text, has_slash};
use std::alloc::Global;

/// Splits `path` after its last slash.
///
/// The first part ends with the slash. If `path` has no slash, the first part is empty.
pub(crate) fn split_after_slash(path: &str) -> (&str, &str)
    ensures directory { chars result.0.now ≡ directory_of (chars path.now) }
    ensures name { chars result.1.now ≡ name_in (chars path.now) }
{
    match path.rsplit_once('/') {
        None => ("", path),
        Some((_, name)) => path.split_at(path.len() - name.len()),
    }
}

/// Returns the part of `path` before its last slash.
///
/// The result is empty if `path` has no slash.
fn parent_slice(path: &str) -> &str
    ensures { chars result.now ≡ parent_of (chars path.now) }
{
    match path.rsplit_once('/') {
        None => "",
        Some((parent, _)) => parent,
    }
}

/// Returns the part of `path` before its last slash.
///
/// The result is empty for a path directly below `/`, and for a path without a slash.
///
/// # Errors
///
/// - `NoMemory`: an allocation fails.
pub fn parent_path(alloc: Global, path: &Text) -> Result<Text, NoMemory>
    ensures { IfOk result (λ parent. parent ≡ parent_of path.now) }
{
    Text::from_str(alloc, parent_slice(path.as_str()))
}

/// Returns the path of the file `name` in the directory of the file `file`.
///
/// # Errors
///
/// - `NoMemory`: an allocation fails.
pub fn sibling_path(alloc: Global, file: &Text, name: &Text) -> Result<Text, NoMemory>
    ensures { IfOk result (λ path. path ≡ sibling_of file.now name.now) }
{
    let (directory, _) = split_after_slash(file.as_str());
    let mut path = Text::from_str(alloc, directory)?;
    path.push_str(name.as_str())?;
    Ok(path)
}

/// Returns `true` if `name` contains a slash, or is `.` or `..`.
#[tactic(auto, unfolding(crate::proofs::Common::chars))]
pub fn has_directory_part(name: &Text) -> bool
    ensures { result ≡ has_directory name.now }
{
    has_slash(name.as_str()) || name.is_equal_to(".") || name.is_equal_to("..")
}

/// Returns `true` if the path component `part` is neither empty, nor `.`, nor `..`.
#[tactic(auto, unfolding(crate::proofs::Common::chars))]
fn is_component(part: &Text) -> bool
    ensures { result ≡ is_component part.now }
{
    !(part.is_empty() || part.is_equal_to(".") || part.is_equal_to(".."))
}

/// Returns `true` if `path` is a relative path without components that are empty, `.` or `..`.
///
/// # Errors
///
/// - `NoMemory`: an allocation fails.
pub fn is_plain_relative(path: &Text) -> Result<bool, NoMemory>
    ensures { IfOk result (λ down. down ≡ is_plain_relative path.now) }
{
    let parts = path.split('/')?;
    Ok(parts.as_slice().iter().all(|part| is_component(part)))
}
