ghost use Rattle.std.specs.Prelude.{◌≡◌, ◌<◌, ◌++◌, length, IfOk, OnOk};
ghost use Rattle.kt_base.specs.Common.{chars, IsUtf8, lossy};

use crate::{NoMemory, Text};
use std::alloc::Global;

/// Appends `bytes` to `text` if they are valid UTF-8. Appends nothing otherwise.
fn push_if_utf8(text: &mut Text, bytes: &[u8]) -> Result<(), NoMemory>
    ensures { OnOk result (IsUtf8 bytes.now → text.new ≡ text.old ++ chars bytes.now) }
{
    match str::from_utf8(bytes) {
        Ok(all) => text.push_str(all),
        Err(_fault) => Ok(()),
    }
}

/// Decodes `bytes` up to and including the first invalid byte, and appends the result to `text`.
///
/// The result for the invalid byte is U+FFFD. Returns the bytes after the invalid byte. If `bytes`
/// is valid UTF-8, decodes all bytes and returns an empty slice.
fn push_utf8_chunk<'a>(text: &mut Text, bytes: &'a [u8]) -> Result<&'a [u8], NoMemory>
    ensures text { IfOk result (λ rest. text.new ++ lossy rest.now ≡ text.old ++ lossy bytes.now) }
    ensures shorter { 0 < length bytes.now → IfOk result (λ rest. length rest.now < length
        bytes.now) }
{
    match str::from_utf8(bytes) {
        Ok(all) => {
            text.push_str(all)?;
            Ok(&[])
        }
        Err(fault) => {
            let end = fault.valid_up_to();
            push_if_utf8(text, &bytes[..end])?;
            text.push(char::REPLACEMENT_CHARACTER)?;
            Ok(&bytes[end + 1..])
        }
    }
}

/// Decodes `bytes` as UTF-8, with U+FFFD for each byte that is not part of a well-formed character.
///
/// # Errors
///
/// - `NoMemory`: an allocation fails.
pub fn lossy(alloc: Global, bytes: &[u8]) -> Result<Text, NoMemory>
    ensures { IfOk result (λ text. text ≡ lossy bytes.now) }
{
    let mut text = Text::new(alloc);
    let mut rest = bytes;
    while !rest.is_empty() {
        rest = push_utf8_chunk(&mut text, rest)?;
    }
    Ok(text)
}
