ghost use Rattle.std.specs.Prelude.{◌≡◌, chars};
ghost use Rattle.kt_config.specs.Common.{list_any, string_bytes, is_zero, is_invalid_name_byte, has_zero_byte, is_variable_name};

use kt_base::Text;

/// Returns `true` if `text` contains a zero byte.
pub fn has_zero_byte(text: &Text) -> bool
    ensures { result ≡ has_zero_byte text.now }
{
    text.as_str().as_bytes().iter().any(|c| *c == 0)
}

/// Returns `true` if the byte `c` cannot be in a variable's name.
///
/// The names of variables consist of ASCII letters, digits, `_` and `-`.
fn is_invalid_name_byte(c: u8) -> bool
    ensures { result ≡ is_invalid_name_byte c }
{
    !matches!(c, b'a'..=b'z' | b'A'..=b'Z' | b'0'..=b'9' | b'_' | b'-')
}

/// Returns `true` if `bytes` contains a byte that is not an ASCII letter, a digit, `_` or `-`.
fn has_invalid_name_byte(bytes: &[u8]) -> bool
    ensures { result ≡ list_any is_invalid_name_byte bytes.now }
{
    bytes.iter().any(|c| is_invalid_name_byte(*c))
}

/// Returns `true` if `name` can be the name of a test suite's variable (this profile).
///
/// Such a name consists of one or more ASCII letters, digits, `_` and `-`.
pub fn is_variable_name(name: &Text) -> bool
    ensures { result ≡ is_variable_name name.now }
{
    !name.is_empty() && !has_invalid_name_byte(name.as_str().as_bytes())
}

/// Converts `text` to a string, for use as the key of a map. Copies nothing.
pub fn into_key(text: Text) -> String
    ensures { chars (string_bytes result) ≡ text }
{
    // No effect: `as_str` shows the prover that the bytes encode the characters.
    let _characters = text.as_str();
    text.into_string()
}
