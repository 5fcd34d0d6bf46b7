ghost use Rattle.std.specs.Prelude.{◌≡◌, ◌≤◌, not, length, chars, IfSome};
ghost use Rattle.kt_base.specs.Common.{prefix_len, is_newline, list_any, is_absolute, is_slash, is_digit, decimal_from, number_up_to};

/// Returns the length of the first line of `text` in bytes, without its newline.
pub fn line_length(text: &[u8]) -> usize
    ensures value { result ≡ prefix_len (λ b. not (is_newline b)) text.now }
    ensures within { result ≤ length text.now }
{
    text.iter().take_while(|b| **b != b'\n').count()
}

/// Returns `true` if `path` begins with a slash.
pub fn is_absolute(path: &str) -> bool
    ensures { result ≡ is_absolute (chars path.now) }
{
    path.chars().next() == Some('/')
}

/// Returns `true` if `path` contains a slash.
pub fn has_slash(path: &str) -> bool
    ensures { result ≡ list_any is_slash (chars path.now) }
{
    path.chars().any(|c| c == '/')
}

/// Returns `true` if the byte `c` is a decimal digit, `0` to `9`.
pub fn is_digit(c: u8) -> bool
    ensures { result ≡ is_digit c }
{
    matches!(c, b'0'..=b'9')
}

/// Returns the number of decimal digits at the beginning of `text`.
pub fn digits_length(text: &[u8]) -> usize
    ensures value { result ≡ prefix_len is_digit text.now }
    ensures within { result ≤ length text.now }
{
    text.iter().take_while(|c| is_digit(**c)).count()
}

/// Parses `digits` as a decimal number, or returns `None` if the number is above `greatest`.
///
/// Leading zeros are allowed, and an empty slice represents 0. The caller checks that each byte is
/// an ASCII digit.
pub fn parse_decimal_up_to(greatest: u64, digits: &[u8]) -> Option<u64>
    ensures value { result ≡ number_up_to greatest (decimal_from 0 digits.now) }
    ensures within { IfSome result (λ n. n ≤ greatest) }
{
    let mut value = 0u64;
    for c in digits {
        let next = 10 * value as u128 + c.saturating_sub(b'0') as u128;
        if next > greatest as u128 {
            return None;
        }
        value = next as u64;
    }
    Some(value)
}
