ghost use Rattle.std.specs.Prelude.{◌≡◌, ℕ, ◌≤◌};
ghost use Rattle.std.specs.List.{list_any};
ghost use Rattle.kt_config.specs.Forms.{is_non_digit, width_in_range, width_in, width_of};
ghost use Rattle.kt_base.specs.Limits.{largest_width};

use kt_base::{Text, is_digit, parse_decimal_up_to};
use std::marker::Model;

/// The greatest accepted value of `parallelism`, in test cases that run at the same time.
const MAX_WIDTH_CASES: u64 = 256;

/// A maximum number of test cases that run at the same time, 1 to 256.
///
/// In contracts, a `Width` is the number of test cases.
#[derive(Drop)]
pub struct Width {
    /// The maximum number of test cases that run at the same time, 1 to 256.
    cases: u32,
}

impl Model for Width {
    ghost Value = { ℕ };

    ghost view = { λ w. w.cases };

    ghost invariant = { λ w. (1 ≤ w.cases) × (w.cases ≤ largest_width) };
}

/// Returns `true` if `bytes` contains a byte that is not a decimal digit.
fn has_non_digit(bytes: &[u8]) -> bool
    ensures { result ≡ list_any is_non_digit bytes.now }
{
    bytes.iter().any(|c| !is_digit(*c))
}

/// Converts `number` to a width, or returns `None` if `number` is not from 1 to 256.
fn width_in_range(number: u64) -> Option<u32>
    ensures { result ≡ width_in_range number }
{
    if number >= 1 && number <= MAX_WIDTH_CASES {
        return Some(number as u32);
    }
    None
}

/// Parses `bytes` as a decimal number from 1 to 256. Leading zeros are allowed.
///
/// Returns `None` for another number, or if a byte is not an ASCII digit.
fn parse_width(bytes: &[u8]) -> Option<u32>
    ensures { result ≡ width_in bytes.now }
{
    if has_non_digit(bytes) {
        return None;
    }
    width_in_range(parse_decimal_up_to(MAX_WIDTH_CASES, bytes)?)
}

impl Width {
    /// Creates the width 1: one test case at a time.
    pub fn one() -> Width
        ensures { result ≡ 1 }
    {
        Width { cases: 1 }
    }

    /// Parses `text` as a width, or returns `None` if it is not a decimal number from 1 to 256.
    ///
    /// Leading zeros are allowed.
    pub fn from_text(text: &Text) -> Option<Width>
        ensures { result ≡ width_of text.now }
    {
        let cases = parse_width(text.as_str().as_bytes())?;
        Some(Width { cases })
    }

    /// Returns the maximum number of test cases that run at the same time, 1 to 256.
    pub fn max_cases(&self) -> u32
        ensures value { result ≡ self.now }
        ensures within { (1 ≤ result) × (result ≤ largest_width) }
    {
        self.cases
    }
}
