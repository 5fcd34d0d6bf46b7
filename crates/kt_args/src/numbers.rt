ghost use Rattle.std.specs.Prelude.{◌≡◌};
ghost use Rattle.kt_args.specs.Common.{is_number, non_zero, run_number_of};

use kt_base::{is_digit, parse_decimal_up_to};

/// The greatest run number (this profile).
const MAX_RUN_NUMBER: u64 = 1_000_000;

/// Returns `true` if `word` consists of one or more decimal digits.
fn is_number(word: &[u8]) -> bool
    ensures { result ≡ is_number word.now }
{
    !word.is_empty() && word.iter().all(|c| is_digit(*c))
}

/// Returns `number`, or `None` if `number` is 0.
fn check_non_zero(number: u64) -> Option<u64>
    ensures { result ≡ non_zero number }
{
    if number == 0 { None } else { Some(number) }
}

/// Parses `word` as a run number: a decimal number from 1 to 1,000,000.
///
/// Leading zeros are allowed. Returns `None` if `word` is not a run number.
pub fn parse_run_number(word: &[u8]) -> Option<u64>
    ensures { result ≡ run_number_of word.now }
{
    if !is_number(word) {
        return None;
    }
    check_non_zero(parse_decimal_up_to(MAX_RUN_NUMBER, word)?)
}
