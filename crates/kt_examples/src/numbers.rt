ghost use Rattle.std.specs.Prelude.{IfOk, ◌≤◌};

use crate::example_fault::{
    ExampleFault, Result, convert_error, push_or_fail, require_part, split_once_or_fail,
};
use std::alloc::Global;

/// Parses `text` as a number from 0 to 2^64 - 1. Allocates nothing.
///
/// # Errors
///
/// - `InvalidExample`: `text` isn't such a number.
pub fn parse_number(text: &str) -> Result<u64> {
    require_part(text.parse::<u64>().ok(), "a number is expected")
}

/// Parses `text` as a number from 0 to 2^32 - 1. Allocates nothing.
///
/// # Errors
///
/// - `InvalidExample`: `text` isn't such a number.
pub fn parse_count(text: &str) -> Result<u32> {
    require_part(text.parse::<u32>().ok(), "a number below 2^32 is due")
}

/// Parses `text` as a number from 0 to 2^64 - 1, and stores the number in `place`. Allocates
/// nothing.
///
/// # Errors
///
/// - `InvalidExample`: `text` isn't such a number.
pub fn store_number(place: &mut Option<u64>, text: &str) -> Result<()> {
    *place = Some(parse_number(text)?);
    Ok(())
}

/// Parses the numbers in `text`, which are separated by white space.
///
/// # Errors
///
/// - `InvalidExample`: an element isn't a number from 0 to 2^64 - 1.
/// - `NoMemory`: an allocation failed.
pub fn parse_numbers(alloc: Global, text: &str) -> Result<Vec<u64>> {
    let mut numbers = Vec::new(alloc);
    for word in text.split_whitespace() {
        push_or_fail(&mut numbers, parse_number(word))?;
    }
    Ok(numbers)
}

/// Returns `text` with each `#` replaced by `number`.
fn replace_placeholder(alloc: Global, text: &str, number: u32) -> Result<String> {
    let number = number.to_string(alloc)?;
    convert_error(text.replace(alloc, "#", number.as_str()))
}

/// Parses `raw` as `COUNT TEXT`, and returns COUNT copies of the text. Each `#` in a copy is
/// replaced by the copy's number, counted from 0.
///
/// # Errors
///
/// - `InvalidExample`: `raw` has no space, or COUNT isn't a number from 0 to 2^32 - 1.
/// - `NoMemory`: an allocation failed.
pub fn expand_copies(alloc: Global, raw: &str) -> Result<Vec<String>> {
    let (times, text) = split_once_or_fail(raw, " ", "a text stands after a number")?;
    let mut texts = Vec::new(alloc);
    for number in 0..parse_count(times)? {
        push_or_fail(&mut texts, replace_placeholder(alloc, text, number))?;
    }
    Ok(texts)
}

/// Parses `text` as a number from 1 to `most`. Returns 1 if `text` is `None`. Allocates nothing.
///
/// # Errors
///
/// - `InvalidExample`: the text isn't a number from 1 to `most`.
pub fn parse_number_up_to(text: Option<&str>, most: u32) -> Result<u32>
    ensures { IfOk result (λ n. (1 ≤ n) × (n ≤ most)) }
{
    match text.unwrap_or("1").parse::<u32>() {
        Ok(number) if number >= 1 && number <= most => Ok(number),
        _ => Err(ExampleFault::InvalidExample("a number is out of its range")),
    }
}
