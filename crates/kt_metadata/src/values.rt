ghost use Rattle.std.specs.Prelude.{◌≡◌, ◌∷◌, [], ◌++◌, List, ℕ, IfOk, OnOk};
ghost use Rattle.kt_metadata.specs.Common.{list_any, truth_of, user_of, number_of, unit_of, factor_of, checked_product, timeout_of_number, is_not_absolute, is_relative_with_slash, is_space, with_element, list_elements, elements_from, AreElements};
ghost use Rattle.kt_metadata.specs.Values.{size_in, timeout_in};

use crate::RequiredUser;
use kt_base::{
    Items, NoMemory, Text, digits_length, has_slash, is_absolute, parse_decimal_up_to,
    value_of_keyword,
};
use std::alloc::Global;

/// Returns `true` if `c` is white space: a space, or one of the characters with the codes 9 to 13.
fn is_space(c: char) -> bool
    ensures { result ≡ is_space c }
{
    c == ' ' || ('\t' <= c && c <= '\r')
}

/// Appends the element `word` to `words`, unless `word` is empty.
fn push_non_empty(words: &mut Items<Text>, word: Text) -> Result<(), NoMemory>
    ensures { OnOk result (words.new ≡ words.old ++ with_element word []) }
{
    if word.is_empty() {
        return Ok(());
    }
    words.push(word)
}

/// Appends `c`, the next character of a text, to the element `word`, or ends the element if `c` is
/// white space.
///
/// `word` is the part of the current element before `c`. Returns the part of the current element up
/// to `c`. If `c` is white space, the call appends `word` to `words`, unless `word` is empty, and
/// returns an empty text.
fn process_char(
    alloc: Global,
    words: &mut Items<Text>,
    word: Text,
    c: char,
) -> Result<Text, NoMemory>
    ensures { IfOk result (λ next. (rest : List ℕ) → words.new ++ elements_from next rest
        ≡ words.old ++ elements_from word (c ∷ rest)) }
{
    if is_space(c) {
        push_non_empty(words, word)?;
        return Ok(Text::new(alloc));
    }
    let mut word = word;
    word.push(c)?;
    Ok(word)
}

/// Splits `text` into its elements, which are separated by white space (this profile).
///
/// # Errors
///
/// - `NoMemory`: an allocation fails.
pub fn split_elements(alloc: Global, text: &Text) -> Result<Items<Text>, NoMemory>
    ensures { IfOk result (λ found. found ≡ list_elements text.now) }
{
    let mut found = Items::new(alloc);
    let mut word = Text::new(alloc);
    for c in text.as_str().chars() {
        word = process_char(alloc, &mut found, word, c)?;
    }
    push_non_empty(&mut found, word)?;
    Ok(found)
}

/// Theorem: by the relation `AreElements`, each text has exactly one list of elements.
///
/// The definition `list_elements` returns this list.
pub fn theorem_of_unique_elements()
    ensures words { (text : List ℕ) → AreElements text (list_elements text) }
    ensures only { (text : List ℕ) → (found : List (List ℕ)) → AreElements text found
        → found ≡ list_elements text }
{}

/// The truth values, each with its text in a Kyuafile or a list of ATF cases (kyuafile(5)).
const TRUTH_VALUES: [(&str, bool); 4] = [
    ("true", true),
    ("yes", true),
    ("false", false),
    ("no", false),
];

/// Parses `text` as a truth value: `true`, `yes`, `false` or `no`.
///
/// Returns `None` for another text.
#[tactic(auto, unfolding(crate::proofs::Common::chars))]
pub fn parse_truth(text: &Text) -> Option<bool>
    ensures { result ≡ truth_of text.now }
{
    value_of_keyword(text, &TRUTH_VALUES)
}

/// The required users, each with its text in a Kyuafile or a list of ATF cases (kyuafile(5)).
const REQUIRED_USERS: [(&str, RequiredUser); 3] = [
    ("", RequiredUser::Any),
    ("root", RequiredUser::Root),
    ("unprivileged", RequiredUser::Unprivileged),
];

/// Parses `text` as a required user: an empty text, `root` or `unprivileged`.
///
/// Returns `None` for another text.
#[tactic(auto, unfolding(crate::proofs::Common::chars))]
pub fn parse_user(text: &Text) -> Option<RequiredUser>
    ensures { result ≡ user_of text.now }
{
    value_of_keyword(text, &REQUIRED_USERS)
}

/// The longest timeout of a test case, in seconds.
const LONGEST_TIMEOUT_SECONDS: u32 = 1_000_000;

/// Parses `digits` as a decimal number.
///
/// Returns `None` if `digits` is empty or the number isn't below 2^64.
fn parse_decimal(digits: &[u8]) -> Option<u64>
    ensures { result ≡ number_of digits.now }
{
    if digits.is_empty() {
        return None;
    }
    parse_decimal_up_to(u64::MAX, digits)
}

/// Returns the number of bytes that the unit `c` represents, or `None` if `c` isn't a unit.
///
/// The units are K (1024), M (1024^2), G (1024^3) and T (1024^4), as upper-case or lower-case
/// letters.
fn unit_bytes(c: u8) -> Option<u64>
    ensures { result ≡ unit_of c }
{
    match c {
        b'K' | b'k' => Some(1024),
        b'M' | b'm' => Some(1_048_576),
        b'G' | b'g' => Some(1_073_741_824),
        b'T' | b't' => Some(1_099_511_627_776),
        _ => None,
    }
}

/// Returns the number of bytes that the unit `rest` of a size represents, or 1 if `rest` is empty.
///
/// `rest` are the bytes of the size after its digits. Returns `None` if `rest` isn't a unit.
fn unit_factor(rest: &[u8]) -> Option<u64>
    ensures { result ≡ factor_of rest.now }
{
    match rest {
        [] => Some(1),
        [c] => unit_bytes(*c),
        _ => None,
    }
}

/// Multiplies `number` by `factor`.
///
/// Returns `None` if one of them is `None` or the product isn't below 2^64.
fn checked_product(number: Option<u64>, factor: Option<u64>) -> Option<u64>
    ensures { result ≡ checked_product number factor }
{
    number?.checked_mul(factor?)
}

/// Parses `text` as a size in bytes: digits, and at most one of the units K, M, G and T.
///
/// A unit may be a lower-case letter. Returns `None` for another text, or if the size isn't below
/// 2^64.
pub fn parse_size(text: &[u8]) -> Option<u64>
    ensures { result ≡ size_in text.now }
{
    let length = digits_length(text);
    checked_product(parse_decimal(&text[..length]), unit_factor(&text[length..]))
}

/// Converts `number` to a timeout in seconds, or returns `None` if it isn't a timeout.
///
/// `rest` are the bytes after the number's digits. The number 0 represents the longest timeout,
/// 1,000,000 seconds. Returns `None` if `number` is `None` or above 1,000,000, or if `rest` isn't
/// empty.
fn timeout_of_number(number: Option<u64>, rest: &[u8]) -> Option<u32>
    ensures { result ≡ timeout_of_number number rest.now }
{
    let seconds = number?;
    if !rest.is_empty() {
        return None;
    }
    if seconds == 0 {
        Some(LONGEST_TIMEOUT_SECONDS)
    } else if seconds <= LONGEST_TIMEOUT_SECONDS as u64 {
        Some(seconds as u32)
    } else {
        None
    }
}

/// Parses `text` as a timeout in seconds, 0 to 1,000,000.
///
/// The number 0 represents the longest timeout, 1,000,000 seconds. Returns `None` for another text.
pub fn parse_timeout(text: &[u8]) -> Option<u32>
    ensures { result ≡ timeout_in text.now }
{
    let length = digits_length(text);
    timeout_of_number(parse_decimal(&text[..length]), &text[length..])
}

/// Returns `true` if `word` isn't an absolute path.
fn is_not_absolute(word: &Text) -> bool
    ensures { result ≡ is_not_absolute word.now }
{
    !is_absolute(word.as_str())
}

/// Returns `true` if `word` is a relative path that contains a slash.
fn is_relative_with_slash(word: &Text) -> bool
    ensures { result ≡ is_relative_with_slash word.now }
{
    !is_absolute(word.as_str()) && has_slash(word.as_str())
}

/// Returns `true` if one of the elements `words` isn't an absolute path.
///
/// Such an element can't name a required file.
pub fn has_invalid_file(words: &[Text]) -> bool
    ensures { result ≡ list_any is_not_absolute words.now }
{
    words.iter().any(|word| is_not_absolute(word))
}

/// Returns `true` if one of the elements `words` is a relative path with a slash.
///
/// Such an element can't name a required program.
pub fn has_invalid_program(words: &[Text]) -> bool
    ensures { result ≡ list_any is_relative_with_slash words.now }
{
    words.iter().any(|word| is_relative_with_slash(word))
}
