//! Parses an ATF result file, from left to right.

ghost use Rattle.std.specs.Prelude.{◌≡◌, ◌≤◌, length, IfOk, option_map};
ghost use Rattle.std.specs.List.{prefix_len};
ghost use Rattle.kt_claim.specs.Bytes.{is_keyword_byte};
ghost use Rattle.kt_claim.specs.ResultFile.{limit};
ghost use Rattle.kt_claim.specs.Inner.ResultReading.{number_in, reason_in, claim_with_number, claim_with_reason, claim_after_bracket, claim_of, keyword_of, may_have_number};

use crate::{Claim, ClaimFault};
use kt_base::{NoMemory, Text, digits_length, lossy, parse_decimal_up_to, value_of_keyword_bytes};
use std::alloc::Global;

/// A keyword of a result file.
#[derive(Clone, Copy)]
pub enum Keyword {
    Passed,
    Failed,
    Skipped,
    ExpectedDeath,
    ExpectedFailure,
    ExpectedTimeout,
    ExpectedExit,
    ExpectedSignal,
}

/// The keywords of result files, with their spellings (atf-test-case(4)).
const KEYWORDS: [(&str, Keyword); 8] = [
    ("passed", Keyword::Passed),
    ("failed", Keyword::Failed),
    ("skipped", Keyword::Skipped),
    ("expected_death", Keyword::ExpectedDeath),
    ("expected_failure", Keyword::ExpectedFailure),
    ("expected_timeout", Keyword::ExpectedTimeout),
    ("expected_exit", Keyword::ExpectedExit),
    ("expected_signal", Keyword::ExpectedSignal),
];

impl Keyword {
    /// Returns the keyword that is spelled `word`, or `None` if `word` is not a keyword.
    #[tactic(auto, unfolding(crate::specs::Inner::ResultReading::keyword_of))]
    pub fn from_bytes(word: &[u8]) -> Option<Keyword>
        ensures { result ≡ keyword_of word.now }
    {
        value_of_keyword_bytes(word, &KEYWORDS)
    }

    /// Returns `true` if a number in round brackets may follow the keyword.
    pub fn may_have_number(self) -> bool
        ensures { result ≡ may_have_number self }
    {
        matches!(self, Keyword::ExpectedExit | Keyword::ExpectedSignal)
    }
}

/// Returns the number of letters from a to z and underscores that `text` begins with.
fn keyword_length(text: &[u8]) -> usize
    ensures value { result ≡ prefix_len is_keyword_byte text.now }
    ensures within { result ≤ length text.now }
{
    text.iter()
        .take_while(|b| matches!(**b, b'a'..=b'z' | b'_'))
        .count()
}

/// Parses the decimal number that `rest` begins with, and the closing round bracket after it.
///
/// Returns the number and the bytes after the bracket. The result is `None` if there is no digit,
/// if the number is greater than 255, or if no closing bracket follows the digits.
#[tactic(auto, unfolding(crate::specs::Inner::ResultReading::number_in))]
fn parse_number_in_brackets(rest: &[u8]) -> Option<(u8, &[u8])>
    ensures { option_map (λ x. (x.0, x.1.now)) result ≡ number_in rest.now }
{
    let (digits, rest) = rest.split_at(digits_length(rest));
    if digits.is_empty() {
        return None;
    }
    let value = parse_decimal_up_to(255, digits)?;
    let (b, rest) = rest.split_first()?;
    if *b == b')' {
        Some((value as u8, rest))
    } else {
        None
    }
}

/// Returns the reason in `rest`, or `None` unless `rest` is a colon, a space and a reason.
///
/// A reason has one byte or more.
fn parse_reason(rest: &[u8]) -> Option<&[u8]>
    ensures { option_map (λ x. x.now) result ≡ reason_in rest.now }
{
    if rest.starts_with(b": ") && rest.len() > 2 {
        Some(&rest[2..])
    } else {
        None
    }
}

/// Creates the claim of the keyword `word` with the reason `reason` and without a number.
///
/// The claim `Passed` has no reason, so `reason` is not used for it.
fn claim_with_reason(word: Keyword, reason: Text) -> Claim
    ensures { result ≡ claim_with_reason word reason }
{
    match word {
        Keyword::Passed => Claim::Passed,
        Keyword::Failed => Claim::Failed(reason),
        Keyword::Skipped => Claim::Skipped(reason),
        Keyword::ExpectedDeath => Claim::ExpectedDeath(reason),
        Keyword::ExpectedFailure => Claim::ExpectedFailure(reason),
        Keyword::ExpectedTimeout => Claim::ExpectedTimeout(reason),
        Keyword::ExpectedExit => Claim::ExpectedExit(None, reason),
        Keyword::ExpectedSignal => Claim::ExpectedSignal(None, reason),
    }
}

/// Creates the claim of the keyword `word` with the number `number` and the reason `reason`.
///
/// The claim is `Malformed(BadNumber)` if the keyword may not have a number.
fn claim_with_number(word: Keyword, number: u8, reason: Text) -> Claim
    ensures { result ≡ claim_with_number word number reason }
{
    match word {
        Keyword::ExpectedExit => Claim::ExpectedExit(Some(number), reason),
        Keyword::ExpectedSignal => Claim::ExpectedSignal(Some(number), reason),
        _ => Claim::Malformed(ClaimFault::BadNumber),
    }
}

/// Returns the claim of a line that consists of the keyword `word`, an opening bracket and `rest`.
fn claim_after_bracket(alloc: Global, word: Keyword, rest: &[u8]) -> Result<Claim, NoMemory>
    ensures { IfOk result (λ claim. claim ≡ claim_after_bracket word rest.now) }
{
    if !word.may_have_number() {
        return Ok(Claim::Malformed(ClaimFault::BadNumber));
    }
    let Some((number, rest)) = parse_number_in_brackets(rest) else {
        return Ok(Claim::Malformed(ClaimFault::BadNumber));
    };
    let Some(reason) = parse_reason(rest) else {
        return Ok(Claim::Malformed(ClaimFault::NoReason));
    };
    Ok(claim_with_number(word, number, lossy(alloc, reason)?))
}

/// Returns the claim of the result file `file`, which has at most 65,536 bytes.
///
/// # Errors
///
/// - `NoMemory`: an allocation fails.
#[tactic(auto, unfolding(crate::specs::Inner::ResultReading::claim_of, crate::specs::Inner::ResultReading::claim_of_line))]
pub fn claim_of(alloc: Global, file: &[u8]) -> Result<Claim, NoMemory>
    requires { length file.now ≤ limit }
    ensures { IfOk result (λ claim. claim ≡ claim_of file.now) }
{
    if file.is_empty() {
        return Ok(Claim::Malformed(ClaimFault::Empty));
    }
    if !file.ends_with(b"\n") {
        return Ok(Claim::Malformed(ClaimFault::NoNewline));
    }
    let (line, _) = file.split_at(file.len() - 1);
    if line.contains(&b'\n') {
        return Ok(Claim::Malformed(ClaimFault::SeveralLines));
    }
    let (word, rest) = line.split_at(keyword_length(line));
    let Some(word) = Keyword::from_bytes(word) else {
        return Ok(Claim::Malformed(ClaimFault::UnknownWord));
    };
    match (word, rest.split_first()) {
        (_, Some((b'(', after))) => claim_after_bracket(alloc, word, after),
        (Keyword::Passed, None) => Ok(Claim::Passed),
        (Keyword::Passed, Some(_)) => Ok(Claim::Malformed(ClaimFault::UnexpectedReason)),
        _ => match parse_reason(rest) {
            Some(reason) => Ok(claim_with_reason(word, lossy(alloc, reason)?)),
            None => Ok(Claim::Malformed(ClaimFault::NoReason)),
        },
    }
}
