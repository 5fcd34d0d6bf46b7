//! Computes the state of a TAP line after one more byte.

ghost use Rattle.std.specs.Prelude.{◌≡◌, [], ◌∷◌, ℕ, List, false, option_map, Some, true, ◌<◌, ◌^◌, ◌-◌};
ghost use Rattle.kt_claim.specs.Common.{is_digit, is_blank, directive_in, planned_from, below_limit, reason_of, reason_of_skip, plan_for, facts_of, plan_facts, facts_after_opening, facts_within_opening, directive_facts, directive_after_letters, facts_with, is_reason_byte, is_reason, next_letter, facts_after_letter};

use crate::open_line::{DirectivePrefix, DirectivePurpose, LineKind, LineProgress, Opening};
use kt_base::is_digit;

/// The exclusive upper bound of the number of tests in a plan (this profile).
pub const PLAN_TESTS_LIMIT: u64 = 1_000_000_000;

/// Returns `true` if the byte `b` is a space or a tab.
pub fn is_blank(b: u8) -> bool
    ensures { result ≡ is_blank b }
{
    matches!(b, b' ' | b'\t')
}

/// Returns the state of a TAP line after its first byte, `b`.
fn state_after_first_byte(b: u8) -> LineProgress
    ensures facts { (kept more : List ℕ) → facts_with result kept more ≡ facts_of (b ∷ more) }
    ensures plain { is_reason result ≡ false }
{
    match b {
        b'B' => LineProgress::PartialOpening(Opening::BailOut, b"ail out!"),
        b'o' => LineProgress::PartialOpening(Opening::Ok, b"k"),
        b'n' => LineProgress::PartialOpening(Opening::NotOk, b"ot ok"),
        b'1' => LineProgress::PartialOpening(Opening::Plan, b".."),
        _ => LineProgress::KnownKind(LineKind::Other),
    }
}

/// Returns the state of a TAP line after the four letters of a directive.
///
/// The letters are `SKIP` if `is_skip` is `true`, otherwise `TODO`. `purpose` is the purpose of the
/// search for the directive.
fn state_after_directive(purpose: DirectivePurpose, is_skip: bool) -> LineProgress
    ensures facts { (kept more : List ℕ) → facts_with result kept more
        ≡ directive_facts purpose (Some (is_skip, reason_of more)) }
    ensures plain { is_reason result ≡ false }
{
    match purpose {
        DirectivePurpose::Excuse => LineProgress::KnownKind(LineKind::Test),
        DirectivePurpose::Explain if is_skip => LineProgress::Word,
        DirectivePurpose::Explain => LineProgress::KnownKind(LineKind::Plan(0)),
    }
}

/// Returns the state of a TAP line after the byte `b`, during the search for a directive.
///
/// `purpose` is the purpose of the search. A hash may begin the directive. `escaped` is `true` if
/// the byte before `b` is a backslash. Then a hash does not begin a directive.
fn state_in_search(purpose: DirectivePurpose, escaped: bool, b: u8) -> LineProgress
    ensures facts { (kept more : List ℕ) → facts_with result kept more
        ≡ directive_facts purpose (directive_in escaped (b ∷ more)) }
    ensures plain { is_reason result ≡ false }
{
    if b == b'#' && !escaped {
        LineProgress::Hash(purpose)
    } else {
        LineProgress::DirectiveSearch(purpose, b == b'\\')
    }
}

/// Returns the state of a TAP line after a hash, blanks if any, and the byte `b`.
///
/// `purpose` is the purpose of the search for a directive.
fn state_after_hash(purpose: DirectivePurpose, b: u8) -> LineProgress
    ensures facts { (kept more : List ℕ) → facts_with result kept more
        ≡ facts_with (LineProgress.Hash purpose) kept (b ∷ more) }
    ensures plain { is_reason result ≡ false }
{
    if is_blank(b) {
        return LineProgress::Hash(purpose);
    }
    match b.to_ascii_lowercase() {
        b't' => LineProgress::DirectiveLetters(purpose, DirectivePrefix::T),
        b's' => LineProgress::DirectiveLetters(purpose, DirectivePrefix::S),
        _ => state_in_search(purpose, false, b),
    }
}

/// Returns the letter that follows `letters` in the keyword of a directive, in lower case.
fn next_letter(letters: DirectivePrefix) -> u8
    ensures { result ≡ next_letter letters }
{
    match letters {
        DirectivePrefix::T | DirectivePrefix::Tod => b'o',
        DirectivePrefix::To => b'd',
        DirectivePrefix::S => b'k',
        DirectivePrefix::Sk => b'i',
        DirectivePrefix::Ski => b'p',
    }
}

/// Returns the state of a TAP line after one more letter of a directive's keyword. `letters` are
/// the letters before it.
///
/// `purpose` is the purpose of the search for the directive: to excuse a failed test, or to explain
/// a plan of no tests.
fn state_after_letter(purpose: DirectivePurpose, letters: DirectivePrefix) -> LineProgress
    ensures facts { (kept more : List ℕ) → facts_with result kept more
        ≡ facts_after_letter purpose letters more }
    ensures plain { is_reason result ≡ false }
{
    match letters {
        DirectivePrefix::T => LineProgress::DirectiveLetters(purpose, DirectivePrefix::To),
        DirectivePrefix::To => LineProgress::DirectiveLetters(purpose, DirectivePrefix::Tod),
        DirectivePrefix::Tod => state_after_directive(purpose, false),
        DirectivePrefix::S => LineProgress::DirectiveLetters(purpose, DirectivePrefix::Sk),
        DirectivePrefix::Sk => LineProgress::DirectiveLetters(purpose, DirectivePrefix::Ski),
        DirectivePrefix::Ski => state_after_directive(purpose, true),
    }
}

/// Returns the state of a TAP line after `letters`, the first letters of a directive, and the byte
/// `b`.
///
/// `purpose` is the purpose of the search for the directive.
fn state_after_letters(purpose: DirectivePurpose, letters: DirectivePrefix, b: u8) -> LineProgress
    ensures facts { (kept more : List ℕ) → facts_with result kept more
        ≡ facts_with (LineProgress.DirectiveLetters purpose letters) kept (b ∷ more) }
    ensures plain { is_reason result ≡ false }
{
    if b.to_ascii_lowercase() == next_letter(letters) {
        state_after_letter(purpose, letters)
    } else {
        state_in_search(purpose, false, b)
    }
}

/// Returns the state of a TAP line after a plan of `tests` tests and a hash.
///
/// Only a plan of no tests may have a reason. With 1,000,000,000 tests or more, the line is not a
/// plan.
fn state_after_plan_hash(tests: u64) -> LineProgress
    ensures facts { (kept more : List ℕ) → facts_with result kept more
        ≡ plan_facts (option_map (plan_for (reason_of_skip (directive_in false (35 ∷ more))))
        (below_limit tests)) }
    ensures plain { is_reason result ≡ false }
{
    if tests == 0 {
        LineProgress::Hash(DirectivePurpose::Explain)
    } else if tests < PLAN_TESTS_LIMIT {
        LineProgress::KnownKind(LineKind::Plan(tests))
    } else {
        LineProgress::KnownKind(LineKind::Other)
    }
}

/// Returns the state of a TAP line after a plan of `tests` tests, blanks if any, and the byte `b`.
fn state_after_blanks(tests: u64, b: u8) -> LineProgress
    ensures facts { (kept more : List ℕ) → facts_with result kept more
        ≡ facts_with (LineProgress.Blanks tests) kept (b ∷ more) }
    ensures plain { is_reason result ≡ false }
{
    if is_blank(b) {
        LineProgress::Blanks(tests)
    } else if b == b'#' {
        state_after_plan_hash(tests)
    } else {
        LineProgress::KnownKind(LineKind::Other)
    }
}

/// Returns the state of a TAP line after the digits of a plan and one more digit.
///
/// `value` is the value of the digits, and `digit` that of the digit after them. If `value` is
/// 1,000,000,000 or more, the line is not a plan.
fn state_after_next_digit(value: u64, digit: u64) -> LineProgress
    requires { digit < 2 ^ 8 }
    ensures facts { (b : ℕ) → is_digit b ≡ true → digit ≡ b - 48 → (kept more : List ℕ)
        → facts_with result kept more ≡ facts_with (LineProgress.Digits (Some value)) kept (b ∷
        more) }
    ensures plain { is_reason result ≡ false }
{
    if value < PLAN_TESTS_LIMIT {
        LineProgress::Digits(Some(10 * value + digit))
    } else {
        LineProgress::KnownKind(LineKind::Other)
    }
}

/// Returns the state of a TAP line after the digit `b` of a plan.
///
/// `value` is the value of the digits before `b`, or `None` if `b` is the first digit.
fn state_after_digit(value: Option<u64>, b: u8) -> LineProgress
    ensures facts { is_digit b ≡ true → (kept more : List ℕ)
        → facts_with result kept more ≡ facts_with (LineProgress.Digits value) kept (b ∷ more) }
    ensures plain { is_reason result ≡ false }
{
    let digit = b.saturating_sub(b'0') as u64;
    match value {
        None => LineProgress::Digits(Some(digit)),
        Some(n) => state_after_next_digit(n, digit),
    }
}

/// Returns the state of a TAP line after `1..`, digits if any, and the byte `b`.
///
/// `value` is the value of the digits, or `None` without digits.
fn state_after_plan_digits(value: Option<u64>, b: u8) -> LineProgress
    ensures facts { (kept more : List ℕ) → facts_with result kept more
        ≡ facts_with (LineProgress.Digits value) kept (b ∷ more) }
    ensures plain { is_reason result ≡ false }
{
    if is_digit(b) {
        return state_after_digit(value, b);
    }
    match value {
        None => LineProgress::KnownKind(LineKind::Other),
        Some(tests) => state_after_blanks(tests, b),
    }
}

/// Returns the state of a TAP line after the complete opening `opening` and the byte `b`.
fn state_after_opening(opening: Opening, b: u8) -> LineProgress
    ensures facts { (kept more : List ℕ) → facts_with result kept more
        ≡ facts_after_opening opening (b ∷ more) }
    ensures plain { is_reason result ≡ false }
{
    match opening {
        Opening::BailOut => LineProgress::KnownKind(LineKind::Bail),
        Opening::Ok if is_blank(b) => LineProgress::KnownKind(LineKind::Test),
        Opening::NotOk if is_blank(b) => LineProgress::DirectiveSearch(
            DirectivePurpose::Excuse,
            false,
        ),
        Opening::Plan => state_after_plan_digits(None, b),
        Opening::Ok | Opening::NotOk => LineProgress::KnownKind(LineKind::Other),
    }
}

/// Returns the state of a TAP line after a part of its opening and the byte `b`.
///
/// `lacks` are the bytes of the opening that are missing before `b`.
fn state_within_opening(opening: Opening, lacks: &'static [u8], b: u8) -> LineProgress
    ensures facts { (kept more : List ℕ) → facts_with result kept more
        ≡ facts_with (LineProgress.PartialOpening opening lacks.entry) kept (b ∷ more) }
    ensures plain { is_reason result ≡ false }
{
    match lacks.split_first() {
        None => state_after_opening(opening, b),
        Some((c, lacks)) if *c == b => LineProgress::PartialOpening(opening, lacks),
        Some(_) => LineProgress::KnownKind(LineKind::Other),
    }
}

/// Returns the state of a TAP line after the byte `b`, if its state before `b` is `begun`.
///
/// The caller handles the bytes of a reason, so the state `Reason` is returned unchanged.
pub fn state_after_byte(begun: LineProgress, b: u8) -> LineProgress
    ensures facts { is_reason_byte begun b ≡ false → (kept more : List ℕ)
        → facts_with result kept more ≡ facts_with begun kept (b ∷ more) }
    ensures kept { is_reason result ≡ is_reason begun }
{
    match begun {
        LineProgress::Nothing => state_after_first_byte(b),
        LineProgress::PartialOpening(opening, lacks) => state_within_opening(opening, lacks, b),
        LineProgress::Digits(value) => state_after_plan_digits(value, b),
        LineProgress::Blanks(tests) => state_after_blanks(tests, b),
        LineProgress::DirectiveSearch(purpose, escaped) => state_in_search(purpose, escaped, b),
        LineProgress::Hash(purpose) => state_after_hash(purpose, b),
        LineProgress::DirectiveLetters(purpose, letters) => state_after_letters(
            purpose, letters, b,
        ),
        LineProgress::Word if is_blank(b) => LineProgress::Gap,
        LineProgress::Word => LineProgress::Word,
        LineProgress::Gap => LineProgress::Gap,
        LineProgress::Reason => LineProgress::Reason,
        LineProgress::KnownKind(kind) => LineProgress::KnownKind(kind),
    }
}
