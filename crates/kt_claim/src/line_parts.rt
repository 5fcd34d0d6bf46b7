//! Reads the parts of a TAP line, and finds the kind of the line at its end.

ghost use Rattle.std.specs.Prelude.{◌≡◌, ◌∷◌, ◌++◌, ℕ, List, [], IfOk, OnOk, None, false, true};
ghost use Rattle.kt_claim.specs.Common.{facts_with, is_reason_byte, is_kind_known, KeepsIfReason, IsStateAfter, IsStateMidLine, without_trailing_blanks, facts_after_opening, directive_facts, facts_of_kind, is_reason};

use crate::line_steps::{PLAN_TESTS_LIMIT, is_blank, state_after_byte};
use crate::open_line::{DirectivePurpose, LineKind, LineProgress, OpenLine, Opening};
use kt_base::NoMemory;

/// Returns `text` without the spaces and tabs at its end.
pub fn trim_trailing_blanks(text: &[u8]) -> &[u8]
    ensures { result.now ≡ without_trailing_blanks text.now }
{
    let mut rest = text;
    while let Some((b, front)) = rest.split_last() {
        if !is_blank(*b) {
            break;
        }
        rest = front;
    }
    rest
}

/// Returns the kind of a TAP line that consists of the opening `opening` alone, such as `ok`.
fn kind_of_opening(opening: Opening) -> LineKind
    ensures { facts_of_kind result [] ≡ facts_after_opening opening [] }
{
    match opening {
        Opening::BailOut => LineKind::Bail,
        Opening::Ok => LineKind::Test,
        Opening::NotOk => LineKind::Failure,
        Opening::Plan => LineKind::Other,
    }
}

/// Returns the kind of a TAP line that ends within its opening or directly after it.
///
/// The opening is `opening`, and `lacks` are its missing bytes.
fn kind_within_opening(opening: Opening, lacks: &'static [u8]) -> LineKind
    ensures { (kept : List ℕ) → facts_of_kind result []
        ≡ facts_with (LineProgress.PartialOpening opening lacks.entry) kept [] }
{
    if lacks.is_empty() {
        kind_of_opening(opening)
    } else {
        LineKind::Other
    }
}

/// Returns the kind of a TAP line that has the form of a plan of `tests` tests.
///
/// With 1,000,000,000 tests or more, the line is not a plan.
fn kind_of_plan(tests: u64) -> LineKind
    ensures { (kept : List ℕ) → facts_of_kind result []
        ≡ facts_with (LineProgress.Blanks tests) kept [] }
{
    if tests < PLAN_TESTS_LIMIT {
        LineKind::Plan(tests)
    } else {
        LineKind::Other
    }
}

/// Returns the kind of a TAP line that ends after `1..` and the digits of a plan.
///
/// `value` is the value of the digits. Without digits, it is `None`, and the line is not a plan.
fn kind_of_digits(value: Option<u64>) -> LineKind
    ensures { (kept : List ℕ) → facts_of_kind result []
        ≡ facts_with (LineProgress.Digits value) kept [] }
{
    match value {
        None => LineKind::Other,
        Some(tests) => kind_of_plan(tests),
    }
}

/// Returns the kind of a TAP line in which the search for a directive found none.
///
/// `purpose` is the purpose of the search. The line is a failed test for `Excuse`, and a plan of no
/// tests for `Explain`.
fn kind_without_directive(purpose: DirectivePurpose) -> LineKind
    ensures { facts_of_kind result [] ≡ directive_facts purpose None }
{
    match purpose {
        DirectivePurpose::Excuse => LineKind::Failure,
        DirectivePurpose::Explain => LineKind::Plan(0),
    }
}

/// Returns the kind of a TAP line that ends in the state `begun`.
///
/// The kind of a plan of no tests does not contain the plan's reason.
pub fn kind_at_end(begun: LineProgress) -> LineKind
    ensures plain { is_reason begun ≡ false → (kept : List ℕ)
        → facts_of_kind result [] ≡ facts_with begun kept [] }
    ensures reason { is_reason begun ≡ true → result ≡ LineKind.Plan 0 }
{
    match begun {
        LineProgress::Nothing => LineKind::Other,
        LineProgress::PartialOpening(opening, lacks) => kind_within_opening(opening, lacks),
        LineProgress::Digits(value) => kind_of_digits(value),
        LineProgress::Blanks(tests) => kind_of_plan(tests),
        LineProgress::DirectiveSearch(purpose, _) => kind_without_directive(purpose),
        LineProgress::Hash(purpose) => kind_without_directive(purpose),
        LineProgress::DirectiveLetters(purpose, _) => kind_without_directive(purpose),
        LineProgress::Word => LineKind::Plan(0),
        LineProgress::Gap => LineKind::Plan(0),
        LineProgress::Reason => LineKind::Plan(0),
        LineProgress::KnownKind(kind) => kind,
    }
}

/// Returns `true` if `b`, the byte after the state `begun`, belongs to the reason of a plan.
fn is_reason_byte(begun: LineProgress, b: u8) -> bool
    ensures { result ≡ is_reason_byte begun b }
{
    match begun {
        LineProgress::Reason => true,
        LineProgress::Gap => !is_blank(b),
        _ => false,
    }
}

/// Returns `true` if the kind of a TAP line in the state `begun` is known.
fn is_kind_known(begun: LineProgress) -> bool
    ensures { result ≡ is_kind_known begun }
{
    matches!(begun, LineProgress::KnownKind(_))
}

/// Reads `part`, the next bytes of a TAP line, and returns the state after them.
///
/// `begun` is the state before the bytes. Bytes of a reason are appended to `kept`. Once the kind
/// of the line is known, the rest of the bytes is ignored.
fn feed_bytes(
    begun: LineProgress,
    kept: &mut Vec<u8>,
    part: &[u8],
) -> Result<LineProgress, NoMemory>
    ensures { IfOk result (λ after. KeepsIfReason begun kept.old.items
        → KeepsIfReason after kept.new.items
        × ((more : List ℕ) → facts_with begun kept.old.items (part.now ++ more)
        ≡ facts_with after kept.new.items more)) }
{
    let mut state = begun;
    let mut rest = part;
    while let Some((b, after)) = rest.split_first() {
        if is_kind_known(state) {
            return Ok(state);
        }
        if is_reason_byte(state, *b) {
            kept.extend_from_slice(rest)?;
            return Ok(LineProgress::Reason);
        }
        state = state_after_byte(state, *b);
        rest = after;
    }
    Ok(state)
}

/// Reads a carriage return that an earlier call held back, if `held_cr` is `true`, and returns the
/// new state of the TAP line.
///
/// `begun` is the state of the line before the carriage return, and `kept` has the kept bytes of
/// the line. The caller has more bytes of the line, so the carriage return is not at the end of the
/// line.
fn feed_carriage_return(
    begun: LineProgress,
    kept: &mut Vec<u8>,
    held_cr: bool,
) -> Result<LineProgress, NoMemory>
    ensures { IfOk result (λ after. (came : List ℕ) → IsStateAfter begun kept.old.items held_cr came
        → IsStateMidLine after kept.new.items came) }
{
    if held_cr {
        feed_bytes(begun, kept, b"\r")
    } else {
        Ok(begun)
    }
}

/// Reads `part`, the next bytes of the open TAP line `line`.
///
/// The bytes contain no newline. A carriage return at their end is held back, since it may be at
/// the end of the line.
///
/// # Errors
///
/// - `NoMemory`: an allocation fails.
pub fn feed_line(line: &mut OpenLine, part: &[u8]) -> Result<(), NoMemory>
    ensures { OnOk result ((came : List ℕ)
        → IsStateAfter line.old.begun line.old.kept.items line.old.held_cr came
        → IsStateAfter line.new.begun line.new.kept.items line.new.held_cr (came ++ part.now)) }
{
    let Some((last, front)) = part.split_last() else {
        return Ok(());
    };
    let begun = feed_carriage_return(line.begun, &mut line.kept, line.held_cr)?;
    if *last == b'\r' {
        line.begun = feed_bytes(begun, &mut line.kept, front)?;
        line.held_cr = true;
        return Ok(());
    }
    line.begun = feed_bytes(begun, &mut line.kept, part)?;
    line.held_cr = false;
    Ok(())
}
