//! Splits a TAP stream, which is read in pieces, into lines.

ghost use Rattle.std.specs.Prelude.{◌≡◌, ◌<◌, ◌≤◌, ◌+◌, ◌++◌, ◌∷◌, [], false, ℕ, List, length, IfOk, OnOk};
ghost use Rattle.kt_claim.specs.Common.{list_any, is_newline, tap_of_lines, lines_of, state_of, HasLines, Tally};
ghost use Rattle.kt_claim.specs.TapStream.{limit};

use crate::Tap;
use crate::line_parts::{feed_line, kind_at_end, trim_trailing_blanks};
use crate::open_line::{LineProgress, OpenLine};
use crate::tally::Tally;
use kt_base::{NoMemory, line_length};
use std::alloc::Global;

/// Reads `part`, the next bytes of the open line `line` of a TAP stream.
fn feed_part(line: &mut OpenLine, part: &[u8]) -> Result<(), NoMemory>
    ensures { OnOk result (list_any is_newline part.now ≡ false → (tally : Tally) (fed : List ℕ)
        → HasLines tally (state_of line.old) fed
        → HasLines tally (state_of line.new) (fed ++ part.now)) }
{
    feed_line(line, part)?;
    Ok(())
}

/// Returns `tally` with the line `line` of a TAP stream added, and resets `line` to an empty line.
///
/// The newline at the end of the line was read.
fn end_line(alloc: Global, tally: Tally, line: &mut OpenLine) -> Result<Tally, NoMemory>
    ensures { IfOk result (λ after. (fed : List ℕ) → length fed < limit
        → HasLines tally (state_of line.old) fed
        → HasLines after (state_of line.new) (fed ++ 10 ∷ [])) }
{
    let after = tally.add(
        alloc,
        kind_at_end(line.begun),
        trim_trailing_blanks(&line.kept),
    )?;
    line.begun = LineProgress::Nothing;
    line.kept.clear();
    line.held_cr = false;
    Ok(after)
}

/// Returns the result of a TAP stream that has ended, of which `line` is the last line.
///
/// `tally` is the tally of the lines before `line`.
///
/// # Errors
///
/// - `NoMemory`: an allocation fails.
pub fn tap_at_end(alloc: Global, tally: Tally, line: &OpenLine) -> Result<Tap, NoMemory>
    ensures { IfOk result (λ tap. (fed : List ℕ) → length fed ≤ limit
        → HasLines tally (state_of line.now) fed → tap ≡ tap_of_lines (lines_of fed)) }
{
    let tally = tally.add(
        alloc,
        kind_at_end(line.begun),
        trim_trailing_blanks(&line.kept),
    )?;
    Ok(tally.tap())
}

/// Reads `piece`, the next bytes of a TAP stream, and returns `tally` with the lines that end in
/// `piece`.
///
/// Before the call, `line` is the open line before the piece, and after the call, the open line
/// after the piece.
///
/// # Errors
///
/// - `NoMemory`: an allocation fails.
pub fn read_piece(
    alloc: Global,
    tally: Tally,
    line: &mut OpenLine,
    piece: &[u8],
) -> Result<Tally, NoMemory>
    ensures { IfOk result (λ after. (fed : List ℕ) → length fed + length piece.now ≤ limit
        → HasLines tally (state_of line.old) fed
        → HasLines after (state_of line.new) (fed ++ piece.now)) }
{
    let mut tally = tally;
    let mut rest = piece;
    while !rest.is_empty() {
        let (part, after) = rest.split_at(line_length(rest));
        feed_part(line, part)?;
        let Some((_, after)) = after.split_first() else {
            return Ok(tally);
        };
        tally = end_line(alloc, tally, line)?;
        rest = after;
    }
    Ok(tally)
}
