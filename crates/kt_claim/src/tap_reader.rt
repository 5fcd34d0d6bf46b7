ghost use Rattle.std.specs.Prelude.{◌≡◌, IfOk};
ghost use Rattle.kt_claim.specs.Common.{tap_of};

use crate::open_line::{LineProgress, OpenLine};
use crate::tally::Tally;
use crate::tap_lines::{read_piece, tap_at_end};
use crate::{Tap, TapFault};
use kt_base::NoMemory;
use std::alloc::Global;
use std::marker::Model;
use std::mem;

/// The greatest length of a TAP stream, in bytes.
const MAX_STREAM_BYTES: usize = 16_777_216;

/// A reader of a TAP stream that is read in pieces.
///
/// The reader keeps the tally of the complete lines, and the state of the open line. It keeps no
/// bytes of the stream except the reason of a plan of no tests.
#[derive(Drop)]
pub struct TapReader {
    alloc: Global,
    tally: Tally,
    line: OpenLine,
    length: usize,
    too_long: bool,
    failed: Option<NoMemory>,
}

impl Model for TapReader {
    ghost use Rattle.std.specs.Prelude.{◌≤◌, is_some};
    ghost use Rattle.kt_claim.specs.TapReaderState.{TapReaderState};
    ghost use Rattle.kt_claim.specs.Inner.TapReading.{state_of};
    ghost use Rattle.kt_claim.specs.TapStream.{limit};

    ghost Value = { TapReaderState };

    ghost view = { λ r. record {
      tally = r.tally;
      line = state_of r.line;
      length = r.length;
      too_long = r.too_long;
      failed = is_some r.failed;
    } };

    ghost invariant = { λ r. r.length ≤ limit };
}

impl TapReader {
    ghost use Rattle.std.specs.Prelude.{false, ◌≡◌, ◌++◌, ℕ, List, [], true, IfOk, OnOk, OnErr, IsErr};
    ghost use Rattle.kt_claim.specs.Common.{HasReadStream, KeepsOnlyReason, tap_of};

    /// Creates a reader of a TAP stream, which has read nothing. The call doesn't allocate.
    pub fn new(alloc: Global) -> Self
        ensures { HasReadStream result [] }
    {
        TapReader {
            alloc,
            tally: Tally::new(),
            line: OpenLine {
                begun: LineProgress::Nothing,
                kept: Vec::new(alloc),
                held_cr: false,
            },
            length: 0,
            too_long: false,
            failed: None,
        }
    }

    /// Reads `piece`, the next bytes of the TAP stream.
    ///
    /// If the stream has more than 16,777,216 bytes, its result is `Invalid(TooLong)`.
    ///
    /// # Errors
    ///
    /// - `NoMemory`: an allocation fails in this call, or failed in an earlier call.
    pub fn feed(&mut self, piece: &[u8]) -> Result<(), NoMemory>
        ensures ok { OnOk result ((fed : List ℕ) → HasReadStream self.old fed
            → HasReadStream self.new (fed ++ piece.now)) }
        ensures bounded { (fed : List ℕ) → HasReadStream self.new fed → self.new.too_long ≡ false
            → KeepsOnlyReason self.new.line fed }
        ensures err { OnErr result (self.new.failed ≡ true) }
        ensures failed { self.old.failed ≡ true → IsErr result }
    {
        if let Some(refusal) = self.failed {
            return Err(refusal);
        }
        if self.too_long || piece.len() > MAX_STREAM_BYTES - self.length {
            self.too_long = true;
            return Ok(());
        }
        let tally = mem::replace(&mut self.tally, Tally::new());
        match read_piece(self.alloc, tally, &mut self.line, piece) {
            Ok(tally) => self.tally = tally,
            Err(refusal) => {
                self.failed = Some(refusal);
                return Err(refusal);
            }
        }
        self.length += piece.len();
        Ok(())
    }

    /// Returns the result of the TAP stream that was read (the TAP specification, as in this
    /// profile).
    ///
    /// # Errors
    ///
    /// - `NoMemory`: an allocation fails in this call, or failed in an earlier call.
    pub fn finish(self) -> Result<Tap, NoMemory>
        ensures value { (fed : List ℕ) → HasReadStream self fed
            → IfOk result (λ tap. tap ≡ tap_of fed) }
        ensures failed { self.failed ≡ true → IsErr result }
    {
        if let Some(refusal) = self.failed {
            return Err(refusal);
        }
        if self.too_long {
            return Ok(Tap::Invalid(TapFault::TooLong));
        }
        tap_at_end(self.alloc, self.tally, &self.line)
    }
}

/// Parses `text`, a whole TAP stream, and returns its result (the TAP specification, as in this
/// profile).
///
/// # Errors
///
/// - `NoMemory`: an allocation fails.
pub fn read_tap(alloc: Global, text: &[u8]) -> Result<Tap, NoMemory>
    ensures { IfOk result (λ tap. tap ≡ tap_of text.now) }
{
    let mut reader = TapReader::new(alloc);
    reader.feed(text)?;
    reader.finish()
}
