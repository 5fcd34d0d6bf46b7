ghost use Rattle.std.specs.Prelude.{◌≡◌, IfOk};
ghost use Rattle.kt_claim.specs.Common.{IsClaimOf, Claim};

use crate::result_line::claim_of;
use crate::{Claim, ClaimFault};
use kt_base::NoMemory;
use std::alloc::Global;
use std::marker::Model;

/// The greatest length of a result file, in bytes.
pub const MAX_RESULT_FILE_BYTES: usize = 65_536;

/// A reader of a result file that is read in pieces.
///
/// The reader keeps at most 65,536 bytes of the file.
#[derive(Drop)]
pub struct ClaimReader {
    alloc: Global,
    bytes: Vec<u8>,
    too_long: bool,
    failed: Option<NoMemory>,
}

impl Model for ClaimReader {
    ghost use Rattle.std.specs.Prelude.{◌≤◌, length, is_some};
    ghost use Rattle.kt_claim.specs.ClaimReaderState.{ClaimReaderState};
    ghost use Rattle.kt_claim.specs.ResultFile.{limit};

    ghost Value = { ClaimReaderState };

    ghost view = { λ r. record {
      kept = r.bytes.items;
      too_long = r.too_long;
      failed = is_some r.failed;
    } };

    ghost invariant = { λ r. length r.bytes.items ≤ limit };
}

impl ClaimReader {
    ghost use Rattle.std.specs.Prelude.{◌≤◌, length, ◌≡◌, ℕ, List, [], ◌++◌, true, IfOk, OnOk, OnErr, IsErr};
    ghost use Rattle.kt_claim.specs.Common.{HasRead, limit, IsClaimOf, Claim};

    /// Creates a reader of a result file, which has read nothing. The call doesn't allocate.
    pub fn new(alloc: Global) -> Self
        ensures { HasRead result [] }
    {
        ClaimReader {
            alloc,
            bytes: Vec::new(alloc),
            too_long: false,
            failed: None,
        }
    }

    /// Reads `piece`, the next bytes of the result file.
    ///
    /// If the file has more than 65,536 bytes, its claim is `Malformed(TooLong)`.
    ///
    /// # Errors
    ///
    /// - `NoMemory`: an allocation fails in this call, or failed in an earlier call.
    pub fn feed(&mut self, piece: &[u8]) -> Result<(), NoMemory>
        ensures ok { OnOk result ((fed : List ℕ) → HasRead self.old fed
            → HasRead self.new (fed ++ piece.now)) }
        ensures bounded { length self.new.kept ≤ limit }
        ensures err { OnErr result (self.new.failed ≡ true) }
        ensures failed { self.old.failed ≡ true → IsErr result }
    {
        if let Some(refusal) = self.failed {
            return Err(refusal);
        }
        if self.too_long || piece.len() > MAX_RESULT_FILE_BYTES - self.bytes.len() {
            self.too_long = true;
            return Ok(());
        }
        if let Err(error) = self.bytes.extend_from_slice(piece) {
            let refusal = NoMemory::from(error);
            self.failed = Some(refusal);
            return Err(refusal);
        }
        Ok(())
    }

    /// Returns the claim of the result file that was read (this profile).
    ///
    /// A file that is not valid has the claim `Malformed`, which is not an error of this call.
    ///
    /// # Errors
    ///
    /// - `NoMemory`: an allocation fails in this call, or failed in an earlier call.
    pub fn finish(self) -> Result<Claim, NoMemory>
        ensures value { (fed : List ℕ) → HasRead self fed
            → IfOk result (λ claim. IsClaimOf fed claim) }
        ensures only { (fed : List ℕ) → HasRead self fed → (claim : Claim) → IsClaimOf fed claim
            → IfOk result (λ c. c ≡ claim) }
        ensures failed { self.failed ≡ true → IsErr result }
    {
        if let Some(refusal) = self.failed {
            return Err(refusal);
        }
        if self.too_long {
            return Ok(Claim::Malformed(ClaimFault::TooLong));
        }
        claim_of(self.alloc, &self.bytes)
    }
}

/// Parses `file`, a whole result file, and returns its claim (this profile).
///
/// # Errors
///
/// - `NoMemory`: an allocation fails.
pub fn read_claim(alloc: Global, file: &[u8]) -> Result<Claim, NoMemory>
    ensures value { IfOk result (λ claim. IsClaimOf file.now claim) }
    ensures only { (claim : Claim) → IsClaimOf file.now claim → IfOk result (λ c. c ≡ claim) }
{
    let mut reader = ClaimReader::new(alloc);
    reader.feed(file)?;
    reader.finish()
}
