ghost use Rattle.std.specs.Prelude.{◌≡◌, ℕ, ◌+◌, ◌<◌, List, [], Result, Some, length, Ok, IfNone, OnOk};
ghost use Rattle.kt_child.specs.Common.{FileRead, OsFault, Chain, Call, bytes_of, TakesBytes, IsReadEnd, Reads, next_part_call};

use crate::ending::PartsResult;
use kt_base::{NoMemory, Text};
use kt_claim::{ClaimReader, TapReader};
use kt_os::{FileRead, Os};

/// An interface to a reader that parses a file part by part.
pub(crate) trait PartReader {
    ghost use Rattle.std.specs.Prelude.{ℕ, List, OnOk};
    ghost use Rattle.kt_child.specs.Inner.Children.{TakesBytes};

    /// `has_taken reader bytes`: `bytes` are all bytes that were fed to `reader` so far.
    ghost has_taken: { Self → List ℕ → Type 0 };

    /// Feeds the next part of the file to the reader.
    ///
    /// # Errors
    ///
    /// - `NoMemory`: an allocation fails.
    fn feed_next_part(&mut self, part: &[u8]) -> Result<(), NoMemory>
        ensures { OnOk result (TakesBytes has_taken self.old self.new part.now) };
}

impl PartReader for ClaimReader {
    ghost use Rattle.kt_claim.specs.ClaimReaderState.{HasRead};

    ghost has_taken = { λ reader bytes. HasRead reader bytes };

    fn feed_next_part(&mut self, part: &[u8]) -> Result<(), NoMemory> {
        self.feed(part)
    }
}

impl PartReader for TapReader {
    ghost use Rattle.kt_claim.specs.TapReaderState.{HasReadStream};

    ghost has_taken = { λ reader bytes. HasReadStream reader bytes };

    fn feed_next_part(&mut self, part: &[u8]) -> Result<(), NoMemory> {
        self.feed(part)
    }
}

/// Reads the next part of the file `path`, at most `part` bytes, and feeds the part to `reader`.
///
/// Returns the result of reading the whole file if no other part must be read. Otherwise, adds the
/// part's length to `got` and returns `None`. `got` is the number of bytes that were read before,
/// and `limit` the greatest size of the file in bytes.
fn read_next_part<O: Os, R: PartReader>(
    os: &mut O,
    path: &Text,
    part: u64,
    limit: u64,
    reader: &mut R,
    got: &mut u64,
) -> Option<PartsResult>
    requires { got.old < limit }
    ensures asked { (answer : Result FileRead OsFault)
        × O.leads os.old (next_part_call path.now part limit got.old answer) os.new
        × IsReadEnd limit got.old answer result
        × (result ≡ Some PartsResult.Complete
        → TakesBytes R.has_taken reader.old reader.new (bytes_of answer))
        × IfNone result (TakesBytes R.has_taken reader.old reader.new (bytes_of answer))
        × IfNone result (got.new ≡ got.old + length (bytes_of answer)) }
    ensures more { IfNone result ((got.old < got.new) × (got.new < limit)) }
{
    let room = limit - *got;
    match os.read_part(path, *got, part.min(room)) {
        Err(_) => Some(PartsResult::Unreadable),
        Ok(FileRead::Missing) if *got == 0 => Some(PartsResult::Missing),
        Ok(FileRead::Missing) => Some(PartsResult::Unreadable),
        Ok(FileRead::Part(bytes, follows)) => {
            // An empty part must not allocate, so `feed_next_part` is not called.
            if !bytes.is_empty() && reader.feed_next_part(bytes.as_slice()).is_err() {
                return Some(PartsResult::Unreadable);
            }
            if !follows {
                return Some(PartsResult::Complete);
            }
            if bytes.is_empty() {
                return Some(PartsResult::Unreadable);
            }
            let count = bytes.len() as u64;
            if count >= room {
                return Some(PartsResult::TooLong);
            }
            *got += count;
            None
        }
    }
}

/// Reads the file `path` in parts of at most `part` bytes, and feeds the parts to the new reader
/// `reader`. Returns the result of reading the whole file. At most `limit` bytes are read.
pub(crate) fn read_in_parts<O: Os, R: PartReader>(
    os: &mut O,
    path: &Text,
    part: u64,
    limit: u64,
    reader: &mut R,
) -> PartsResult
    requires some { 0 < limit }
    requires none { R.has_taken reader.old [] }
    ensures { (calls : List Call) × (bytes : List ℕ) × Chain O.leads os.old calls os.new
        × Reads path.now part limit [] calls result bytes
        × (result ≡ PartsResult.Complete → R.has_taken reader.new bytes) }
{
    let mut got = 0;
    'parts: loop {
        if let Some(end) = read_next_part(os, path, part, limit, reader, &mut got) {
            return end;
        }
    }
}
