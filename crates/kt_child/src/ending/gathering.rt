ghost use Rattle.std.specs.Prelude.{List};
ghost use Rattle.kt_child.specs.Common.{Chain, Call, ReadsEvidence, ReadsClaim, ReadsTap, IsEvidence};

use crate::Paths;
use crate::ending::PartsResult;
use crate::ending::parts::read_in_parts;
use kt_base::{Interface, Role, Text};
use kt_claim::{Claim, ClaimFault, ClaimReader, Evidence, Tap, TapFault, TapReader};
use kt_os::Os;
use std::alloc::Global;

/// The greatest size of one read of a result file, in bytes (this profile).
const RESULT_PART_BYTES: u64 = 4096;

/// The greatest size of a result file, in bytes (this profile). `ClaimReader` has the same limit.
const MAX_RESULT_BYTES: u64 = 65_536;

/// The greatest size of one read of a TAP stream, in bytes (this profile).
const STREAM_PART_BYTES: u64 = 65_536;

/// The greatest size of a TAP stream, in bytes (this profile).
const MAX_STREAM_BYTES: u64 = 16_777_216;

/// Reads the result file of an ATF body and returns its claim.
///
/// The claim is `Missing` if there is no file, and `Unreadable` if a read or an allocation fails.
/// It is `Malformed` with `TooLong` if the file has more than 65,536 bytes.
fn read_claim<O: Os>(alloc: Global, os: &mut O, path: &Text) -> Claim
    ensures { (calls : List Call) × Chain O.leads os.old calls os.new
        × ReadsClaim path.now calls result }
{
    let mut reader = ClaimReader::new(alloc);
    match read_in_parts(os, path, RESULT_PART_BYTES, MAX_RESULT_BYTES, &mut reader) {
        PartsResult::Missing => Claim::Missing,
        PartsResult::Unreadable => Claim::Unreadable,
        PartsResult::TooLong => Claim::Malformed(ClaimFault::TooLong),
        PartsResult::Complete => match reader.finish() {
            Ok(claim) => claim,
            Err(_) => Claim::Unreadable,
        },
    }
}

/// Reads the output of a TAP body and parses it as a TAP stream.
///
/// The result is `Invalid` with `Unreadable` if the output is missing, or if a read or an
/// allocation fails. It is `Invalid` with `TooLong` if the output has more than 16,777,216 bytes.
fn read_tap<O: Os>(alloc: Global, os: &mut O, path: &Text) -> Tap
    ensures { (calls : List Call) × Chain O.leads os.old calls os.new
        × ReadsTap path.now calls result }
{
    let mut reader = TapReader::new(alloc);
    match read_in_parts(os, path, STREAM_PART_BYTES, MAX_STREAM_BYTES, &mut reader) {
        PartsResult::Missing | PartsResult::Unreadable => Tap::Invalid(TapFault::Unreadable),
        PartsResult::TooLong => Tap::Invalid(TapFault::TooLong),
        PartsResult::Complete => match reader.finish() {
            Ok(tap) => tap,
            Err(_) => Tap::Invalid(TapFault::Unreadable),
        },
    }
}

/// Reads the evidence of a finished child: the result file of an ATF body, or the output of a TAP
/// body. For a plain program or a cleanup, reads nothing and returns `Plain`.
pub(crate) fn read_evidence<O: Os>(
    alloc: Global,
    os: &mut O,
    interface: Interface,
    role: Role,
    paths: &Paths,
) -> Evidence
    ensures gathered { (calls : List Call) × Chain O.leads os.old calls os.new
        × ReadsEvidence interface role paths.now calls result }
    ensures interface { IsEvidence interface role result }
{
    match (role, interface) {
        (Role::Body, Interface::Atf) => Evidence::Atf(read_claim(alloc, os, &paths.result)),
        (Role::Body, Interface::Tap) => Evidence::Tap(read_tap(alloc, os, &paths.out)),
        (Role::Body, Interface::Plain) | (Role::Cleanup, _) => Evidence::Plain,
    }
}
