ghost use Rattle.std.specs.Prelude.{◌≡◌, List, ◌≤◌, Result, length};
ghost use Rattle.kt_child.specs.Common.{IsEvidence, IsMoment, Chain, Call, FinishesChild, Removes, stderr_path, is_last_child, stdout_path, FileRead, OsFault, ReadFile, IsListWithin, bytes_of, list_of};

use crate::Paths;
use crate::ending::gathering::read_evidence;
use crate::planning::CaseAttempt;
use kt_atflist::ListBytes;
use kt_base::{Bytes, Outcome, Output, Role, Text};
use kt_os::{FileRead, Os, moment};
use kt_sched::Ended;
use std::alloc::Global;

/// The greatest size of a recorded output, in bytes (this profile). Further bytes are dropped.
const MAX_OUTPUT_BYTES: u64 = 1_048_576;

/// The greatest size of a list of test cases, in bytes (this profile).
const MAX_LIST_BYTES: u64 = 1_048_576;

/// Reads an output of a child from the file `path`, at most 1,048,576 bytes. Returns no bytes if
/// the file is missing or a read fails.
pub(crate) fn read_child_output<O: Os>(alloc: Global, os: &mut O, path: &Text) -> Bytes
    ensures asked { (answer : Result FileRead OsFault)
        × O.leads os.old (ReadFile path.now 1048576 answer) os.new
        × (result ≡ bytes_of answer) }
    ensures within { length result ≤ 1048576 }
{
    match os.read_file(path, MAX_OUTPUT_BYTES) {
        Ok(FileRead::Part(bytes, _)) => bytes,
        Ok(FileRead::Missing) | Err(_) => Bytes::new(alloc),
    }
}

/// Reads the list of test cases that a program wrote to the file `path`. Returns `TooLong` if the
/// file has more than 1,048,576 bytes, and `Unreadable` if it is missing or a read fails.
pub(crate) fn read_list<O: Os>(os: &mut O, path: &Text) -> ListBytes
    ensures asked { (answer : Result FileRead OsFault)
        × O.leads os.old (ReadFile path.now 1048576 answer) os.new
        × (result ≡ list_of answer) }
    ensures within { IsListWithin result }
{
    match os.read_file(path, MAX_LIST_BYTES) {
        Ok(FileRead::Part(bytes, false)) => ListBytes::Read(bytes),
        Ok(FileRead::Part(_, true)) => ListBytes::TooLong,
        Ok(FileRead::Missing) | Err(_) => ListBytes::Unreadable,
    }
}

/// Returns the paths of the files for a child's standard output and standard error, in that order.
pub(crate) fn output_paths(role: Role, paths: &Paths) -> (&Text, &Text)
    ensures out { result.0.now ≡ stdout_path role paths.now }
    ensures err { result.1.now ≡ stderr_path role paths.now }
{
    match role {
        Role::Body => (&paths.out, &paths.err),
        Role::Cleanup => (&paths.cleanup_out, &paths.cleanup_err),
    }
}

/// Returns `true` if no cleanup follows after the current child of `case` has ended.
pub(crate) fn is_last_child(case: &CaseAttempt) -> bool
    ensures { result ≡ is_last_child case.now }
{
    case.role == Role::Cleanup || !case.cleanup
}

/// Removes the directory `dir` if `removed` is `true`. A failed removal is ignored.
pub(crate) fn remove_dir_if_requested<O: Os>(os: &mut O, removed: bool, dir: &Text)
    ensures { (calls : List Call) × Chain O.leads os.old calls os.new
        × Removes removed dir.now calls }
{
    if removed {
        let _ = os.remove_tree(dir);
    }
}

/// Reads the clock, and then the evidence and outputs of a finished child. Returns the end of the
/// child: `outcome`, the time, the evidence and the outputs. Removes the directory of the attempt
/// if no cleanup follows.
pub(crate) fn finish_child<O: Os>(
    alloc: Global,
    os: &mut O,
    case: &CaseAttempt,
    outcome: Outcome,
) -> Ended
    ensures left { (calls : List Call) × Chain O.leads os.old calls os.new
        × FinishesChild case.now calls outcome result }
    ensures moment { IsMoment result.moment }
    ensures evidence { IsEvidence case.now.interface result.role result.evidence }
{
    // Read the clock first, so that the time of a case does not include these reads.
    let moment = moment(os);
    let evidence = read_evidence(alloc, os, case.interface, case.role, &case.paths);
    let (out, err) = output_paths(case.role, &case.paths);
    let out = read_child_output(alloc, os, out);
    let err = read_child_output(alloc, os, err);
    // Remove the directory last, since it contains the files that are read.
    remove_dir_if_requested(os, is_last_child(case), &case.paths.dir);
    Ended {
        position: case.position,
        role: case.role,
        outcome,
        evidence,
        output: Output { out, err },
        moment,
    }
}
