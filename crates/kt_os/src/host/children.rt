ghost use Rattle.std.specs.Prelude.{◌≡◌, None, Some, Result, Ok, IsSome, IsTrue, IfNone, IfSome, OnOk};
ghost use Rattle.std.specs.declared.io.Error.{Error};
ghost use Rattle.std.specs.declared.time.Instant.{Instant as Time};
ghost use Rattle.kt_os.specs.Common.{AllProceed, AllStay, OthersStay, IsLateCheck, process_state_in, process_state};

use crate::host::command::ProgramStart;
use crate::host::host_child::HostChild;
use crate::host::pace::{NEWEST_CHILDREN, PAUSE_MICROS, is_time_to_check, next_slice_micros};
use crate::{Child, OsFault};
use indexmap::IndexMap;
use kt_base::NoMemory;
use kt_removal::{Removals, empty_queue_or_sleep};
use std::fs::File;
use std::process::{OpenProcess, Processes};
use std::rt::{Clock, Files};
use std::time::Instant;

/// A map from the names of the host's children to the children.
pub(crate) type Children<P> = IndexMap<Child, HostChild<P>>;

/// Removes a child from the map of the host's children.
///
/// Returns its name and the child, or `None` if the map lacks the child.
pub(crate) fn remove_child<P: OpenProcess + Drop>(
    children: &mut Children<P>,
    child: Child,
) -> Option<(Child, HostChild<P>)>
    ensures own { IfSome result (λ gone. (gone.0 ≡ child)
        × (process_state gone.1 ≡ process_state_in children.old.entries child)) }
    ensures none { IfNone result (process_state_in children.old.entries child ≡ None) }
    ensures forgotten { process_state_in children.new.entries child ≡ None }
    ensures others { OthersStay child (process_state_in children.old.entries)
        (process_state_in children.new.entries) }
{
    let held = children.shift_remove(&child)?;
    Some((child, held))
}

/// Returns `true` if the next output file that is opened for a child is for its standard error.
pub(crate) fn is_stderr_next<P: OpenProcess + Drop>(children: &Children<P>, child: Child) -> bool
    ensures { IsTrue result → process_state_in children.now.entries child ≡ None }
{
    match children.get(&child) {
        Some(held) => held.is_stderr_next(),
        None => false,
    }
}

/// Stores an opened output file of a child.
///
/// The file is for standard error if the child has only the file for standard output. Otherwise, it
/// is the file for the standard output of a new child, which replaces an earlier child of the same
/// name. The timeout of the new child is `limit` seconds.
pub(crate) fn keep_output<P: OpenProcess + Drop, C: Clock>(
    children: &mut Children<P>,
    child: Child,
    limit: u64,
    file: File,
    clock: &C,
) -> Result<(), NoMemory>
    ensures unstarted { process_state_in children.new.entries child ≡ None }
    ensures others { OthersStay child (process_state_in children.old.entries)
        (process_state_in children.new.entries) }
{
    if let Some(held) = children.get_mut(&child) {
        held.keep_file(limit, file, clock);
        return Ok(());
    }
    children.insert(child, HostChild::new(limit, file, clock))?;
    Ok(())
}

/// Starts a program as the child `child` of the host, with the two output files of the child.
///
/// `asked` has the program, its arguments, its environment and its working directory. Fails if the
/// map of children lacks the child, if one of the files is not open, or if the system can't start
/// the program.
pub(crate) fn launch<P: OpenProcess + Drop, R: Processes<Started = P> + Clock + AllocGlobal>(
    children: &mut Children<P>,
    child: Child,
    rt: &R,
    asked: ProgramStart<'_>,
) -> Result<(), OsFault>
    ensures started { OnOk result (IsSome (process_state_in children.new.entries child)) }
    ensures others { OthersStay child (process_state_in children.old.entries)
        (process_state_in children.new.entries) }
{
    match children.get_mut(&child) {
        Some(held) => held.launch(rt, asked),
        None => Err(OsFault::Failed),
    }
}

/// Returns `true` if some child of the host is polled late.
///
/// Such a child has missed more than two polls, at 100 polls a second. Returns `false` if the clock
/// fails.
pub(crate) fn has_late_child<P: OpenProcess + Drop, C: Clock>(
    children: &Children<P>,
    rt: &C,
) -> bool
    ensures { (time : Result Time Error) × IsLateCheck children.now.entries time result }
{
    let Ok(now) = Instant::now(rt) else {
        return false;
    };
    for place in 0..children.len() {
        if children[place].is_late_at(now) {
            return true;
        }
    }
    false
}

/// Kills a child of the host.
///
/// Fails if the map of children lacks the child, if it was not started, or if the system can't kill
/// it.
pub(crate) fn kill<P: OpenProcess + Drop, C: Clock>(
    children: &mut Children<P>,
    child: Child,
    clock: &C,
) -> Result<(), OsFault>
    ensures had { OnOk result (IsSome (process_state_in children.old.entries child)) }
    ensures stay { AllStay (process_state_in children.old.entries) (process_state_in
        children.new.entries) }
{
    match children.get_mut(&child) {
        Some(held) => held.kill(clock),
        None => Err(OsFault::Failed),
    }
}

/// Checks the children at the index `from` and at later indexes, and returns `true` if one has
/// ended.
///
/// An end that an earlier check found does not count. The search stops at the first new end.
fn detect_new_end<P: OpenProcess + Drop>(children: &mut Children<P>, from: usize) -> bool
    ensures { AllProceed (process_state_in children.old.entries) (process_state_in
        children.new.entries) }
{
    for place in from..children.len() {
        let held = &mut children[place];
        if held.detect_new_end() {
            return true;
        }
    }
    false
}

/// Waits until a child has ended, for at most one pause of nominally 10 milliseconds. Returns
/// `true` if an end was found.
///
/// `pauses` is the number of pauses since the end of a child was last found. The pause consists of
/// slices, in which the removal of the directories in `removals` continues. The eight newest
/// children are checked after each slice, and all children at longer intervals. No check follows
/// the last slice, since the caller polls each child next.
pub(crate) fn await_end<P: OpenProcess + Drop, R: Files + Clock + AllocGlobal>(
    children: &mut Children<P>,
    removals: &mut Option<Removals>,
    rt: &R,
    pauses: u32,
) -> bool
    ensures { AllProceed (process_state_in children.old.entries) (process_state_in
        children.new.entries) }
{
    let newest = children.len().saturating_sub(NEWEST_CHILDREN);
    let mut looked = 0;
    let mut rested = 0;
    while rested < PAUSE_MICROS {
        let slice = next_slice_micros(children.len(), pauses, rested);
        let spent = empty_queue_or_sleep(removals, rt, slice);
        rested = rested.saturating_add(spent).min(PAUSE_MICROS);
        let due = is_time_to_check(
            children.len(),
            pauses,
            rested,
            rested.saturating_sub(looked),
        );
        if due {
            looked = rested;
        }
        let from = if due { 0 } else { newest };
        if rested < PAUSE_MICROS && detect_new_end(children, from) {
            return true;
        }
    }
    false
}
