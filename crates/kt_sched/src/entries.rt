ghost use Rattle.kt_sched.specs.Common.{HasRecord, TakesEntry};

use crate::case_records::unstarted_record;
use crate::stage::{Case, Stage};
use kt_base::{Entry, Text, Variables};
use std::alloc::Global;
use std::mem;

/// Returns the entry of case `i`, moved out of `cases`.
///
/// Before the call, the stage of the case must be `Finished` or `Decided`. After the call, it is
/// `Taken`. Names, reason, outputs and properties are moved, not copied.
pub fn take_entry(alloc: Global, cases: &mut Vec<Case>, i: u32) -> Entry
    requires { HasRecord cases.old.items i }
    ensures { TakesEntry cases.old.items cases.new.items i result }
{
    let case = &mut cases[i as usize];
    let stage = mem::replace(&mut case.stage, Stage::Taken);
    let case_record = match (stage, mem::replace(&mut case.job.decided, None)) {
        (Stage::Finished(case_record), _) => case_record,
        (Stage::Decided, Some(verdict)) => unstarted_record(alloc, verdict),
        _ => unreachable!(),
    };
    Entry {
        position: case.job.position,
        program: mem::replace(&mut case.job.program, Text::new(alloc)),
        case_name: mem::replace(&mut case.job.case_name, Text::new(alloc)),
        verdict: case_record.verdict,
        started: case_record.started,
        millis: case_record.millis,
        body: case_record.body,
        cleanup: case_record.cleanup,
        meta: mem::replace(&mut case.job.meta, Variables::new(alloc)),
    }
}
