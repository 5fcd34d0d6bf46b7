ghost use Rattle.std.specs.Prelude.{◌≡◌, ◌+◌, ◌<◌, ℕ, Bool, true, false, cond};
ghost use Rattle.kt_sched.specs.Common.{ChangesStage, Start, End, can_start, is_active_stage, pending_at, ready_at, is_same_role, stage_runs};
ghost use Rattle.kt_base.specs.declared.child.Role.TheVariants.{Body as TheBody};

use crate::case_records::{empty_output, unstarted_record};
use crate::stage::{CaseRecord, EndedBody, Stage};
use crate::{Ended, StartAnswer};
use kt_base::Role;
use kt_status::{CleanupEnd, body_verdict, refused_verdict, with_cleanup};
use std::alloc::Global;

/// Returns the stage of a case after the launcher's response `answer` to the start of its body or
/// its cleanup, as `role` selects.
///
/// `was` is the stage before the start.
pub fn stage_after_start(alloc: Global, was: Stage, role: Role, answer: StartAnswer) -> Stage
    requires { can_start role was ≡ true }
    ensures { (i : ℕ) (cleanup : Bool) → ChangesStage cleanup was (Start i role answer) result }
{
    match (role, was) {
        (Role::Body, Stage::Waiting) => match answer {
            StartAnswer::Started(moment) => Stage::Running(moment),
            StartAnswer::Refused(cause) => Stage::Finished(unstarted_record(
                alloc,
                refused_verdict(cause),
            )),
        },
        (Role::Cleanup, Stage::PendingCleanup(body)) => match answer {
            StartAnswer::Started(_) => Stage::Cleaning(body),
            StartAnswer::Refused(_) => Stage::Finished(CaseRecord {
                verdict: with_cleanup(body.verdict, CleanupEnd::Refused),
                started: body.started,
                millis: body.ended.saturating_sub(body.started),
                body: body.output,
                cleanup: empty_output(alloc),
            }),
        },
        _ => unreachable!(),
    }
}

/// Returns the stage of a case after its running child ended with `ended`.
///
/// `was` is the stage before the end. `cleanup` is `true` if the case declares a cleanup.
///
/// If the clock was set back, the duration of the case is 0.
pub fn stage_after_end(alloc: Global, was: Stage, cleanup: bool, ended: Ended) -> Stage
    requires { stage_runs ended.role was ≡ true }
    ensures { ChangesStage cleanup was (End ended) result }
{
    match was {
        Stage::Running(since) if cleanup => Stage::PendingCleanup(EndedBody {
            started: since,
            ended: ended.moment,
            verdict: body_verdict(ended.evidence, ended.outcome),
            output: ended.output,
        }),
        Stage::Running(since) => Stage::Finished(CaseRecord {
            verdict: body_verdict(ended.evidence, ended.outcome),
            started: since,
            millis: ended.moment.saturating_sub(since),
            body: ended.output,
            cleanup: empty_output(alloc),
        }),
        Stage::Cleaning(body) => Stage::Finished(CaseRecord {
            verdict: with_cleanup(body.verdict, CleanupEnd::Ended(ended.outcome)),
            started: body.started,
            millis: ended.moment.saturating_sub(body.started),
            body: body.output,
            cleanup: ended.output,
        }),
        _ => unreachable!(),
    }
}

/// Returns the number of active cases after an event: a response to a start, or the end of a child.
///
/// `active` is the number of active cases before the event, and `width` is the greatest number of
/// active cases. `before` is `true` if the case of the event was active before the event. `stage`
/// is the new stage of that case.
pub fn active_after_event(active: u32, width: u32, before: bool, stage: &Stage) -> u32
    requires less { before ≡ true → 0 < active }
    requires more { before ≡ false → active < width }
    ensures { result + cond before 1 0 ≡ active + cond (is_active_stage stage.now) 1 0 }
{
    match stage {
        Stage::Running(_) | Stage::PendingCleanup(_) | Stage::Cleaning(_) if before => active,
        Stage::Running(_) | Stage::PendingCleanup(_) | Stage::Cleaning(_) => active + 1,
        _ if before => active - 1,
        _ => active,
    }
}

/// Returns the index of the next case in turn order, after the start of a body or a cleanup was
/// requested, as `role` selects.
///
/// In turn order, exclusive cases come last. `turn` is the index before the start. The start of a
/// body adds 1 to it, even if the launcher refused the start. The start of a cleanup keeps it.
/// `cases` is the number of cases.
pub fn turn_after_start(turn: usize, cases: usize, role: Role) -> usize
    requires { role ≡ TheBody → turn < cases }
    ensures { result ≡ turn + cond (is_same_role role TheBody) 1 0 }
{
    match role {
        Role::Body => turn + 1,
        Role::Cleanup => turn,
    }
}

/// Returns the new values of the scheduler's fields `pending` and `ready` after an event of the
/// case at position `i`.
///
/// `stage` is the new stage of the case, and `failed` is `true` if a put failed. The first result
/// is `i` if the cleanup of the case is to be started next, else `None`. The second result is `i`
/// if the case is over and no put failed, else `None`: the entry of the case is to be put.
///
/// No event leads a case to the stage `Decided` or `Taken`. The match lists them, because a case in
/// these stages is over, too.
pub fn pending_and_ready_cases(stage: &Stage, failed: bool, i: u32) -> (Option<u32>, Option<u32>)
    ensures owing { result.0 ≡ pending_at stage.now i }
    ensures ready { result.1 ≡ ready_at stage.now failed i }
{
    match stage {
        Stage::PendingCleanup(_) => (Some(i), None),
        Stage::Decided | Stage::Finished(_) | Stage::Taken if !failed => (None, Some(i)),
        _ => (None, None),
    }
}
