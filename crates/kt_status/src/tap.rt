ghost use Rattle.std.specs.Prelude.{◌≡◌, ◌++◌, codes};
ghost use Rattle.kt_status.specs.Common.{phrase_text, tap_fault_text, tap_verdict};

use kt_base::{Outcome, Phrase, Reason, Verdict};
use kt_claim::{Tap, TapFault};

/// Returns the phrase for TAP output with the error `fault`. The phrase is the reason of the
/// `broken` verdict.
fn fault_phrase(fault: TapFault) -> Phrase
    ensures { phrase_text result ≡ codes "TAP test program yielded invalid data: "
        ++ tap_fault_text fault }
{
    match fault {
        TapFault::Unreadable => Phrase::TapUnreadable,
        TapFault::TooLong => Phrase::TapTooLong,
        TapFault::NoPlan => Phrase::TapNoPlan,
        TapFault::SecondPlan => Phrase::TapSecondPlan,
        TapFault::PlanDiffers => Phrase::TapPlanDiffers,
    }
}

/// Returns the verdict on the case of a TAP program (this profile).
///
/// `tap` is the summary of the program's TAP output, and `outcome` is the outcome of the program.
/// The first matching row of the TAP table (`TapRow`) decides. The call doesn't allocate.
pub fn tap_verdict(tap: Tap, outcome: Outcome) -> Verdict
    ensures { result ≡ tap_verdict tap outcome }
{
    match (tap, outcome) {
        (_, Outcome::WaitFailed) => Verdict::broken(Reason::Fixed(Phrase::CaseNotWaitedFor)),
        (_, Outcome::TimedOut) => Verdict::broken(Reason::Fixed(Phrase::CaseTimedOut)),
        (_, Outcome::Signaled(signal, _)) => {
            Verdict::broken(Reason::Counted(Phrase::ReceivedSignal, signal as u64, 0))
        }
        (Tap::BailedOut, _) => Verdict::failed(Reason::Fixed(Phrase::BailedOut)),
        (Tap::Invalid(fault), _) => Verdict::broken(Reason::Fixed(fault_phrase(fault))),
        (Tap::SkipAll(reason), _) => Verdict::skipped(Reason::Owned(reason)),
        (Tap::Counted(some, all), _) if some > 0 => {
            Verdict::failed(Reason::Counted(Phrase::TestsFailed, some, all))
        }
        (Tap::Counted(_, _), Outcome::Exited(0)) => Verdict::passed(),
        (Tap::Counted(_, _), Outcome::Exited(code)) => {
            Verdict::broken(Reason::Counted(Phrase::Dubious, code as u64, 0))
        }
    }
}
