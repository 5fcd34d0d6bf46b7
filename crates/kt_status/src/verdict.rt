ghost use Rattle.std.specs.Prelude.{◌≡◌};
ghost use Rattle.kt_status.specs.Common.{VerdictValue, IsVerdict, IsVerdictOfRefusal, plain_verdict};

use crate::atf::atf_verdict;
use crate::tap::tap_verdict;
use kt_base::{Outcome, Phrase, Reason, Refused, Verdict};
use kt_claim::Evidence;

/// Returns the verdict on the case of a plain program with the outcome `outcome` (this profile).
///
/// The case passed if the program exited with 0. The call doesn't allocate.
pub fn plain_verdict(outcome: Outcome) -> Verdict
    ensures { result ≡ plain_verdict outcome }
{
    match outcome {
        Outcome::WaitFailed => Verdict::broken(Reason::Fixed(Phrase::CaseNotWaitedFor)),
        Outcome::TimedOut => Verdict::broken(Reason::Fixed(Phrase::CaseTimedOut)),
        Outcome::Signaled(signal, _) => {
            Verdict::broken(Reason::Counted(Phrase::ReceivedSignal, signal as u64, 0))
        }
        Outcome::Exited(0) => Verdict::passed(),
        Outcome::Exited(code) => {
            Verdict::failed(Reason::Counted(Phrase::NonSuccess, code as u64, 0))
        }
    }
}

/// Returns the verdict on a body with this `evidence` and the outcome `outcome` (this profile).
///
/// The kind of `evidence` selects the table of rules: that of ATF, TAP or plain programs. The call
/// doesn't allocate.
pub fn body_verdict(evidence: Evidence, outcome: Outcome) -> Verdict
    ensures row { IsVerdict evidence outcome result }
    ensures only { (verdict : VerdictValue) → IsVerdict evidence outcome verdict → result ≡ verdict }
{
    match evidence {
        Evidence::Atf(claim) => atf_verdict(claim, outcome),
        Evidence::Tap(tap) => tap_verdict(tap, outcome),
        Evidence::Plain => plain_verdict(outcome),
    }
}

/// Returns the `broken` verdict on a case whose start failed with the error `refused`.
///
/// The failed start is that of the case's body, or of the program that lists its cases (this
/// profile). The call doesn't allocate.
pub fn refused_verdict(refused: Refused) -> Verdict
    ensures row { IsVerdictOfRefusal refused result }
    ensures only { (verdict : VerdictValue) → IsVerdictOfRefusal refused verdict
        → result ≡ verdict }
{
    Verdict::broken(refused.reason())
}
