ghost use Rattle.std.specs.Prelude.{◌≡◌};
ghost use Rattle.kt_status.specs.Common.{VerdictValue, IsVerdictAfterCleanup, verdict_after_good_body};

use crate::CleanupEnd;
use kt_base::{Outcome, Phrase, Reason, Verdict};

/// Returns the verdict on a case after its cleanup, if the verdict `body` on its body is a success.
///
/// `end` is the result of the cleanup. The verdict is `body` if the cleanup exited with 0,
/// otherwise `broken`.
fn verdict_after_good_body(body: Verdict, end: CleanupEnd) -> Verdict
    ensures { result ≡ verdict_after_good_body body end }
{
    let phrase = match end {
        CleanupEnd::Ended(Outcome::Exited(0)) => return body,
        CleanupEnd::Ended(Outcome::TimedOut) => Phrase::CleanupTimedOut,
        CleanupEnd::Ended(_) => Phrase::CleanupFailed,
        CleanupEnd::Refused => Phrase::CleanupNotStarted,
    };
    Verdict::broken(Reason::Fixed(phrase))
}

/// Returns the verdict on a case whose cleanup has the result `end` (this profile).
///
/// `body` is the verdict on the body of the case. It is returned if it is failed or broken, or if
/// the cleanup exited with 0. Otherwise, the verdict on the case is broken. The call doesn't
/// allocate.
pub fn with_cleanup(body: Verdict, end: CleanupEnd) -> Verdict
    ensures row { IsVerdictAfterCleanup body end result }
    ensures only { (verdict : VerdictValue) → IsVerdictAfterCleanup body end verdict
        → result ≡ verdict }
{
    if body.kind().good() {
        verdict_after_good_body(body, end)
    } else {
        body
    }
}
