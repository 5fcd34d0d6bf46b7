ghost use Rattle.std.specs.Prelude.{◌≡◌, ◌++◌, codes};
ghost use Rattle.kt_status.specs.Common.{outcome_text, phrase_text, broken, claim_fault_text, atf_verdict};

use kt_base::{Outcome, Phrase, Reason, Verdict};
use kt_claim::{Claim, ClaimFault};

/// Returns the phrase for a result file with the error `fault`. The phrase is the reason of the
/// `broken` verdict.
fn fault_phrase(fault: ClaimFault) -> Phrase
    ensures { phrase_text result ≡ codes "Invalid result file: " ++ claim_fault_text fault }
{
    match fault {
        ClaimFault::TooLong => Phrase::ResultTooLong,
        ClaimFault::Empty => Phrase::ResultEmpty,
        ClaimFault::NoNewline => Phrase::ResultNoNewline,
        ClaimFault::SeveralLines => Phrase::ResultSeveralLines,
        ClaimFault::UnknownWord => Phrase::ResultUnknownWord,
        ClaimFault::BadNumber => Phrase::ResultBadNumber,
        ClaimFault::UnexpectedReason => Phrase::ResultUnexpectedReason,
        ClaimFault::NoReason => Phrase::ResultNoReason,
    }
}

/// Returns the `broken` verdict on a case whose result file is missing or contradicts the outcome
/// `outcome`.
///
/// The reason is `phrase`, followed by the exit status or the signal in `outcome`.
fn contradiction_verdict(phrase: Phrase, outcome: Outcome) -> Verdict
    ensures { result ≡ broken (phrase_text phrase ++ outcome_text outcome) }
{
    Verdict::broken(Reason::Ended(phrase, outcome))
}

/// Returns the verdict on the body of an ATF case (this profile).
///
/// `claim` is the claim of the case's result file, and `outcome` is the outcome of the body. The
/// first matching row of the ATF table (`AtfRow`) decides. The call doesn't allocate.
pub fn atf_verdict(claim: Claim, outcome: Outcome) -> Verdict
    ensures { result ≡ atf_verdict claim outcome }
{
    match (claim, outcome) {
        (_, Outcome::WaitFailed) => Verdict::broken(Reason::Fixed(Phrase::CaseNotWaitedFor)),
        (Claim::ExpectedTimeout(reason), Outcome::TimedOut) => {
            Verdict::expected_failure(Reason::Owned(reason))
        }
        (_, Outcome::TimedOut) => Verdict::broken(Reason::Fixed(Phrase::BodyTimedOut)),
        // In all cases from here on, the body exited or received a signal.
        (Claim::Missing, _) => contradiction_verdict(Phrase::PrematureExit, outcome),
        (Claim::Unreadable, _) => Verdict::broken(Reason::Fixed(Phrase::ResultsUnreadable)),
        (Claim::Malformed(fault), _) => Verdict::broken(Reason::Fixed(fault_phrase(fault))),
        (Claim::Passed, Outcome::Exited(0)) => Verdict::passed(),
        (Claim::Skipped(reason), Outcome::Exited(0)) => Verdict::skipped(Reason::Owned(reason)),
        (Claim::ExpectedFailure(reason), Outcome::Exited(0)) => {
            Verdict::expected_failure(Reason::Owned(reason))
        }
        (Claim::Passed, _) => contradiction_verdict(Phrase::PassedButNoSuccess, outcome),
        (Claim::Skipped(_), _) => contradiction_verdict(Phrase::SkippedButNoSuccess, outcome),
        (Claim::ExpectedFailure(_), _) => contradiction_verdict(
            Phrase::ExpectedFailureButNoSuccess,
            outcome,
        ),
        (Claim::Failed(reason), Outcome::Exited(1)) => Verdict::failed(Reason::Owned(reason)),
        (Claim::Failed(_), _) => contradiction_verdict(Phrase::FailedButNoFailure, outcome),
        (Claim::ExpectedDeath(reason), _) => Verdict::expected_failure(Reason::Owned(reason)),
        (Claim::ExpectedExit(None, reason), Outcome::Exited(_)) => {
            Verdict::expected_failure(Reason::Owned(reason))
        }
        (Claim::ExpectedExit(Some(due), reason), Outcome::Exited(got)) if due == got => {
            Verdict::expected_failure(Reason::Owned(reason))
        }
        (Claim::ExpectedExit(Some(due), _), Outcome::Exited(got)) => {
            Verdict::failed(Reason::Counted(Phrase::OtherExitCode, due as u64, got as u64))
        }
        (Claim::ExpectedExit(_, _), _) => contradiction_verdict(Phrase::NoCleanExit, outcome),
        (Claim::ExpectedSignal(None, reason), Outcome::Signaled(_, _)) => {
            Verdict::expected_failure(Reason::Owned(reason))
        }
        (Claim::ExpectedSignal(Some(due), reason), Outcome::Signaled(got, _)) if due == got => {
            Verdict::expected_failure(Reason::Owned(reason))
        }
        (Claim::ExpectedSignal(Some(due), _), Outcome::Signaled(got, _)) => {
            Verdict::failed(Reason::Counted(Phrase::OtherSignal, due as u64, got as u64))
        }
        (Claim::ExpectedSignal(_, _), _) => contradiction_verdict(Phrase::NoSignal, outcome),
        (Claim::ExpectedTimeout(_), _) => contradiction_verdict(Phrase::NoTimeout, outcome),
    }
}
