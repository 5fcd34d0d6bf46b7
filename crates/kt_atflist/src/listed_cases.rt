//! The cases in the result of a listing.

ghost use Rattle.std.specs.Prelude.{◌≡◌, IfOk};
ghost use Rattle.kt_atflist.specs.Common.{list_failure_reason, IsParsedList, IsListingResult};

use crate::{CaseDef, ListBytes, Listing, parse_list};
use kt_base::{Bytes, Items, NoMemory, Outcome, Phrase, Reason};
use std::alloc::Global;

/// Returns the reason why a program that ended with `outcome` did not list its cases.
///
/// Returns `None` if the program exited with 0.
fn list_failure_reason(outcome: Outcome) -> Option<Reason>
    ensures { result ≡ list_failure_reason outcome }
{
    match outcome {
        Outcome::TimedOut => Some(Reason::Fixed(Phrase::ListTimedOut)),
        Outcome::WaitFailed => Some(Reason::Fixed(Phrase::ListNotWaitedFor)),
        Outcome::Exited(code) => if code == 0 {
            None
        } else {
            Some(Reason::Ended(Phrase::NoList, outcome))
        },
        Outcome::Signaled(_, _) => Some(Reason::Ended(Phrase::NoList, outcome)),
    }
}

/// Parses `text` as a list of test cases, and returns the cases, or the reason why `text` isn't a
/// list.
fn parse_list_bytes(alloc: Global, text: &Bytes) -> Result<Result<Items<CaseDef>, Reason>, NoMemory>
    ensures { IfOk result (λ found. IsParsedList text.now found) }
{
    match parse_list(alloc, text.as_slice()) {
        Ok(cases) => Ok(Ok(cases)),
        Err(fault) => {
            let phrase = fault.cause.phrase()?;
            Ok(Err(Reason::Counted(phrase, fault.line, 0)))
        }
    }
}

/// Returns the test cases in `listing`, or the reason why the listing can't be used.
///
/// `listing` is the result of running an ATF program to list its test cases.
///
/// # Errors
///
/// - `NoMemory`: an allocation fails.
pub fn listed_cases(
    alloc: Global,
    listing: &Listing,
) -> Result<Result<Items<CaseDef>, Reason>, NoMemory>
    ensures { IfOk result (λ found. IsListingResult listing.now found) }
{
    match listing {
        Listing::Refused(refused) => Ok(Err(refused.reason())),
        Listing::Ended(outcome, bytes) => match list_failure_reason(*outcome) {
            Some(reason) => Ok(Err(reason)),
            None => match bytes {
                ListBytes::Unreadable => Ok(Err(Reason::Fixed(Phrase::ListUnreadable))),
                ListBytes::TooLong => Ok(Err(Reason::Fixed(Phrase::ListTooLong))),
                ListBytes::Read(text) => parse_list_bytes(alloc, text),
            },
        },
    }
}
