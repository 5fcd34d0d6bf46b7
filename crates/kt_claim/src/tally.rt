ghost use Rattle.std.specs.Prelude.{◌≡◌, ◌<◌, ◌^◌, ◌++◌, [], ◌∷◌, ℕ, List, true, false, length, IfOk, ◌+◌};
ghost use Rattle.kt_claim.specs.TapStream.{skip_reason, plan_reason, tap_of_lines};
ghost use Rattle.kt_claim.specs.Inner.LineStates.{facts_of, facts_of_kind};

use crate::open_line::LineKind;
use crate::{Tap, TapFault};
use kt_base::{NoMemory, Text, lossy};
use std::alloc::Global;

/// A tally of a TAP stream: the numbers of tests and the plans before its first bail out.
#[derive(Drop)]
pub struct Tally {
    /// `true` if a line of the stream bails out: it begins with `Bail out!`.
    pub bailed: bool,
    /// The first plan, if any: its number of tests and its reason, which is empty unless the number
    /// is 0.
    pub plan: Option<(u64, Text)>,
    /// `true` if the stream has a second plan.
    pub second: bool,
    /// The number of lines that report a test.
    pub tests: u64,
    /// The number of failed tests without a directive.
    pub failures: u64,
}

/// Returns the text of the bytes `reason`, or `No reason given` if `reason` is empty.
fn skip_reason(alloc: Global, reason: &[u8]) -> Result<Text, NoMemory>
    ensures { IfOk result (λ text. text ≡ skip_reason reason.now) }
{
    if reason.is_empty() {
        return Text::from_str(alloc, "No reason given");
    }
    lossy(alloc, reason)
}

/// Returns the reason of a plan of `tests` tests.
///
/// A plan of no tests has the text of `reason`, or `No reason given` if `reason` is empty. The
/// reason of any other plan is an empty text.
fn plan_reason(alloc: Global, tests: u64, reason: &[u8]) -> Result<Text, NoMemory>
    ensures { IfOk result (λ text. text ≡ plan_reason tests reason.now) }
{
    if tests == 0 {
        skip_reason(alloc, reason)
    } else {
        Ok(Text::new(alloc))
    }
}

/// Returns `n + 1`, or `u64::MAX` if that overflows.
fn saturating_increment(n: u64) -> u64
    ensures { n < 2 ^ 32 → result ≡ n + 1 }
{
    n.saturating_add(1)
}

impl Tally {
    ghost use Rattle.kt_claim.specs.Inner.TapReading.{IsTally, with_plan};

    /// Creates a tally of no lines.
    pub fn new() -> Tally
        ensures { IsTally result [] }
    {
        Tally {
            bailed: false,
            plan: None,
            second: false,
            tests: 0,
            failures: 0,
        }
    }

    /// Returns the tally with one more line, which bails out.
    fn with_bail_out(self) -> Tally
        ensures { result ≡ record self { bailed = true } }
    {
        Tally {
            bailed: true,
            ..self
        }
    }

    /// Returns the tally with one more test.
    fn with_test(self) -> Tally
        ensures { self.tests < 2 ^ 32 → result ≡ record self { tests = self.tests + 1 } }
    {
        Tally {
            tests: saturating_increment(self.tests),
            ..self
        }
    }

    /// Returns the tally with one more failed test without a directive. The number of all tests is
    /// unchanged.
    fn with_failure(self) -> Tally
        ensures { self.failures < 2 ^ 32 → result ≡ record self { failures = self.failures + 1 } }
    {
        Tally {
            failures: saturating_increment(self.failures),
            ..self
        }
    }

    /// Returns the tally with one more plan, of `tests` tests and with the reason `reason`.
    ///
    /// The tally doesn't contain a second plan. It only has a flag that a second plan exists.
    fn with_plan(self, alloc: Global, tests: u64, reason: &[u8]) -> Result<Tally, NoMemory>
        ensures { IfOk result (λ after. after ≡ with_plan self tests (plan_reason tests
            reason.now)) }
    {
        if self.plan.is_some() {
            return Ok(Tally {
                second: true,
                ..self
            });
        }
        let reason = plan_reason(alloc, tests, reason)?;
        let plan = Some((tests, reason));
        Ok(Tally { plan, ..self })
    }

    /// Returns the tally with one more line of the kind `kind`. Lines after a bail out don't count.
    ///
    /// `reason` is the reason of a plan of no tests.
    ///
    /// # Errors
    ///
    /// - `NoMemory`: an allocation fails.
    pub fn add(self, alloc: Global, kind: LineKind, reason: &[u8]) -> Result<Tally, NoMemory>
        ensures { IfOk result (λ after. (line : List ℕ) (lines : List (List ℕ))
            → facts_of line ≡ facts_of_kind kind reason.now → length lines < 2 ^ 32
            → IsTally self lines → IsTally after (lines ++ line ∷ [])) }
    {
        if self.bailed {
            return Ok(self);
        }
        match kind {
            LineKind::Other => Ok(self),
            LineKind::Bail => Ok(self.with_bail_out()),
            LineKind::Test => Ok(self.with_test()),
            LineKind::Failure => Ok(self.with_test().with_failure()),
            LineKind::Plan(tests) => self.with_plan(alloc, tests, reason),
        }
    }

    /// Returns the result of a TAP stream whose lines were all added to the tally.
    pub fn tap(self) -> Tap
        ensures { (lines : List (List ℕ)) → IsTally self lines → result ≡ tap_of_lines lines }
    {
        let Tally {
            bailed,
            plan,
            second,
            tests,
            failures,
        } = self;
        if bailed {
            return Tap::BailedOut;
        }
        let Some((planned, reason)) = plan else {
            return Tap::Invalid(TapFault::NoPlan);
        };
        if second {
            return Tap::Invalid(TapFault::SecondPlan);
        }
        if planned != tests {
            return Tap::Invalid(TapFault::PlanDiffers);
        }
        if tests == 0 {
            return Tap::SkipAll(reason);
        }
        Tap::Counted(failures, tests)
    }
}
