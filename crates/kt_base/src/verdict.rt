use crate::{NoMemory, Outcome, OutputFault, Phrase, Text};
use std::io::Write;
use std::marker::Model;

/// A reason for a verdict. Only `Owned` contains an allocated text.
pub enum Reason {
    /// No reason, because the case passed.
    Nothing,
    /// A fixed message, such as `Test case timed out`.
    Fixed(Phrase),
    /// A fixed message, followed by the exit status or signal in the outcome, if it has one.
    Ended(Phrase, Outcome),
    /// A fixed message with two numbers. If the message has only one number, this is the first, and
    /// the second is not used.
    Counted(Phrase, u64, u64),
    /// A text that is not fixed, such as a reason that the test program reported.
    Owned(Text),
}

/// A manual impl instead of `#[derive(Drop)]`, so that the prover handles each drop as one call.
impl Drop for Reason {
    fn drop(self) {
        match self {
            Reason::Owned(text) => drop(text),
            Reason::Nothing => {},
            Reason::Fixed(_phrase) => {},
            Reason::Ended(_phrase, _outcome) => {},
            Reason::Counted(_phrase, _first, _second) => {},
        }
    }
}

impl Reason {
    ghost use Rattle.std.specs.Prelude.{◌≡◌};
    ghost use Rattle.kt_base.specs.Common.{parts_text, reason_text};

    /// Splits the text of the reason into parts that can be written without an allocation.
    pub(crate) fn parts(&self) -> ReasonParts<'_>
        ensures { parts_text result ≡ reason_text self.now }
    {
        match self {
            Reason::Nothing => ReasonParts::from_text(""),
            Reason::Fixed(phrase) => ReasonParts::from_text(phrase.text()),
            Reason::Ended(phrase, ending) => ReasonParts::with_outcome(*phrase, *ending),
            Reason::Counted(phrase, m, n) => ReasonParts::with_numbers(*phrase, *m, *n),
            Reason::Owned(text) => ReasonParts::from_text(text.as_str()),
        }
    }
}

/// A kind of verdict on a test case, see kyua-test(1).
#[derive(Clone, Copy)]
pub enum Kind {
    /// The case succeeded.
    Passed,
    /// The case was skipped: a requirement was not met, or the case reported that it was skipped.
    Skipped,
    /// The case failed in the way that it had announced.
    ExpectedFailure,
    /// The case reported a failure, for example by its exit status.
    Failed,
    /// The case could not be run or judged.
    Broken,
}

impl Kind {
    ghost use Rattle.std.specs.Prelude.{◌≡◌};
    ghost use Rattle.kt_base.specs.Common.{good, kind_keyword};

    /// Returns `true` if a verdict of this kind counts as a success.
    pub fn good(self) -> bool
        ensures { result ≡ good self }
    {
        matches!(self, Kind::Passed | Kind::Skipped | Kind::ExpectedFailure)
    }

    /// Returns the keyword of the kind in reports, such as `expected_failure` (this profile).
    pub fn word(self) -> &'static str
        ensures { result.now ≡ kind_keyword self }
    {
        match self {
            Kind::Passed => "passed",
            Kind::Skipped => "skipped",
            Kind::ExpectedFailure => "expected_failure",
            Kind::Failed => "failed",
            Kind::Broken => "broken",
        }
    }
}

/// A verdict on a test case: a kind and a reason. A passed case has no reason.
///
/// In contracts, a `Verdict` is its kind with the text of its reason.
#[derive(Drop)]
pub struct Verdict {
    kind: Kind,
    reason: Reason,
}

impl Model for Verdict {
    ghost use Rattle.std.specs.Prelude.{◌≡◌, []};
    ghost use Rattle.kt_base.specs.declared.verdict.Kind.TheVariants.{Passed};
    ghost use Rattle.kt_base.specs.Reasons.{reason_text};
    ghost use Rattle.kt_base.specs.Verdicts.{VerdictValue};

    ghost Value = { VerdictValue };

    ghost view = { λ v. record { kind = v.kind; reason = reason_text v.reason } };

    ghost invariant = { λ v. v.kind ≡ Passed → reason_text v.reason ≡ [] };
}

impl Verdict {
    ghost use Rattle.std.specs.Prelude.{◌≡◌, [], ◌++◌, OnOk, OnErr, is_err};
    ghost use Rattle.kt_base.specs.Common.{Passed, reason_text, Emits, utf8, passed, skipped, expected_failure, failed, broken};

    /// Creates the verdict on a case that passed.
    pub fn passed() -> Verdict
        ensures { result ≡ passed }
    {
        Verdict {
            kind: Kind::Passed,
            reason: Reason::Nothing,
        }
    }

    /// Creates the verdict on a case that was skipped for `reason`.
    pub fn skipped(reason: Reason) -> Verdict
        ensures { result ≡ skipped (reason_text reason) }
    {
        Verdict {
            kind: Kind::Skipped,
            reason,
        }
    }

    /// Creates the verdict on a case that failed as announced, for `reason`.
    pub fn expected_failure(reason: Reason) -> Verdict
        ensures { result ≡ expected_failure (reason_text reason) }
    {
        Verdict {
            kind: Kind::ExpectedFailure,
            reason,
        }
    }

    /// Creates the verdict on a case that failed for `reason`.
    pub fn failed(reason: Reason) -> Verdict
        ensures { result ≡ failed (reason_text reason) }
    {
        Verdict {
            kind: Kind::Failed,
            reason,
        }
    }

    /// Creates the verdict on a case that could not be run or judged, for `reason`.
    pub fn broken(reason: Reason) -> Verdict
        ensures { result ≡ broken (reason_text reason) }
    {
        Verdict {
            kind: Kind::Broken,
            reason,
        }
    }

    /// Creates a verdict of the kind `kind` with the reason `reason`.
    ///
    /// A passed case has no reason: for `Passed`, the call drops `reason`.
    pub fn from_kind(kind: Kind, reason: Text) -> Verdict
        ensures { (kind ≡ Passed → reason ≡ []) → result ≡ record { kind = kind; reason = reason } }
    {
        match kind {
            Kind::Passed => Verdict::passed(),
            Kind::Skipped => Verdict::skipped(Reason::Owned(reason)),
            Kind::ExpectedFailure => Verdict::expected_failure(Reason::Owned(reason)),
            Kind::Failed => Verdict::failed(Reason::Owned(reason)),
            Kind::Broken => Verdict::broken(Reason::Owned(reason)),
        }
    }

    /// Returns the kind of the verdict.
    pub fn kind(&self) -> Kind
        ensures { result ≡ self.now.kind }
    {
        self.kind
    }

    /// Appends the text of the verdict's reason to `out`. Appends nothing for a case that passed.
    ///
    /// # Errors
    ///
    /// - `NoMemory`: an allocation fails. `out` is unchanged.
    pub fn write_reason(&self, out: &mut Text) -> Result<(), NoMemory>
        ensures passed { self.now.kind ≡ Passed → self.now.reason ≡ [] }
        ensures ok { OnOk result (out.new ≡ out.old ++ self.now.reason) }
        ensures err { OnErr result (out.new ≡ out.old) }
    {
        let mut text = Text::new(out.allocator());
        self.reason.parts().append_to(&mut text)?;
        out.push_str(text.as_str())
    }

    /// Writes the text of the verdict's reason to `out` as UTF-8. Allocates nothing.
    ///
    /// # Errors
    ///
    /// - `OutputFault`: a write failed, was interrupted or wrote no byte. A proper prefix of the
    ///   text was written.
    pub fn print_reason<W: Write>(&self, out: &mut W) -> Result<(), OutputFault>
        ensures { Emits (W.contents out.old) (W.contents out.new) (is_err result)
            (utf8 self.now.reason) }
    {
        self.reason.parts().print(out)
    }
}

/// The parts of a reason's text, which can be written without an allocation.
///
/// The text is the concatenation of the fields in their order, with numbers in decimal. `None` adds
/// nothing.
#[derive(Clone, Copy)]
pub struct ReasonParts<'a> {
    /// The beginning of the reason's text.
    pub head: &'a str,
    /// The text between `head` and the first number.
    pub lead: &'static str,
    /// The first number, if the text has one.
    pub first: Option<u64>,
    /// The text between the two numbers.
    pub between: &'static str,
    /// The second number, if the text has one.
    pub second: Option<u64>,
    /// The end of the reason's text.
    pub tail: &'static str,
}
