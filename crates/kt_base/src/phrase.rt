ghost use Rattle.std.specs.Prelude.{◌≡◌};
ghost use Rattle.kt_base.specs.Phrases.{phrase_text};

/// A fixed message in the reason of a verdict (this profile).
///
/// Some phrases are followed by the outcome of a process, others by one or two numbers.
#[derive(Clone, Copy)]
pub enum Phrase {
    // Bodies of ATF cases.
    CaseNotWaitedFor,
    BodyTimedOut,
    CaseTimedOut,
    PrematureExit,
    ResultsUnreadable,
    // Result files.
    ResultTooLong,
    ResultEmpty,
    ResultNoNewline,
    ResultSeveralLines,
    ResultUnknownWord,
    ResultBadNumber,
    ResultUnexpectedReason,
    ResultNoReason,
    // Result files that the outcome contradicts.
    PassedButNoSuccess,
    SkippedButNoSuccess,
    ExpectedFailureButNoSuccess,
    FailedButNoFailure,
    OtherExitCode,
    NoCleanExit,
    OtherSignal,
    NoSignal,
    NoTimeout,
    // Plain programs.
    ReceivedSignal,
    NonSuccess,
    // TAP programs.
    BailedOut,
    TapUnreadable,
    TapTooLong,
    TapNoPlan,
    TapSecondPlan,
    TapPlanDiffers,
    TestsFailed,
    Dubious,
    // Cleanups.
    CleanupTimedOut,
    CleanupFailed,
    CleanupNotStarted,
    // Failed starts.
    NoDirectory,
    NoOutput,
    NotSpawned,
    NoMemoryToStart,
    // Lists of test cases.
    ListTimedOut,
    ListNotWaitedFor,
    NoList,
    ListUnreadable,
    ListTooLong,
    ListBadHeader,
    ListBadLine,
    ListNoIdent,
    ListRepeatedKey,
    ListRepeatedIdent,
    ListUnknownKey,
    ListBadValue,
    ListEmpty,
    ListNotUtf8,
    // Unmet requirements.
    RootNeeded,
    UnprivilegedNeeded,
    MemoryNeeded,
    DiskNeeded,
}

impl Phrase {
    /// Returns the part of the message before the outcome of a process or the first number.
    ///
    /// A message without an outcome and without numbers is returned whole.
    pub fn text(self) -> &'static str
        ensures { result.now ≡ phrase_text self }
    {
        match self {
            Phrase::CaseNotWaitedFor => "Test case could not be waited for",
            Phrase::BodyTimedOut => "Test case body timed out",
            Phrase::CaseTimedOut => "Test case timed out",
            Phrase::PrematureExit => "Premature exit; test case ",
            Phrase::ResultsUnreadable => "Results file could not be read",
            Phrase::ResultTooLong => "Invalid result file: too long",
            Phrase::ResultEmpty => "Invalid result file: empty",
            Phrase::ResultNoNewline => "Invalid result file: no final newline",
            Phrase::ResultSeveralLines => "Invalid result file: several lines",
            Phrase::ResultUnknownWord => "Invalid result file: unknown word",
            Phrase::ResultBadNumber => "Invalid result file: bad number",
            Phrase::ResultUnexpectedReason => "Invalid result file: unexpected reason",
            Phrase::ResultNoReason => "Invalid result file: no reason",
            Phrase::PassedButNoSuccess => "Passed test case should have reported success but ",
            Phrase::SkippedButNoSuccess => "Skipped test case should have reported success but ",
            Phrase::ExpectedFailureButNoSuccess =>
                "Expected failure should have reported success but ",
            Phrase::FailedButNoFailure => "Failed test case should have reported failure but ",
            Phrase::OtherExitCode => "Expected exit code ",
            Phrase::NoCleanExit => "Expected clean exit but ",
            Phrase::OtherSignal => "Expected signal ",
            Phrase::NoSignal => "Expected signal but ",
            Phrase::NoTimeout => "Expected timeout but ",
            Phrase::ReceivedSignal => "Received signal ",
            Phrase::NonSuccess => "Returned non-success exit status ",
            Phrase::BailedOut => "Bailed out",
            Phrase::TapUnreadable =>
                "TAP test program yielded invalid data: output could not be read",
            Phrase::TapTooLong => "TAP test program yielded invalid data: output too long",
            Phrase::TapNoPlan => "TAP test program yielded invalid data: no plan",
            Phrase::TapSecondPlan => "TAP test program yielded invalid data: second plan",
            Phrase::TapPlanDiffers =>
                "TAP test program yielded invalid data: plan differs from tests",
            Phrase::TestsFailed => "",
            Phrase::Dubious =>
                "Dubious test program: reported all tests as passed but returned exit code ",
            Phrase::CleanupTimedOut => "Test case cleanup timed out",
            Phrase::CleanupFailed => "Test case cleanup did not terminate successfully",
            Phrase::CleanupNotStarted => "Test case cleanup could not be started",
            Phrase::NoDirectory => "Work directory could not be made",
            Phrase::NoOutput => "Output files could not be made",
            Phrase::NotSpawned => "Test program could not be started",
            Phrase::NoMemoryToStart => "Test case could not be started for want of memory",
            Phrase::ListTimedOut => "Test case list timed out",
            Phrase::ListNotWaitedFor => "Test case list could not be waited for",
            Phrase::NoList => "Test program did not list its cases: ",
            Phrase::ListUnreadable => "Test case list could not be read",
            Phrase::ListTooLong => "Test case list too long",
            Phrase::ListBadHeader => "Invalid test case list: bad header at line ",
            Phrase::ListBadLine => "Invalid test case list: bad line at line ",
            Phrase::ListNoIdent => "Invalid test case list: no ident at line ",
            Phrase::ListRepeatedKey => "Invalid test case list: repeated key at line ",
            Phrase::ListRepeatedIdent => "Invalid test case list: repeated ident at line ",
            Phrase::ListUnknownKey => "Invalid test case list: unknown key at line ",
            Phrase::ListBadValue => "Invalid test case list: bad value at line ",
            Phrase::ListEmpty => "Invalid test case list: empty list at line ",
            Phrase::ListNotUtf8 => "Invalid test case list: not UTF-8 at line ",
            Phrase::RootNeeded => "Requires root privileges",
            Phrase::UnprivilegedNeeded => "Requires an unprivileged user",
            Phrase::MemoryNeeded => "Requires ",
            Phrase::DiskNeeded => "Requires ",
        }
    }
}
