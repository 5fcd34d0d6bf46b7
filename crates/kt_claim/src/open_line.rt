/// A kind of line of a TAP stream.
#[derive(Clone, Copy)]
pub enum LineKind {
    /// A line without an effect on the result of the stream.
    Other,
    /// A line that begins with `Bail out!`.
    Bail,
    /// A test that passed, or a failed test with a directive.
    Test,
    /// A failed test without a directive.
    Failure,
    /// A plan of this number of tests.
    Plan(u64),
}

/// The first one to three letters of a directive's keyword, `TODO` or `SKIP`, in upper or lower
/// case.
#[derive(Clone, Copy)]
pub enum DirectivePrefix {
    T,
    To,
    Tod,
    S,
    Sk,
    Ski,
}

/// A purpose of the search for a directive in a TAP line.
#[derive(Clone, Copy)]
pub enum DirectivePurpose {
    /// The line is a failed test, which a directive excuses.
    Excuse,
    /// The line is a plan of no tests, whose reason is in a skip directive.
    Explain,
}

/// An opening of a line that affects the result of a stream: `Bail out!`, `ok`, `not ok` or `1..`.
#[derive(Clone, Copy)]
pub enum Opening {
    BailOut,
    Ok,
    NotOk,
    Plan,
}

/// A state of the reader within a TAP line, after the bytes of the line that were read.
#[derive(Clone, Copy)]
pub enum LineProgress {
    /// No byte was read.
    Nothing,
    /// The first bytes of an opening were read, or the whole opening. The second field has the
    /// bytes of the opening that were not read.
    PartialOpening(Opening, &'static [u8]),
    /// `1..` was read, and then the digits of a plan, if any. The number is the value of the
    /// digits, or `None` if there are no digits.
    Digits(Option<u64>),
    /// `1..`, the digits of a plan, and one or more blanks were read. The number is the value of
    /// the digits.
    Blanks(u64),
    /// No directive was found yet, but a directive for this purpose may follow. The flag is `true`
    /// if the last byte is a backslash.
    DirectiveSearch(DirectivePurpose, bool),
    /// A hash was read, and blanks if any. A directive for this purpose may follow.
    Hash(DirectivePurpose),
    /// A hash, blanks if any, and the first letters of a directive's keyword were read. The first
    /// field is the purpose of the search for the directive.
    DirectiveLetters(DirectivePurpose, DirectivePrefix),
    /// The keyword `SKIP` of a directive was read, and possibly more bytes, but no blank after it.
    Word,
    /// Blanks after the keyword of a skip directive were read.
    Gap,
    /// The first bytes of the reason of a skip directive were read.
    Reason,
    /// The kind of the line is known. The rest of the line is ignored.
    KnownKind(LineKind),
}

/// A TAP line that was not yet read to its end. Of its bytes, only the reason of a plan is kept.
#[derive(Drop)]
pub struct OpenLine {
    /// The state of the reader within this TAP line.
    pub begun: LineProgress,
    /// The reason of a plan of no tests, as far as it was read.
    pub kept: Vec<u8>,
    /// `true` if the last byte was a carriage return, which belongs to the line only if more bytes
    /// of the line follow.
    pub held_cr: bool,
}
