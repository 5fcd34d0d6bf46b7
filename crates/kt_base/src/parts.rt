use crate::verdict::ReasonParts;
use crate::{NoMemory, Outcome, OutputFault, Phrase, Text, emit, emit_number};
use std::io::Write;

impl ReasonParts<'_> {
    ghost use Rattle.std.specs.Prelude.{◌≡◌, ◌++◌, OnOk, OnErr, is_err};
    ghost use Rattle.kt_base.specs.Common.{chars, parts_text, phrase_text, counted_text, outcome_text, Emits, utf8};

    /// Creates the parts of a reason whose text is `head` alone, without numbers.
    pub fn from_text(head: &str) -> ReasonParts<'_>
        ensures { parts_text result ≡ chars head.now }
    {
        ReasonParts {
            head,
            lead: "",
            first: None,
            between: "",
            second: None,
            tail: "",
        }
    }

    /// Creates the parts of a reason's text: `phrase`, then the exit status or signal in `ending`.
    ///
    /// The text is `phrase` alone if `ending` is a timeout or a failed wait.
    pub fn with_outcome(phrase: Phrase, ending: Outcome) -> ReasonParts<'static>
        ensures { parts_text result ≡ phrase_text phrase ++ outcome_text ending }
    {
        match ending {
            Outcome::Exited(code) => one_number_parts(
                phrase.text(),
                "exited with code ",
                code as u64,
                "",
            ),
            Outcome::Signaled(signal, core) => {
                one_number_parts(
                    phrase.text(),
                    "received signal ",
                    signal as u64,
                    core_dump_text(core),
                )
            }
            _ => ReasonParts::from_text(phrase.text()),
        }
    }

    /// Creates the parts of a reason's text: `phrase` with the numbers `m` and `n`.
    ///
    /// A phrase with one number uses `m` and ignores `n`.
    pub fn with_numbers(phrase: Phrase, m: u64, n: u64) -> ReasonParts<'static>
        ensures { parts_text result ≡ counted_text phrase m n }
    {
        match phrase {
            Phrase::OtherExitCode => two_number_parts("Expected exit code ", m, " but got ", n, ""),
            Phrase::OtherSignal => two_number_parts("Expected signal ", m, " but got ", n, ""),
            Phrase::TestsFailed => two_number_parts("", m, " of ", n, " tests failed"),
            Phrase::MemoryNeeded => two_number_parts(
                "Requires ",
                m,
                " bytes of physical memory but only ",
                n,
                " available",
            ),
            Phrase::DiskNeeded => two_number_parts(
                "Requires ",
                m,
                " bytes of free disk space but only ",
                n,
                " available",
            ),
            _ => one_number_parts(phrase.text(), "", m, ""),
        }
    }

    /// Appends the parts of the reason's text to `text`, with numbers in decimal.
    ///
    /// # Errors
    ///
    /// - `NoMemory`: an allocation fails. Some parts may have been appended.
    pub fn append_to(&self, text: &mut Text) -> Result<(), NoMemory>
        ensures { OnOk result (text.new ≡ text.old ++ parts_text self.now) }
    {
        text.push_str(self.head)?;
        text.push_str(self.lead)?;
        push_optional_number(self.first, text)?;
        text.push_str(self.between)?;
        push_optional_number(self.second, text)?;
        text.push_str(self.tail)
    }

    /// Writes the parts of the reason's text to `out` as UTF-8, with numbers in decimal.
    ///
    /// Allocates nothing.
    ///
    /// # Errors
    ///
    /// - `OutputFault`: a write failed, was interrupted or wrote no byte. A proper prefix of the
    ///   text was written.
    pub fn print<W: Write>(&self, out: &mut W) -> Result<(), OutputFault>
        ensures { Emits (W.contents out.old) (W.contents out.new) (is_err result)
            (utf8 (parts_text self.now)) }
    {
        emit_text(self.head, out)?;
        emit_text_and_number(self.lead, self.first, out)?;
        emit_text_and_number(self.between, self.second, out)?;
        emit_text(self.tail, out)
    }
}

ghost use Rattle.std.specs.Prelude.{◌≡◌, ◌++◌, Option, OnOk, OnErr, is_err};
ghost use Rattle.kt_base.specs.Common.{chars, decimal, number_text, parts_text, core_dump_text, Emits, utf8};

/// Appends the decimal digits of `n` to `text`.
fn push_digits(n: u64, text: &mut Text) -> Result<(), NoMemory>
    ensures { OnOk result (text.new ≡ text.old ++ decimal n) }
{
    let digits = Text::from_number(text.allocator(), n)?;
    text.push_str(digits.as_str())
}

/// Appends the decimal digits of `number` to `text`, or nothing if `number` is `None`.
fn push_optional_number(number: Option<u64>, text: &mut Text) -> Result<(), NoMemory>
    ensures { OnOk result (text.new ≡ text.old ++ number_text number) }
{
    match number {
        None => Ok(()),
        Some(n) => push_digits(n, text),
    }
}

/// Writes the text `words` to `out` as UTF-8.
fn emit_text<W: Write>(words: &str, out: &mut W) -> Result<(), OutputFault>
    ensures { Emits (W.contents out.old) (W.contents out.new) (is_err result)
        (utf8 (chars words.now)) }
{
    emit(words.as_bytes(), out)
}

/// Writes `number` to `out` in decimal, or nothing if `number` is `None`.
fn emit_optional_number<W: Write>(number: Option<u64>, out: &mut W) -> Result<(), OutputFault>
    ensures { Emits (W.contents out.old) (W.contents out.new) (is_err result)
        (utf8 (number_text number)) }
{
    match number {
        None => Ok(()),
        Some(n) => emit_number(n, out),
    }
}

/// Writes the text `words` and then `number` in decimal to `out`. Writes no number for `None`.
fn emit_text_and_number<W: Write>(
    words: &str,
    number: Option<u64>,
    out: &mut W,
) -> Result<(), OutputFault>
    ensures { Emits (W.contents out.old) (W.contents out.new) (is_err result)
        (utf8 (chars words.now ++ number_text number)) }
{
    emit_text(words, out)?;
    emit_optional_number(number, out)
}

/// Returns ` (core dumped)` if `core` is `true`, otherwise an empty text.
fn core_dump_text(core: bool) -> &'static str
    ensures { chars result.now ≡ core_dump_text core }
{
    if core { " (core dumped)" } else { "" }
}

/// Creates the parts of a reason's text with one number.
///
/// The parts are `head`, `lead`, `first` in decimal, and `tail`.
fn one_number_parts(
    head: &'static str,
    lead: &'static str,
    first: u64,
    tail: &'static str,
) -> ReasonParts<'static>
    ensures { parts_text result ≡ chars head.now
        ++ (chars lead.now ++ (decimal first ++ chars tail.now)) }
{
    ReasonParts {
        head,
        lead,
        first: Some(first),
        between: "",
        second: None,
        tail,
    }
}

/// Creates the parts of a reason's text with two numbers.
///
/// The parts are `head`, `first`, `between`, `second` and `tail`. The numbers are decimal.
fn two_number_parts(
    head: &'static str,
    first: u64,
    between: &'static str,
    second: u64,
    tail: &'static str,
) -> ReasonParts<'static>
    ensures { parts_text result ≡ chars head.now
        ++ (decimal first ++ (chars between.now ++ (decimal second ++ chars tail.now))) }
{
    ReasonParts {
        head,
        lead: "",
        first: Some(first),
        between,
        second: Some(second),
        tail,
    }
}
