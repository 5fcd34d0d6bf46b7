ghost use Rattle.std.specs.Prelude.{◌≡◌, is_err};
ghost use Rattle.kt_base.specs.Emits.{Emits};
ghost use Rattle.kt_base.specs.Utf8.{utf8};
ghost use Rattle.kt_suite.specs.FaultMessages.{cause_message, fixed_message};
ghost use Rattle.kt_suite.specs.declared.cause.SuiteCause.TheVariants as cause;

use crate::ReadFault;
use kt_base::{Decimal, NoMemory, OUT_OF_MEMORY, OutputFault, emit, emit_all};
use kt_metadata::PropFault;
use kt_script::ScriptFault;
use std::io::Write;
use thiserror::Error;

/// The text before the number of the syntax in the message of `WrongSyntax`.
const SYNTAX: &str = "syntax ";

/// The text after the number of the syntax in the message of `WrongSyntax`.
const NOT_SUPPORTED: &str = " not supported";

/// A cause of an error in a tree of Kyuafiles (kyuafile(5) and this profile).
///
/// `Display` prints the message of the cause.
#[derive(Clone, Copy, Debug, Error)]
#[error("{}", self.message())]
pub enum SuiteCause {
    /// An allocation failed. The error has no file and no line.
    NoMemory(NoMemory),
    /// A file has no statement, or its first statement is not a call of `syntax`.
    NoSyntax,
    /// A file declares a syntax with this number, which is not 2.
    #[error("{SYNTAX}{0}{NOT_SUPPORTED}")]
    WrongSyntax(u64),
    /// A statement after the first is an assignment, a call of `syntax`, or a call of an unknown
    /// function.
    UnknownCall,
    /// A key in the table of a call that registers a program is not `name`, `test_suite` or a
    /// property that a Kyuafile may set.
    UnknownProperty,
    /// The argument of a call or the value of a key is invalid, or a program has no name or an
    /// empty name.
    BadValue,
    /// Neither the program's table nor an earlier call of `test_suite` in the file sets a test
    /// suite.
    NoSuite,
    /// The name of a program has a slash, or is `.` or `..`.
    PathHasDirectory,
    /// The argument of `include` is a table, is not a relative path, or has a component that is
    /// empty, `.` or `..`.
    BadInclude,
    /// The included file is already open: it includes itself, directly or through other files.
    IncludeLoop,
    /// More than 32 files would be open, each included by the file before.
    TooDeep,
    /// No regular file is at the path of a program.
    MissingProgram,
    /// A Kyuafile does not exist, or could not be read.
    Unreadable,
    /// The tree has more than 10,000 programs, or more than 10,000 files.
    TooMany,
    /// A Kyuafile is not a script. The field is the error of the script.
    Script(ScriptFault),
}

impl SuiteCause {
    /// Returns the message of the cause, or an empty text for `WrongSyntax`.
    ///
    /// The message of `WrongSyntax` contains a number, which [`SuiteCause::print`] prints.
    pub fn message(&self) -> &'static str
        ensures { result.now ≡ fixed_message self.now }
    {
        match self {
            SuiteCause::NoMemory(_) => OUT_OF_MEMORY,
            SuiteCause::NoSyntax => "syntax(2) expected",
            SuiteCause::WrongSyntax(_) => "",
            SuiteCause::UnknownCall => "unknown call",
            SuiteCause::UnknownProperty => PropFault::UnknownProperty.message(),
            SuiteCause::BadValue => PropFault::BadValue.message(),
            SuiteCause::NoSuite => "no test suite",
            SuiteCause::PathHasDirectory => "program name has a directory",
            SuiteCause::BadInclude => "bad include path",
            SuiteCause::IncludeLoop => "include loop",
            SuiteCause::TooDeep => "includes too deep",
            SuiteCause::MissingProgram => "program not found",
            SuiteCause::Unreadable => ReadFault::Failed.message(),
            SuiteCause::TooMany => "too many programs or files",
            SuiteCause::Script(fault) => fault.message(),
        }
    }

    /// Prints the message of the cause to `out`.
    ///
    /// # Errors
    ///
    /// - `OutputFault`: a write to `out` fails.
    pub fn print<W: Write>(&self, out: &mut W) -> Result<(), OutputFault>
        ensures { Emits (W.contents out.old) (W.contents out.new) (is_err result)
            (utf8 (cause_message self.now)) }
    {
        match self {
            SuiteCause::WrongSyntax(n) => {
                let number = Decimal::new(*n);
                emit_all(
                    &[
                        SYNTAX.as_bytes(),
                        number.as_bytes(),
                        NOT_SUPPORTED.as_bytes(),
                    ],
                    out,
                )
            }
            _ => emit(self.message().as_bytes(), out),
        }
    }
}

impl From<NoMemory> for SuiteCause {
    ghost from_gives = { λ refusal c. c ≡ cause.NoMemory refusal };

    fn from(refusal: NoMemory) -> SuiteCause {
        SuiteCause::NoMemory(refusal)
    }
}
