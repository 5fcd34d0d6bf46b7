ghost use Rattle.std.specs.Prelude.{◌≡◌, ◌<◌, ◌^◌, Some, pos};
ghost use Rattle.kt_base.specs.declared.verdict.Kind.{Kind as Sort};
ghost use Rattle.kt_store.specs.Common.{utf8, owned, Int, Blob, IsEncodable, kind_code};
ghost use Rattle.sqlite_value.specs.declared.value.Value.TheVariants.{Text as Words};

use kt_base::{Bytes, Kind, Text};
use sqlite_value::value::ValueRef;

/// Converts a number below 2^63 to an SQL integer. Allocates nothing.
pub fn int_value<'a>(n: u64) -> ValueRef<'a>
    requires { n < 2 ^ 63 }
    ensures { owned result ≡ Int (pos n) }
{
    ValueRef::Int(n as i64)
}

/// Converts a text to an SQL text in UTF-8. Allocates nothing.
pub fn text_value(text: &Text) -> ValueRef<'_>
    ensures value { owned result ≡ Words (utf8 text.entry.now) }
    ensures spelled { IsEncodable text.entry.now }
{
    ValueRef::Text(text.as_str().as_bytes())
}

/// Converts bytes to an SQL blob. Allocates nothing.
pub fn blob_value(bytes: &Bytes) -> ValueRef<'_>
    ensures { owned result ≡ Blob bytes.entry.now }
{
    ValueRef::Blob(bytes.as_slice())
}

/// Returns the number, 0 to 4, that represents the verdict kind `kind` in the tables
/// (docs/formats/store.md). Allocates nothing.
pub fn kind_code(kind: Kind) -> u64
    ensures value { result ≡ kind_code kind }
    ensures low { result < 5 }
{
    match kind {
        Kind::Passed => 0,
        Kind::Skipped => 1,
        Kind::ExpectedFailure => 2,
        Kind::Failed => 3,
        Kind::Broken => 4,
    }
}

/// Returns the verdict kind that the number `code` represents in the tables, or `None` if `code` is
/// above 4.
pub(crate) fn kind_from_code(code: u64) -> Option<Kind>
    ensures { (k : Sort) → code ≡ kind_code k → result ≡ Some k }
{
    match code {
        0 => Some(Kind::Passed),
        1 => Some(Kind::Skipped),
        2 => Some(Kind::ExpectedFailure),
        3 => Some(Kind::Failed),
        4 => Some(Kind::Broken),
        _ => None,
    }
}
