ghost use Rattle.std.specs.Prelude.{◌≡◌, is_err};
ghost use Rattle.kt_base.specs.Common.{decimal, Emits, utf8};

use crate::{Decimal, OutputFault, emit};
use std::io::Write;

/// Writes the 128-bit number `n` to `out` in decimal. Allocates nothing.
///
/// # Errors
///
/// - `OutputFault`: a write failed, was interrupted or wrote no byte. A proper prefix of the digits
///   was written.
pub fn emit_u128<W: Write>(n: u128, out: &mut W) -> Result<(), OutputFault>
    ensures shown { Emits (W.contents out.old) (W.contents out.new) (is_err result) (decimal n) }
    ensures ascii { utf8 (decimal n) ≡ decimal n }
{
    let digits = Decimal::from_u128(n);
    emit(digits.as_bytes(), out)
}

/// Writes the number `n` to `out` in decimal. Allocates nothing.
///
/// # Errors
///
/// - `OutputFault`: a write failed, was interrupted or wrote no byte. A proper prefix of the digits
///   was written.
pub fn emit_number<W: Write>(n: u64, out: &mut W) -> Result<(), OutputFault>
    ensures shown { Emits (W.contents out.old) (W.contents out.new) (is_err result) (decimal n) }
    ensures ascii { utf8 (decimal n) ≡ decimal n }
{
    emit_u128(u128::from(n), out)
}
