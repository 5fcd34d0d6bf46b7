ghost use Rattle.std.specs.Prelude.{◌≡◌};
ghost use Rattle.kt_base.specs.Common.{decimal, utf8};

use itoa::Integer;
use std::marker::Model;

/// The decimal digits of a number, in a buffer on the stack.
///
/// Reasons and reports print numbers with a `Decimal`, because a `Decimal` allocates nothing. In
/// contracts, a `Decimal` is the list of the digits' bytes.
#[derive(Drop)]
pub struct Decimal {
    /// The digits in ASCII, at the end of the buffer. The bytes before them are not used.
    buffer: [u8; 40],
    /// The index of the first digit in the buffer, at most 40.
    start: usize,
}

impl Model for Decimal {
    ghost use Rattle.std.specs.Prelude.{ℕ, List, ◌≤◌, drop};

    ghost Value = { List ℕ };

    ghost view = { λ d. drop d.start d.buffer };

    ghost invariant = { λ d. d.start ≤ 40 };
}

impl Decimal {
    /// Converts the number `n` to its decimal digits, without leading zeros. Allocates nothing.
    pub fn new(n: u64) -> Decimal
        ensures value { result ≡ decimal n }
        ensures ascii { utf8 (decimal n) ≡ decimal n }
    {
        Decimal::from_u128(u128::from(n))
    }

    /// Converts the 128-bit number `n` to its decimal digits, without leading zeros.
    ///
    /// Allocates nothing.
    pub fn from_u128(n: u128) -> Decimal
        ensures value { result ≡ decimal n }
        ensures ascii { utf8 (decimal n) ≡ decimal n }
    {
        let mut buffer = [0; 40];
        let start = n.write(&mut buffer);
        Decimal { buffer, start }
    }

    /// Returns the digits as ASCII bytes, the most significant digit first.
    pub fn as_bytes(&self) -> &[u8]
        ensures { result.now ≡ self.now }
    {
        &self.buffer[self.start..]
    }
}
