//! 32-bit serial numbers.

ghost use Rattle.std.specs.Prelude.{◌≡◌};
ghost use Rattle.iscsi_order.specs.Serial.{is_before as is_before_in};

/// A number is after another if it is ahead of it by less than this (RFC 1982 §3.2).
const HALF: u32 = 0x8000_0000;

/// Returns whether `a` is before `b`, compared serially modulo 2^32 (RFC 1982 §3.2).
pub fn is_before(a: u32, b: u32) -> bool
    ensures { result ≡ is_before_in a b }
{
    let ahead = b.wrapping_sub(a);
    0 < ahead && ahead < HALF
}
