//! A set of connection numbers.

ghost use Rattle.std.specs.Prelude.{◌≡◌, ◌≢◌, ℕ, ◌<◌, ◌≤◌, true, false, IfSome, IfNone};
ghost use Rattle.iscsi_connection.specs.NumberSet.{is_in};

use std::marker::Model;
use target_limits::CONNECTIONS;

/// A set of connection numbers. Clauses see it as a number whose set bits are the members.
#[derive(Drop)]
pub(crate) struct NumberSet {
    bits: u64,
}

impl Model for NumberSet {
    ghost use Rattle.std.specs.Prelude.{ℕ};

    ghost Value = { ℕ };

    ghost view = { λ s. s.bits };
}

/// Returns the lowest set bit from `from` on.
fn next_bit(bits: u64, from: usize) -> Option<usize>
    ensures found { IfSome result (λ c. (from ≤ c) × (c < 64)) }
    ensures before { IfSome result (λ c. (d : ℕ) → from ≤ d → d < c → is_in bits d ≡ false) }
    ensures none { IfNone result ((d : ℕ) → from ≤ d → d < 64 → is_in bits d ≡ false) }
{
    if from >= CONNECTIONS {
        return None;
    }
    let rest = bits >> from;
    if rest == 0 {
        return None;
    }
    Some(from + rest.trailing_zeros() as usize)
}

impl NumberSet {
    /// Returns the set of all numbers.
    pub(crate) fn all() -> NumberSet
        ensures { (c : ℕ) → c < 64 → is_in result c ≡ true }
    {
        NumberSet { bits: u64::MAX }
    }

    /// Returns whether this number is in the set.
    #[inline]
    pub(crate) fn contains(&self, c: usize) -> bool
        requires { c < 64 }
        ensures { result ≡ is_in self.now c }
    {
        self.bits >> c & 1 == 1
    }

    /// Adds this number to the set.
    #[inline]
    pub(crate) fn insert(&mut self, c: usize)
        requires { c < 64 }
        ensures own { is_in self.new c ≡ true }
        ensures others { (d : ℕ) → d ≢ c → is_in self.new d ≡ is_in self.old d }
    {
        self.bits |= 1 << c;
    }

    /// Removes this number from the set.
    #[inline]
    pub(crate) fn remove(&mut self, c: usize)
        requires { c < 64 }
        ensures own { is_in self.new c ≡ false }
        ensures others { (d : ℕ) → d < 64 → d ≢ c → is_in self.new d ≡ is_in self.old d }
    {
        self.bits &= !(1 << c);
    }

    /// Returns the lowest number in the set from `from` on.
    #[inline]
    pub(crate) fn next_from(&self, from: usize) -> Option<usize>
        ensures found { IfSome result (λ c. (from ≤ c) × (c < 64)) }
        ensures before { IfSome result (λ c. (d : ℕ) → from ≤ d → d < c → is_in self.now d ≡ false) }
        ensures none { IfNone result ((d : ℕ) → from ≤ d → d < 64 → is_in self.now d ≡ false) }
    {
        next_bit(self.bits, from)
    }
}
