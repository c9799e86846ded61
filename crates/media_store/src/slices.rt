//! Bytes in up to four slices, as many as one call of the system takes.

ghost use Rattle.std.specs.Prelude.{◌≡◌, ◌-◌, ◌++◌, length, take};

use std::marker::Model;

/// Bytes in up to four slices; those after the last are empty. Clauses see them joined.
#[derive(Drop)]
pub(crate) struct Slices<'a> {
    first: &'a [u8],
    second: &'a [u8],
    third: &'a [u8],
    fourth: &'a [u8],
}

impl<'a> Model for Slices<'a> {
    ghost use Rattle.std.specs.Prelude.{◌++◌, List, ℕ};

    ghost Value = { List ℕ };

    ghost view = { λ s. s.first.now ++ (s.second.now ++ (s.third.now ++ s.fourth.now)) };
}

/// Returns the first `count` bytes, and how many more that number is than there are.
fn cut(bytes: &[u8], count: usize) -> (&[u8], usize)
    ensures front { result.0.now ≡ take count bytes.now }
    ensures left { result.1 ≡ count - length bytes.now }
{
    let part = count.min(bytes.len());
    (&bytes[..part], count - part)
}

impl<'a> Slices<'a> {
    /// Creates a view of these slices.
    pub(crate) fn new(
        first: &'a [u8],
        second: &'a [u8],
        third: &'a [u8],
        fourth: &'a [u8],
    ) -> Slices<'a>
        ensures { result ≡ first.now ++ (second.now ++ (third.now ++ fourth.now)) }
    {
        Slices {
            first,
            second,
            third,
            fourth,
        }
    }

    /// Returns the first `count` bytes, or all if there are fewer.
    pub(crate) fn front(&self, count: usize) -> Slices<'a>
        ensures { result ≡ take count self.now }
    {
        let (first, left) = cut(self.first, count);
        let (second, left) = cut(self.second, left);
        let (third, left) = cut(self.third, left);
        let (fourth, _) = cut(self.fourth, left);
        Slices::new(first, second, third, fourth)
    }

    /// Returns the slices.
    pub(crate) fn parts(&self) -> (&'a [u8], &'a [u8], &'a [u8], &'a [u8])
        ensures { self.now ≡ result.0.now ++ (result.1.now ++ (result.2.now ++ result.3.now)) }
    {
        (self.first, self.second, self.third, self.fourth)
    }
}
