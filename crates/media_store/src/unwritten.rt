//! The bytes of a write, as they lie, of which the system takes some at a time.

ghost use Rattle.std.specs.Prelude.{◌≡◌, ◌<◌, ◌≤◌, ◌++◌, length, take, drop};

use crate::slices::Slices;
use data_parts::Data;
use std::marker::Model;

/// Bytes that are to be written: some that lie together, and more after them. Clauses see them joined.
#[derive(Drop)]
pub struct Unwritten<'a> {
    front: &'a [u8],
    /// The data after them, and perhaps bytes that are not to be written.
    more: Data<'a>,
    /// How many bytes are to be written.
    len: usize,
}

impl<'a> Model for Unwritten<'a> {
    ghost use Rattle.std.specs.Prelude.{◌<◌, ◌≤◌, ◌++◌, List, ℕ, length, take};

    ghost Value = { List ℕ };

    ghost view = { λ u. take u.len (u.front.now ++ u.more) };

    ghost invariant = { λ u. (u.len ≤ length (u.front.now ++ u.more)) × (0 < u.len → 0 < length u.front.now) };
}

/// Returns what lies after the first `n` of some bytes followed by data: bytes that lie together, and the data after them.
fn skipped<'a>(bytes: &'a [u8], more: Data<'a>, n: usize) -> (&'a [u8], Data<'a>)
    requires within { n ≤ length (bytes.now ++ more) }
    requires some { 0 < n → 0 < length bytes.now }
    ensures joined { result.0.now ++ result.1 ≡ drop n (bytes.now ++ more.entry) }
    ensures some { 0 < length bytes.now → n < length (bytes.now ++ more.entry) → 0 < length result.0.now }
{
    let (mut front, mut more) = (bytes, more);
    let mut left = n;
    while left > 0 && left >= front.len() {
        left -= front.len();
        (front, more) = more.split_front();
    }
    (&front[left..], more)
}

impl<'a> Unwritten<'a> {
    /// Creates a view of the first `count` bytes of the data.
    pub(crate) fn new(data: &Data<'a>, count: usize) -> Unwritten<'a>
        requires { count ≤ length «data».now }
        ensures { result ≡ take count «data».now }
    {
        let (front, more) = data.split_front();
        Unwritten {
            front,
            more,
            len: count,
        }
    }

    /// Returns how many bytes there are.
    pub fn len(&self) -> usize
        ensures { result ≡ length self.now }
    {
        self.len
    }

    /// Returns the bytes after the first `n`.
    pub(crate) fn after(self, n: usize) -> Unwritten<'a>
        requires { n ≤ length self }
        ensures { result ≡ drop n self.entry }
    {
        let Unwritten { front, more, len } = self;
        let (front, more) = skipped(front, more, n);
        Unwritten {
            front,
            more,
            len: len - n,
        }
    }

    /// Returns the first bytes, as many as lie in four slices.
    pub(crate) fn slices(&self) -> Slices<'a>
        ensures front { result ≡ take (length result) self.now }
        ensures some { 0 < length self.now → 0 < length result }
    {
        let (second, more) = self.more.split_front();
        let (third, more) = more.split_front();
        let (fourth, _) = more.split_front();
        Slices::new(self.front, second, third, fourth).front(self.len)
    }
}
