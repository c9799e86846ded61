//! The list of numbers.

ghost use Rattle.std.specs.Prelude.{◌≡◌, ◌==◌, ◌<◌, ◌^◌, ◌++◌, ◌∷◌, [], length, take, slice_get, slice_set, Some, IfOk, OnOk, OnErr};

use std::alloc::{AllocError, Global};
use std::marker::Model;

/// The first number that does not fit into four bytes.
const SHORT_END: usize = 0x1_0000_0000;

/// The numbers, stored as wide as the greatest so far needs.
#[derive(Drop)]
enum Numbers {
    /// Four bytes each.
    Short(Vec<u32>),
    /// Eight bytes each.
    Long(Vec<usize>),
}

/// A list of numbers. Each takes four bytes as long as all are below 2^32, and eight after that. Clauses see the list.
pub struct NumberList {
    alloc: Global,
    numbers: Numbers,
}

impl Model for NumberList {
    ghost use Rattle.std.specs.Prelude.{ℕ, List};
    ghost use Rattle.number_list.specs.Numbers.{numbers_of};

    ghost Value = { List ℕ };

    ghost view = { λ list. numbers_of list.numbers };
}

// Dropped by a call of its own, so that code that drops a list does not distinguish the two widths.
impl Drop for NumberList {
    fn drop(self) {
        let NumberList {
            alloc: _alloc,
            numbers: _numbers,
        } = self;
    }
}

/// Returns these numbers, eight bytes each, with room for one more.
fn widened(alloc: Global, short: &[u32]) -> Result<Vec<usize>, AllocError>
    ensures { IfOk result (λ long. long.items ≡ short.now) }
{
    let mut long = Vec::with_capacity(alloc, short.len() + 1)?;
    for number in short {
        long.push(*number as usize)?;
    }
    Ok(long)
}

impl NumberList {
    /// Returns an empty list. Allocates nothing.
    pub fn new(alloc: Global) -> NumberList
        ensures { result ≡ [] }
    {
        NumberList {
            alloc,
            numbers: Numbers::Short(Vec::new(alloc)),
        }
    }

    /// Returns the length of the list.
    pub fn len(&self) -> usize
        ensures value { result ≡ length self.now }
        ensures bound { result < 2 ^ 63 }
    {
        match &self.numbers {
            Numbers::Short(short) => short.len(),
            Numbers::Long(long) => long.len(),
        }
    }

    /// Returns whether the list is empty.
    pub fn is_empty(&self) -> bool
        ensures { result ≡ (length self.now == 0) }
    {
        self.len() == 0
    }

    /// Returns the number at a place.
    pub fn get(&self, at: usize) -> usize
        requires { at < length self.now }
        ensures { slice_get self.now at ≡ Some result }
    {
        match &self.numbers {
            Numbers::Short(short) => short[at] as usize,
            Numbers::Long(long) => long[at],
        }
    }

    /// Appends a number. If an allocation fails, the list is unchanged.
    pub fn push(&mut self, number: usize) -> Result<(), AllocError>
        ensures added { OnOk result (self.new ≡ self.old ++ number ∷ []) }
        ensures unchanged { OnErr result (self.new ≡ self.old) }
    {
        match &mut self.numbers {
            Numbers::Short(short) if number < SHORT_END => short.push(number as u32)?,
            Numbers::Short(short) => {
                let mut long = widened(self.alloc, short)?;
                long.push(number)?;
                self.numbers = Numbers::Long(long);
            }
            Numbers::Long(long) => long.push(number)?,
        }
        Ok(())
    }

    /// Replaces the number at a place. If an allocation fails, the list is unchanged.
    pub fn set(&mut self, at: usize, number: usize) -> Result<(), AllocError>
        requires { at < length self.old }
        ensures replaced { OnOk result (self.new ≡ slice_set self.old at number) }
        ensures unchanged { OnErr result (self.new ≡ self.old) }
    {
        match &mut self.numbers {
            Numbers::Short(short) if number < SHORT_END => short[at] = number as u32,
            Numbers::Short(short) => {
                let mut long = widened(self.alloc, short)?;
                long[at] = number;
                self.numbers = Numbers::Long(long);
            }
            Numbers::Long(long) => long[at] = number,
        }
        Ok(())
    }

    /// Keeps the first `count` numbers, or all if there are fewer.
    pub fn truncate(&mut self, count: usize)
        ensures { self.new ≡ take count self.old }
    {
        match &mut self.numbers {
            Numbers::Short(short) => short.truncate(count),
            Numbers::Long(long) => long.truncate(count),
        }
    }
}
