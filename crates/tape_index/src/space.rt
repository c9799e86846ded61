//! From item to item, over records or over filemarks (SSC-4 "SPACE (6)"), and over blocks (SSC-4 "READ (6)").

ghost use Rattle.std.specs.Prelude.{◌≡◌, ℕ, ◌+◌, ◌≤◌, ◌<◌, ◌^◌, List, ◌++◌, length, drop, replicate};
ghost use Rattle.tape_index.specs.Index.{CanMove};
ghost use Rattle.tape_index.specs.SizeFixed.{fixed_passed, size_fixed};
ghost use Rattle.tape_index.specs.SizeSpace.{size_way, through, IsWithin, HasEnded};
ghost use Rattle.tape_index.specs.Way.{edge, spaced_to};
ghost use Rattle.tape_index.specs.declared.outcome.Direction.{Direction as Toward};

use crate::index::Index;
use crate::outcome::{Direction, FixedEnd, FixedRead, Over, Spaced};
use crate::run::MARK_SIZE;

/// Where spacing ended, and why.
#[derive(Clone, Copy)]
pub struct Ended {
    /// The number of items before it.
    pub number: u64,
    pub told: Spaced,
}

/// How far spacing gets within items of one size.
pub(crate) enum Within {
    /// Over all of them, and this much is left of the count.
    All(u32),
    /// Over this many, and there it ends.
    Part(u64, Spaced),
}

/// Returns how far spacing gets within `many` items of one size.
fn within_run(over: Over, left: u32, size: u32, many: u64) -> Within
    requires left { 0 < left }
    requires some { 0 < many }
    ensures way { (direction : Toward) (sizes : List ℕ)
        → size_way direction over left (replicate many size ++ sizes) ≡ through result direction over many sizes }
    ensures within { IsWithin many result }
{
    match over {
        Over::Records if size == MARK_SIZE => Within::Part(1, Spaced::Filemark(left)),
        Over::Filemarks if size != MARK_SIZE => Within::All(left),
        _ if u64::from(left) <= many => Within::Part(u64::from(left), Spaced::Whole),
        _ => Within::All(left - many as u32),
    }
}

/// Returns the position that is `many` items away.
fn moved(toward: Direction, at: u64, many: u64) -> u64
    requires { CanMove toward at many }
    ensures { result ≡ spaced_to toward at many }
{
    match toward {
        Direction::Forward => at + many,
        Direction::Backward => at - many,
    }
}

/// Returns what ends spacing if no item is left.
fn at_edge(toward: Direction, left: u32) -> Spaced
    ensures { result ≡ edge toward left }
{
    match toward {
        Direction::Forward => Spaced::EndOfData(left),
        Direction::Backward => Spaced::Beginning(left),
    }
}

impl Index {
    /// Spaces over `count` records or filemarks from a position, or until spacing ends before that, run by run (SSC-4
    /// "SPACE (6)").
    pub fn space(&self, toward: Direction, over: Over, from: u64, count: u32) -> Ended
        requires { from ≤ length self.now.sizes }
        ensures { HasEnded toward over count from self.now.sizes result }
    {
        match over {
            Over::Records => self.space_records(toward, from, count),
            Over::Filemarks => self.space_marks(toward, from, count),
        }
    }

    /// Spaces over `count` records.
    fn space_records(&self, toward: Direction, from: u64, count: u32) -> Ended
        requires { from ≤ length self.now.sizes }
        ensures { HasEnded toward Over.Records count from self.now.sizes result }
    {
        let mut at = from;
        let mut left = count;
        let mut near = 0;
        while left > 0 {
            let Some(ahead) = self.ahead(toward, at, near) else {
                let told = at_edge(toward, left);
                return Ended { number: at, told };
            };
            match within_run(Over::Records, left, ahead.size, ahead.many) {
                Within::All(rest) => {
                    at = moved(toward, at, ahead.many);
                    left = rest;
                    near = ahead.near;
                }
                Within::Part(passed, told) => {
                    let number = moved(toward, at, passed);
                    return Ended { number, told };
                }
            }
        }
        let told = Spaced::Whole;
        Ended { number: at, told }
    }

    /// Spaces over `count` filemarks, and passes all records up to the next one at once.
    fn space_marks(&self, toward: Direction, from: u64, count: u32) -> Ended
        requires { from ≤ length self.now.sizes }
        ensures { HasEnded toward Over.Filemarks count from self.now.sizes result }
    {
        let mut at = from;
        let mut left = count;
        let mut near = 0;
        while left > 0 {
            let (start, marks) = self.marks_ahead(toward, at, near);
            let Some(ahead) = marks else {
                let told = at_edge(toward, left);
                return Ended {
                    number: start,
                    told,
                };
            };
            match within_run(Over::Filemarks, left, ahead.size, ahead.many) {
                Within::All(rest) => {
                    at = moved(toward, start, ahead.many);
                    left = rest;
                    near = ahead.near;
                }
                Within::Part(passed, told) => {
                    let number = moved(toward, start, passed);
                    return Ended { number, told };
                }
            }
        }
        let told = Spaced::Whole;
        Ended { number: at, told }
    }

    /// Returns how many of `count` blocks of a length a read from this number on returns, and what ends it (SSC-4 "READ
    /// (6)"). It goes from run to run.
    pub fn blocks(&self, from: u64, count: u32, block_length: u32) -> FixedRead
        requires { from ≤ length self.now.sizes }
        ensures read { result ≡ size_fixed count block_length (drop from self.now.sizes) }
        ensures passed { from + fixed_passed result < 2 ^ 64 }
    {
        let mut given = 0;
        let mut near = 0;
        while given < count {
            let number = from + u64::from(given);
            let Some(ahead) = self.ahead(Direction::Forward, number, near) else {
                let ended = FixedEnd::EndOfData;
                return FixedRead { given, ended };
            };
            let length = ahead.size - MARK_SIZE;
            if length == 0 {
                let ended = FixedEnd::Filemark;
                return FixedRead { given, ended };
            }
            if length != block_length {
                let ended = FixedEnd::Length(length);
                return FixedRead { given, ended };
            }
            given += ahead.many.min(u64::from(count - given)) as u32;
            near = ahead.near;
        }
        let ended = FixedEnd::Whole;
        FixedRead { given, ended }
    }
}
