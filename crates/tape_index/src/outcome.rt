//! What spacing and reads of blocks count, where they go, and what ends them.

ghost use Rattle.std.specs.Prelude.{◌≡◌};
ghost use Rattle.tape_index.specs.SizeFixed.{fixed_passed};

/// What is counted while spacing (SSC-4 "SPACE (6)", the code).
#[derive(Clone, Copy, Debug, PartialEq, Eq)]
pub enum Over {
    Records,
    Filemarks,
}

/// Whether spacing passes the items after the position, or those before it.
#[derive(Clone, Copy, Debug, PartialEq, Eq)]
pub enum Direction {
    Forward,
    Backward,
}

/// What ended the spacing, and how much of its count was then left.
#[derive(Clone, Copy, Debug, PartialEq, Eq)]
pub enum Spaced {
    /// Nothing was left.
    Whole,
    /// A filemark was passed while records were counted.
    Filemark(u32),
    /// No item comes after the position.
    EndOfData(u32),
    /// No item comes before the position.
    Beginning(u32),
}

/// What ended a read of blocks.
#[derive(Clone, Copy, Debug, PartialEq, Eq)]
pub enum FixedEnd {
    /// All blocks that were requested were returned.
    Whole,
    /// A filemark, which was passed.
    Filemark,
    /// No item comes after the position.
    EndOfData,
    /// A record of another length, in bytes, which was passed.
    Length(u32),
}

/// The outcome of a read of blocks.
#[derive(Clone, Copy, Debug, PartialEq, Eq)]
pub struct FixedRead {
    /// The number of blocks returned.
    pub given: u32,
    pub ended: FixedEnd,
}

/// Returns the number of items that a read of blocks passes.
pub fn passed_blocks(read: FixedRead) -> u64
    ensures { result ≡ fixed_passed read }
{
    let last = match read.ended {
        FixedEnd::Whole | FixedEnd::EndOfData => 0,
        FixedEnd::Filemark | FixedEnd::Length(_) => 1,
    };
    u64::from(read.given) + last
}
