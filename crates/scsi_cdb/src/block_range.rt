//! Blocks that a command names: a number of blocks from the first one on, with the limit of the command in the type.
//! Whether a disk has them is not known here.

ghost use Rattle.std.specs.Prelude.{◌≡◌, ◌≤◌};
ghost use Rattle.scsi_cdb.specs.Range.{range_between};

use std::marker::Model;

/// The most blocks of one READ, of one WRITE and of one VERIFY with data.
pub const MOST_BLOCKS: u32 = 2048;

/// The most blocks of one COMPARE AND WRITE.
pub const MOST_COMPARED: u32 = 128;

/// The most blocks of one WRITE SAME.
pub const MOST_SAME: u32 = 32768;

/// A number of blocks, without a limit.
#[derive(Clone, Copy)]
pub struct AnyRange {
    first: u64,
    count: u32,
}

impl Model for AnyRange {
    ghost use Rattle.std.specs.Prelude.{refl};
    ghost use Rattle.scsi_cdb.specs.Range.{Range};

    ghost Value = { Range };

    ghost view = { λ r. record { first = r.first; count = r.count } };

    ghost inverse = { λ r. record { first = r.first; count = r.count } };

    ghost inverse_ok = { λ r is. refl };
}

impl AnyRange {
    /// Returns the range.
    pub fn new(first: u64, count: u32) -> AnyRange
        ensures { result ≡ record { first = first; count = count } }
    {
        AnyRange { first, count }
    }

    /// Returns the logical block address of the first block.
    pub fn first(self) -> u64
        ensures { result ≡ self.first }
    {
        self.first
    }

    /// Returns the number of blocks.
    pub fn count(self) -> u32
        ensures { result ≡ self.count }
    {
        self.count
    }
}

/// At least LEAST blocks, and at most MOST.
#[derive(Clone, Copy)]
pub struct LimitedRange<const LEAST: u32, const MOST: u32> {
    first: u64,
    count: u32,
}

/// The blocks of a READ, of a WRITE, of a VERIFY with data.
pub type BlockRange = LimitedRange<0, MOST_BLOCKS>;

/// The blocks of a COMPARE AND WRITE.
pub type ComparedRange = LimitedRange<0, MOST_COMPARED>;

/// The blocks of a WRITE SAME: at least one (SBC-3 "Block Limits VPD page", WSNZ).
pub type SameRange = LimitedRange<1, MOST_SAME>;

impl<const LEAST: u32, const MOST: u32> Model for LimitedRange<LEAST, MOST> {
    ghost use Rattle.std.specs.Prelude.{◌≤◌, refl};
    ghost use Rattle.scsi_cdb.specs.Range.{Range};

    ghost Value = { Range };

    ghost view = { λ r. record { first = r.first; count = r.count } };

    ghost invariant = { λ r. (LEAST ≤ r.count) × (r.count ≤ MOST) };

    ghost inverse = { λ r. record { first = r.first; count = r.count } };

    ghost inverse_ok = { λ r is. refl };
}

impl<const LEAST: u32, const MOST: u32> LimitedRange<LEAST, MOST> {
    /// Returns the range, or `None` if it has too few blocks or too many.
    pub fn new(first: u64, count: u32) -> Option<LimitedRange<LEAST, MOST>>
        ensures { result ≡ range_between LEAST MOST first count }
    {
        if count < LEAST || count > MOST {
            return None;
        }
        Some(LimitedRange { first, count })
    }

    /// Returns the logical block address of the first block.
    pub fn first(self) -> u64
        ensures { result ≡ self.entry.first }
    {
        self.first
    }

    /// Returns the number of blocks.
    pub fn count(self) -> u32
        ensures value { result ≡ self.entry.count }
        ensures least { LEAST ≤ result }
        ensures most { result ≤ MOST }
    {
        self.count
    }
}
