//! Blocks of one length, of a tape.

ghost use Rattle.std.specs.Prelude.{◌≡◌, ◌*◌, ◌<◌, ◌≤◌};
ghost use Rattle.scsi_cdb.specs.Record.{most_record};
ghost use Rattle.scsi_cdb.specs.FixedBlocks.{bytes_of, fixed_blocks_of};

use crate::record_length::MOST_RECORD;
use std::marker::Model;

/// A number of blocks of one length, which is not 0: at most [`MOST_RECORD`] bytes in all.
#[derive(Clone, Copy)]
pub struct FixedBlocks {
    count: u32,
    block_length: u32,
}

impl Model for FixedBlocks {
    ghost use Rattle.std.specs.Prelude.{◌*◌, ◌≤◌, ◌<◌, refl};
    ghost use Rattle.scsi_cdb.specs.Record.{most_record};
    ghost use Rattle.scsi_cdb.specs.FixedBlocks.{Blocks};

    ghost Value = { Blocks };

    ghost view = { λ blocks. record { count = blocks.count; block_length = blocks.block_length } };

    ghost invariant = { λ blocks. (0 < blocks.block_length)
        × (blocks.count * blocks.block_length ≤ most_record) };

    ghost inverse = { λ blocks. record { count = blocks.count; block_length = blocks.block_length } };

    ghost inverse_ok = { λ blocks is. refl };
}

impl FixedBlocks {
    /// Returns the blocks, or `None` if they have no length or are too many.
    pub fn new(count: u32, block_length: u32) -> Option<FixedBlocks>
        ensures { result ≡ fixed_blocks_of count block_length }
    {
        let bytes = u64::from(count) * u64::from(block_length);
        if block_length == 0 || bytes > u64::from(MOST_RECORD) {
            return None;
        }
        Some(FixedBlocks {
            count,
            block_length,
        })
    }

    /// Returns the number of blocks.
    pub fn count(self) -> u32
        ensures value { result ≡ self.count }
        ensures bound { result ≤ most_record }
    {
        self.count
    }

    /// Returns the length of each, in bytes.
    pub fn block_length(self) -> u32
        ensures value { result ≡ self.block_length }
        ensures some { 0 < result }
        ensures few { self.count * result ≤ most_record }
    {
        self.block_length
    }

    /// Returns the number of bytes of all.
    pub fn bytes(self) -> u32
        ensures value { result ≡ bytes_of self }
        ensures bound { result ≤ most_record }
    {
        self.count * self.block_length
    }
}
