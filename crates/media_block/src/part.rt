//! Parts of a disk: the blocks that one call of the store compares, or writes the same block to.

ghost use Rattle.std.specs.Prelude.{◌≡◌, length, replicate};
ghost use Rattle.media_block.specs.Blocks.{block_length, blocks_of};

use crate::disk::BLOCK_LENGTH;

/// The most blocks of a part.
pub(crate) const PART: u64 = 16;

pub(crate) const PART_LENGTH: usize = PART as usize * BLOCK_LENGTH;

/// The most bytes that one call of the store reads to compare many blocks: as many as one PDU usually brings.
pub(crate) const LONG_PART_LENGTH: usize = 65_536;

/// Returns the bytes of a part in which each block is this one.
pub(crate) fn repeated(block: &[u8]) -> [u8; PART_LENGTH]
    requires { length block.now ≡ block_length }
    ensures { blocks_of PART result ≡ replicate PART block.now }
{
    let mut part = [0; PART_LENGTH];
    for number in 0..PART as usize {
        let start = BLOCK_LENGTH * number;
        part[start..start + BLOCK_LENGTH].copy_from_slice(block);
    }
    part
}
