//! Block descriptors.

ghost use Rattle.std.specs.Prelude.{◌≡◌, ◌≤◌, length};
ghost use Rattle.scsi_mode.specs.Descriptor.{descriptor, described};

use crate::parameters::Parameters;
use byteorder::{BigEndian, ByteOrder};
use media_block::BLOCK_LENGTH;
use scsi_cdb::MOST_RECORD;

/// The number that stands for all blocks, and for more of them than four bytes can hold.
const ALL_BLOCKS: u32 = 0xffff_ffff;

/// Returns the block descriptor of a unit (SBC-3 "Short LBA mode parameter block descriptor", SSC-4 "Mode parameter
/// block descriptor").
pub(crate) fn descriptor(parameters: Parameters) -> [u8; 8]
    ensures { result ≡ descriptor parameters }
{
    let count = match parameters {
        Parameters::Disk { block_count, .. } => block_count.min(u64::from(ALL_BLOCKS)) as u32,
        Parameters::Tape { .. } => 0,
    };
    let count = count.to_be_bytes();
    let length = parameters.block_length().to_be_bytes();
    [
        count[0], count[1], count[2], count[3], length[0], length[1], length[2], length[3],
    ]
}

/// Returns the parameters after the descriptor at the front of these bytes of a parameter list, or `None` if it is
/// refused.
pub(crate) fn described(parameters: Parameters, bytes: &[u8]) -> Option<Parameters>
    requires { 8 ≤ length bytes.now }
    ensures { result ≡ described parameters bytes.now }
{
    let block_length = BigEndian::read_u24(&bytes[5..]);
    match parameters {
        Parameters::Disk { block_count, .. } => {
            let blocks = BigEndian::read_u32(bytes);
            let is_count = blocks == 0 || blocks == ALL_BLOCKS || u64::from(blocks) == block_count;
            (block_length == BLOCK_LENGTH as u32 && is_count).then_some(parameters)
        }
        Parameters::Tape { .. } => {
            let is_taken = bytes[0] == 0 && block_length <= MOST_RECORD;
            is_taken.then_some(Parameters::Tape { block_length })
        }
    }
}
