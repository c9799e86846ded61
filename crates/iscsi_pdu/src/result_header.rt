//! The header of an answer that says no more than a result.

ghost use Rattle.std.specs.Prelude.{◌≡◌, ◌++◌, ◌∷◌, [], replicate};
ghost use Rattle.byteorder.specs.Endian.{big_bytes};
ghost use Rattle.iscsi_pdu.specs.Stamp.{stamp_bytes};

use crate::header::HEADER_LENGTH;
use crate::stamp::Stamp;
use byteorder::{BigEndian, ByteOrder};

/// The bit of byte 1 that is always set.
const FINAL: u8 = 0x80;

/// Returns the header of an answer with this opcode, whose byte 2 is its result (RFC 7143 §11.6, §11.15).
pub(crate) fn result_header(
    opcode: u8,
    result_code: u8,
    initiator_task_tag: u32,
    stamp: Stamp,
) -> [u8; HEADER_LENGTH]
    ensures { result ≡ (opcode ∷ 0x80 ∷ result_code ∷ 0 ∷ []) ++ replicate 4 0 ++ replicate 8 0
        ++ big_bytes 4 initiator_task_tag ++ replicate 4 0 ++ stamp_bytes stamp ++ replicate 12 0 }
{
    let mut header = [0; HEADER_LENGTH];
    header[0] = opcode;
    header[1] = FINAL;
    header[2] = result_code;
    BigEndian::write_u32(&mut header[16..20], initiator_task_tag);
    header[24..36].copy_from_slice(&stamp.bytes());
    header
}
