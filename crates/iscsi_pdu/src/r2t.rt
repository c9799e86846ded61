//! Ready To Transfer: the target asks for data of a command (RFC 7143 §11.8).

ghost use Rattle.std.specs.Prelude.{◌≡◌, ◌+◌, ◌≤◌, length, replicate};
ghost use Rattle.iscsi_pdu.specs.Header.{header_length};
ghost use Rattle.iscsi_pdu.specs.Segment.{most_data};

use crate::header::HEADER_LENGTH;
use crate::stamp::Stamp;
use byteorder::{BigEndian, ByteOrder};

/// The opcode, byte 0.
const OPCODE: u8 = 0x31;

/// The bit of byte 1 that is always set.
const FINAL: u8 = 0x80;

/// Ready To Transfer: the target asks for a part of a command's data (RFC 7143 §11.8).
#[derive(Clone, Copy)]
pub struct R2t {
    /// The LUN field of the command.
    pub lun: [u8; 8],
    /// The Initiator Task Tag of the command.
    pub initiator_task_tag: u32,
    /// The Target Transfer Tag that each Data-Out of this part must carry: never FFFFFFFFh.
    pub target_transfer_tag: u32,
    /// The sequence numbers. StatSN is the next one, and the R2T does not use it up.
    pub stamp: Stamp,
    /// R2TSN: the number of the R2T among those of the command, counted from 0.
    pub r2t_sn: u32,
    /// Buffer Offset: the place in the command's data where the part begins, in bytes.
    pub buffer_offset: u32,
    /// Desired Data Transfer Length: how many bytes are asked for.
    pub desired_length: u32,
}

impl R2t {
    ghost use Rattle.iscsi_pdu.specs.R2t.{r2t_bytes, r2t_header};

    /// Returns the length of the PDU in bytes.
    pub(crate) fn length(&self) -> usize
        ensures value { result ≡ length (r2t_bytes self.now) }
        ensures bound { result ≤ header_length + most_data }
    {
        self.header().len()
    }

    /// Returns the 48 header bytes.
    pub(crate) fn header(&self) -> [u8; HEADER_LENGTH]
        ensures { result ≡ r2t_header self.now }
    {
        let mut header = self.header_without_lun();
        header[8..16].copy_from_slice(&self.lun);
        header
    }

    /// Returns the 48 header bytes with zeros for the LUN.
    fn header_without_lun(&self) -> [u8; HEADER_LENGTH]
        ensures { result ≡ r2t_header (record self.now { lun = replicate 8 0 }) }
    {
        let mut header = [0; HEADER_LENGTH];
        header[0] = OPCODE;
        header[1] = FINAL;
        BigEndian::write_u32(&mut header[16..20], self.initiator_task_tag);
        BigEndian::write_u32(&mut header[20..24], self.target_transfer_tag);
        header[24..36].copy_from_slice(&self.stamp.bytes());
        BigEndian::write_u32(&mut header[36..40], self.r2t_sn);
        BigEndian::write_u32(&mut header[40..44], self.buffer_offset);
        BigEndian::write_u32(&mut header[44..48], self.desired_length);
        header
    }
}
