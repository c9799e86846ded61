//! The end of a SCSI command (RFC 7143 §11.4).

ghost use Rattle.std.specs.Prelude.{◌≡◌, ◌+◌, ◌≤◌, length, Some};
ghost use Rattle.iscsi_pdu.specs.Header.{header_length};
ghost use Rattle.iscsi_pdu.specs.Segment.{most_data};
ghost use Rattle.iscsi_pdu.specs.ScsiResponse.{sense_segment};

use crate::header::HEADER_LENGTH;
use crate::segment::padded;
use crate::stamp::Stamp;
use byteorder::{BigEndian, ByteOrder};

/// The opcode, byte 0.
const OPCODE: u8 = 0x21;

/// The bit of byte 1 that is always set.
const FINAL: u8 = 0x80;

/// The length of fixed format sense data in bytes.
const SENSE_LENGTH: usize = 18;

/// The length of SenseLength and the sense data in bytes.
const SENSE_SEGMENT_LENGTH: usize = 2 + SENSE_LENGTH;

/// The difference between the data moved and the data that the initiator expected, in bytes (RFC 7143 §11.4.5).
#[derive(Clone, Copy)]
pub enum Residual {
    /// No difference.
    None,
    /// Overflow: this many more bytes would have been moved.
    Overflow(u32),
    /// Underflow: this many fewer bytes were moved.
    Underflow(u32),
}

/// The end of a SCSI command (RFC 7143 §11.4). The response is 00h, command completed at target.
#[derive(Clone, Copy)]
pub struct ScsiResponse {
    /// The Initiator Task Tag of the command.
    pub initiator_task_tag: u32,
    pub stamp: Stamp,
    /// The SCSI status.
    pub status: u8,
    pub residual: Residual,
    /// ExpDataSN: how many Data-In PDUs were sent for the command.
    pub exp_data_sn: u32,
    /// Fixed format sense data, if there is any.
    pub sense: Option<[u8; SENSE_LENGTH]>,
}

impl Residual {
    ghost use Rattle.iscsi_pdu.specs.ScsiResponse.{residual_flags, residual_count};

    /// Returns O and U of byte 1.
    fn flags(self) -> u8
        ensures { result ≡ residual_flags self }
    {
        match self {
            Residual::None => 0x00,
            Residual::Overflow(_) => 0x04,
            Residual::Underflow(_) => 0x02,
        }
    }

    /// Returns Residual Count.
    fn count(self) -> u32
        ensures { result ≡ residual_count self }
    {
        match self {
            Residual::None => 0,
            Residual::Overflow(count) | Residual::Underflow(count) => count,
        }
    }
}

impl ScsiResponse {
    ghost use Rattle.iscsi_pdu.specs.ScsiResponse.{scsi_response_bytes, scsi_response_header};

    /// Returns the length of the data segment in bytes: SenseLength and the sense data.
    fn data_length(&self) -> usize
        ensures value { result ≡ length (sense_segment self.now.sense) }
        ensures bound { result ≤ SENSE_SEGMENT_LENGTH }
    {
        match self.sense {
            None => 0,
            Some(sense) => sense_segment(sense).len(),
        }
    }

    /// Returns the length of the response in bytes.
    pub(crate) fn length(&self) -> usize
        ensures value { result ≡ length (scsi_response_bytes self.now) }
        ensures bound { result ≤ header_length + most_data }
    {
        self.header().len() + padded(self.data_length())
    }

    /// Returns the 48 header bytes.
    pub(crate) fn header(&self) -> [u8; HEADER_LENGTH]
        ensures { result ≡ scsi_response_header self.now }
    {
        let mut header = [0; HEADER_LENGTH];
        header[0] = OPCODE;
        header[1] = FINAL + self.residual.flags();
        header[3] = self.status;
        BigEndian::write_u24(&mut header[5..8], self.data_length() as u32);
        BigEndian::write_u32(&mut header[16..20], self.initiator_task_tag);
        header[24..36].copy_from_slice(&self.stamp.bytes());
        BigEndian::write_u32(&mut header[36..40], self.exp_data_sn);
        BigEndian::write_u32(&mut header[44..48], self.residual.count());
        header
    }
}

/// Returns SenseLength and the sense data (RFC 7143 §11.4.7).
pub fn sense_segment(sense: [u8; SENSE_LENGTH]) -> [u8; SENSE_SEGMENT_LENGTH]
    ensures { result ≡ sense_segment (Some sense) }
{
    let mut bytes = [0; SENSE_SEGMENT_LENGTH];
    BigEndian::write_u16(&mut bytes[0..2], SENSE_LENGTH as u16);
    bytes[2..].copy_from_slice(&sense);
    bytes
}
