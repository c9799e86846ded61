//! The refusal of a PDU (RFC 7143 §11.17).

ghost use Rattle.std.specs.Prelude.{◌≡◌, ◌+◌, ◌≤◌, length};
ghost use Rattle.iscsi_pdu.specs.Header.{header_length};
ghost use Rattle.iscsi_pdu.specs.Segment.{most_data};

use crate::header::{HEADER_LENGTH, Header, RESERVED_TAG};
use crate::segment::padded;
use crate::stamp::Stamp;
use byteorder::{BigEndian, ByteOrder};

/// The opcode, byte 0.
const OPCODE: u8 = 0x3F;

/// The bit of byte 1 that is always set.
const FINAL: u8 = 0x80;

/// The reason why a PDU is refused (RFC 7143 §11.17.1).
#[derive(Clone, Copy)]
pub enum RejectReason {
    /// 03h: SNACK is not supported.
    Snack = 0x03,
    /// 05h: the command is not supported.
    CommandNotSupported = 0x05,
    /// 06h: there are too many immediate commands.
    TooManyImmediate = 0x06,
    /// 09h: a field of the PDU is invalid.
    InvalidField = 0x09,
}

/// The refusal of a PDU (RFC 7143 §11.17).
#[derive(Clone, Copy)]
pub struct Reject {
    pub reason: RejectReason,
    pub stamp: Stamp,
    /// The header of the refused PDU.
    pub header: Header,
}

impl RejectReason {
    ghost use Rattle.iscsi_pdu.specs.Reject.{reject_code};

    /// Returns byte 2.
    fn code(self) -> u8
        ensures { result ≡ reject_code self }
    {
        self as u8
    }
}

impl Reject {
    ghost use Rattle.iscsi_pdu.specs.Reject.{reject_bytes, reject_header};

    /// Returns the length of the PDU in bytes.
    pub(crate) fn length(&self) -> usize
        ensures value { result ≡ length (reject_bytes self.now) }
        ensures bound { result ≤ header_length + most_data }
    {
        self.header().len() + padded(self.segment().len())
    }

    /// Returns the 48 header bytes.
    pub(crate) fn header(&self) -> [u8; HEADER_LENGTH]
        ensures { result ≡ reject_header self.now }
    {
        let mut header = [0; HEADER_LENGTH];
        header[0] = OPCODE;
        header[1] = FINAL;
        header[2] = self.reason.code();
        BigEndian::write_u24(&mut header[5..8], self.segment().len() as u32);
        BigEndian::write_u32(&mut header[16..20], RESERVED_TAG);
        header[24..36].copy_from_slice(&self.stamp.bytes());
        header
    }

    /// Returns the data segment: the header of the refused PDU.
    pub(crate) fn segment(&self) -> &[u8]
        ensures value { result.now ≡ self.now.header }
        ensures bound { length result.now ≤ most_data }
    {
        &self.header.bytes
    }
}
