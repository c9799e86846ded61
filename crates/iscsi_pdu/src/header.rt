//! The 48 header bytes of a PDU (RFC 7143 §11.2.1), and the fields that every PDU of an initiator has.
//!
//! RFC 7143 numbers the bits of a byte from the most significant, which is bit 0. The masks here are by value, so
//! that bit 0 is 0x80.

ghost use Rattle.std.specs.Prelude.{◌≡◌, ◌==◌, ℕ, List};

use byteorder::{BigEndian, ByteOrder};
use std::marker::Model;

/// The length of a header in bytes.
pub const HEADER_LENGTH: usize = 48;

/// The reserved tag: as an Initiator Task Tag it names no task (RFC 7143 §11.2.1.8), as a Target Transfer Tag no transfer
/// and no exchange of texts (§11.7.4, §11.10.4, §11.11.4).
pub const RESERVED_TAG: u32 = 0xffff_ffff;

/// I, in byte 0.
const IMMEDIATE: u8 = 0x40;

/// The opcode, in byte 0.
const OPCODE: u8 = 0x3F;

/// The opcode of a Data-Out.
const DATA_OUT: u8 = 0x05;

/// The opcode of an initiator's PDU: the request that it makes (RFC 7143 §11.2.1.2).
#[derive(Clone, Copy, PartialEq, Eq)]
pub enum Opcode {
    /// 00h NOP-Out
    NopOut,
    /// 01h SCSI Command
    ScsiCommand,
    /// 02h Task Management Function Request
    TaskManagement,
    /// 03h Login Request
    Login,
    /// 04h Text Request
    Text,
    /// 05h SCSI Data-Out
    DataOut,
    /// 06h Logout Request
    Logout,
    /// 10h SNACK Request
    Snack,
    /// An opcode that is not one of an initiator, by its number.
    Other(u8),
}

/// The 48 header bytes of a PDU. Each method returns a field as the bytes have it. Whether a field has a meaning
/// depends on the opcode.
#[derive(Clone, Copy)]
pub struct Header {
    pub(crate) bytes: [u8; HEADER_LENGTH],
}

impl Model for Header {
    ghost Value = { List ℕ };

    ghost view = { λ h. h.bytes };

    ghost inverse = { λ bytes. record { bytes = bytes } };
}

impl Header {
    ghost use Rattle.iscsi_pdu.specs.Header.{opcode_of, opcode_number, is_immediate, additional_length, data_length, initiator_task_tag, lun_field, cmd_sn};

    /// Returns the header with these bytes.
    pub fn new(bytes: [u8; HEADER_LENGTH]) -> Header
        ensures { result ≡ bytes }
    {
        Header { bytes }
    }

    /// Returns the opcode: bits 2 to 7 of byte 0.
    pub fn opcode(&self) -> Opcode
        ensures { result ≡ opcode_of (opcode_number self.now) }
    {
        match self.bytes[0] & OPCODE {
            0x00 => Opcode::NopOut,
            0x01 => Opcode::ScsiCommand,
            0x02 => Opcode::TaskManagement,
            0x03 => Opcode::Login,
            0x04 => Opcode::Text,
            0x05 => Opcode::DataOut,
            0x06 => Opcode::Logout,
            0x10 => Opcode::Snack,
            number => Opcode::Other(number),
        }
    }

    /// Returns whether the PDU is a Data-Out.
    pub fn is_data_out(&self) -> bool
        ensures { result ≡ (opcode_number self.now == 0x05) }
    {
        self.bytes[0] & OPCODE == DATA_OUT
    }

    /// Returns the I bit: whether the request is for immediate delivery.
    pub fn is_immediate(&self) -> bool
        ensures { result ≡ is_immediate self.now }
    {
        self.bytes[0] & IMMEDIATE == IMMEDIATE
    }

    /// Returns the length in bytes of the additional header segments, which TotalAHSLength counts in words of four.
    pub fn additional_length(&self) -> usize
        ensures { result ≡ additional_length self.now }
    {
        4 * usize::from(self.bytes[4])
    }

    /// Returns DataSegmentLength: the length of the data segment in bytes, without its padding.
    pub fn data_length(&self) -> usize
        ensures { result ≡ data_length self.now }
    {
        BigEndian::read_u24(&self.bytes[5..]) as usize
    }

    /// Returns bytes 8 to 15: the LUN field, or ISID and TSIH in a Login Request.
    pub fn lun(&self) -> [u8; 8]
        ensures { result ≡ lun_field self.now }
    {
        let mut lun = [0; 8];
        lun.copy_from_slice(&self.bytes[8..16]);
        lun
    }

    /// Returns the Initiator Task Tag.
    pub fn initiator_task_tag(&self) -> u32
        ensures { result ≡ initiator_task_tag self.now }
    {
        BigEndian::read_u32(&self.bytes[16..])
    }

    /// Returns CmdSN, which each request except Data-Out and SNACK has.
    pub fn cmd_sn(&self) -> u32
        ensures { result ≡ cmd_sn self.now }
    {
        BigEndian::read_u32(&self.bytes[24..])
    }
}
