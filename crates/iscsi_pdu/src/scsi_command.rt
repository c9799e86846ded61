//! The fields of a SCSI Command (RFC 7143 §11.3).

ghost use Rattle.std.specs.Prelude.{◌≡◌};

use crate::header::Header;
use byteorder::{BigEndian, ByteOrder};

/// F, R and W, in byte 1.
const FINAL: u8 = 0x80;

const READ: u8 = 0x40;

const WRITE: u8 = 0x20;

impl Header {
    ghost use Rattle.iscsi_pdu.specs.ScsiCommand.{is_final, is_read, is_write, expected_transfer_length, cdb};

    /// Returns the F bit: whether no unsolicited Data-Out follows.
    pub fn is_final(&self) -> bool
        ensures { result ≡ is_final self.now }
    {
        self.bytes[1] & FINAL == FINAL
    }

    /// Returns the R bit: whether the command is expected to return data.
    pub fn is_read(&self) -> bool
        ensures { result ≡ is_read self.now }
    {
        self.bytes[1] & READ == READ
    }

    /// Returns the W bit: whether the command is expected to take data.
    pub fn is_write(&self) -> bool
        ensures { result ≡ is_write self.now }
    {
        self.bytes[1] & WRITE == WRITE
    }

    /// Returns Expected Data Transfer Length, in bytes.
    pub fn expected_transfer_length(&self) -> u32
        ensures { result ≡ expected_transfer_length self.now }
    {
        BigEndian::read_u32(&self.bytes[20..])
    }

    /// Returns the command descriptor block: bytes 32 to 47.
    pub fn cdb(&self) -> [u8; 16]
        ensures { result ≡ cdb self.now }
    {
        let mut cdb = [0; 16];
        cdb.copy_from_slice(&self.bytes[32..]);
        cdb
    }
}
