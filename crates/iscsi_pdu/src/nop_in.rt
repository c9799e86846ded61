//! The answer to a NOP-Out (RFC 7143 §11.19).

ghost use Rattle.std.specs.Prelude.{◌≡◌, ◌+◌, ◌≤◌, length};
ghost use Rattle.iscsi_pdu.specs.Header.{header_length};
ghost use Rattle.iscsi_pdu.specs.Segment.{most_data};

use crate::header::{HEADER_LENGTH, RESERVED_TAG};
use crate::segment::padded;
use crate::stamp::Stamp;
use byteorder::{BigEndian, ByteOrder};
use std::marker::Model;

/// The opcode, byte 0.
const OPCODE: u8 = 0x20;

/// The bit of byte 1 that is always set.
const FINAL: u8 = 0x80;

/// The answer to a NOP-Out (RFC 7143 §11.19). It asks for no answer, so its LUN is 0.
#[derive(Drop)]
pub struct NopIn<'a> {
    /// The Initiator Task Tag of the NOP-Out.
    pub initiator_task_tag: u32,
    pub stamp: Stamp,
    /// The ping data that is returned: at most 262144 bytes.
    pub body: &'a [u8],
}

impl<'a> Model for NopIn<'a> {
    ghost use Rattle.std.specs.Prelude.{◌≤◌, length};
    ghost use Rattle.iscsi_pdu.specs.NopIn.{NopInFields};
    ghost use Rattle.iscsi_pdu.specs.Segment.{most_data};

    ghost Value = { NopInFields };

    ghost view = { λ n. record { initiator_task_tag = n.initiator_task_tag; stamp = n.stamp; body = n.body.now } };

    ghost invariant = { λ n. length n.body.now ≤ most_data };
}

impl<'a> NopIn<'a> {
    ghost use Rattle.iscsi_pdu.specs.NopIn.{nop_in_bytes, nop_in_header};

    /// Returns the length of the PDU in bytes.
    pub(crate) fn length(&self) -> usize
        ensures value { result ≡ length (nop_in_bytes self.now) }
        ensures bound { result ≤ header_length + most_data }
    {
        self.header().len() + padded(self.body.len())
    }

    /// Returns the 48 header bytes.
    pub(crate) fn header(&self) -> [u8; HEADER_LENGTH]
        ensures { result ≡ nop_in_header self.now }
    {
        let mut header = [0; HEADER_LENGTH];
        header[0] = OPCODE;
        header[1] = FINAL;
        BigEndian::write_u24(&mut header[5..8], self.body.len() as u32);
        BigEndian::write_u32(&mut header[16..20], self.initiator_task_tag);
        BigEndian::write_u32(&mut header[20..24], RESERVED_TAG);
        header[24..36].copy_from_slice(&self.stamp.bytes());
        header
    }

    /// Returns the data segment.
    pub(crate) fn segment(&self) -> &[u8]
        ensures value { result.now ≡ self.now.body }
        ensures bound { length result.now ≤ most_data }
    {
        self.body
    }
}
