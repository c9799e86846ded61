//! A piece of the data that a command returns to its initiator (RFC 7143 §11.7).

ghost use Rattle.std.specs.Prelude.{◌≡◌, ◌+◌, ◌≤◌, length};
ghost use Rattle.iscsi_pdu.specs.Header.{header_length};
ghost use Rattle.iscsi_pdu.specs.Segment.{most_data};

use crate::header::{HEADER_LENGTH, RESERVED_TAG};
use crate::segment::padded;
use byteorder::{BigEndian, ByteOrder};
use std::marker::Model;

/// The opcode, byte 0.
const OPCODE: u8 = 0x25;

/// F, bit 7 of byte 1.
const FINAL: u8 = 0x80;

/// A piece of the data that a command returns (RFC 7143 §11.7). It carries no status, so its StatSN is 0, and it asks
/// for no acknowledgement.
#[derive(Drop)]
pub struct DataIn<'a> {
    /// F: this piece is the last of its burst.
    pub is_final: bool,
    /// The Initiator Task Tag of the command.
    pub initiator_task_tag: u32,
    pub exp_cmd_sn: u32,
    pub max_cmd_sn: u32,
    /// DataSN: the number of the piece in the command's data, counted from 0.
    pub data_sn: u32,
    /// Buffer Offset: the place in the command's data where the piece begins, in bytes.
    pub buffer_offset: u32,
    /// The data: at most 262144 bytes.
    pub body: &'a [u8],
}

impl<'a> Model for DataIn<'a> {
    ghost use Rattle.std.specs.Prelude.{◌≤◌, length};
    ghost use Rattle.iscsi_pdu.specs.DataIn.{DataInFields};
    ghost use Rattle.iscsi_pdu.specs.Segment.{most_data};

    ghost Value = { DataInFields };

    ghost view = { λ d. record {
      is_final = d.is_final;
      initiator_task_tag = d.initiator_task_tag;
      exp_cmd_sn = d.exp_cmd_sn;
      max_cmd_sn = d.max_cmd_sn;
      data_sn = d.data_sn;
      buffer_offset = d.buffer_offset;
      body = d.body.now;
    } };

    ghost invariant = { λ d. length d.body.now ≤ most_data };
}

impl<'a> DataIn<'a> {
    ghost use Rattle.iscsi_pdu.specs.DataIn.{data_in_bytes, data_in_header};

    /// Returns the length of the PDU in bytes.
    pub(crate) fn length(&self) -> usize
        ensures value { result ≡ length (data_in_bytes self.now) }
        ensures bound { result ≤ header_length + most_data }
    {
        self.header().len() + padded(self.body.len())
    }

    /// Returns the 48 header bytes.
    pub fn header(&self) -> [u8; HEADER_LENGTH]
        ensures { result ≡ data_in_header self.now }
    {
        let mut header = [0; HEADER_LENGTH];
        header[0] = OPCODE;
        header[1] = if self.is_final { FINAL } else { 0 };
        BigEndian::write_u24(&mut header[5..8], self.body.len() as u32);
        BigEndian::write_u32(&mut header[16..20], self.initiator_task_tag);
        BigEndian::write_u32(&mut header[20..24], RESERVED_TAG);
        BigEndian::write_u32(&mut header[28..32], self.exp_cmd_sn);
        BigEndian::write_u32(&mut header[32..36], self.max_cmd_sn);
        BigEndian::write_u32(&mut header[36..40], self.data_sn);
        BigEndian::write_u32(&mut header[40..44], self.buffer_offset);
        header
    }

    /// Returns the data segment.
    pub(crate) fn segment(&self) -> &[u8]
        ensures value { result.now ≡ self.now.body }
        ensures bound { length result.now ≤ most_data }
    {
        self.body
    }
}
