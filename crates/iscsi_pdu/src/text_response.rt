//! The answer to a Text Request (RFC 7143 §11.11).

ghost use Rattle.std.specs.Prelude.{◌≡◌, ◌+◌, ◌≤◌, length};
ghost use Rattle.iscsi_pdu.specs.Header.{header_length};
ghost use Rattle.iscsi_pdu.specs.Segment.{most_data};

use crate::header::{HEADER_LENGTH, RESERVED_TAG};
use crate::login_request::CONTINUED;
use crate::segment::padded;
use crate::stamp::Stamp;
use byteorder::{BigEndian, ByteOrder};
use std::marker::Model;

/// The opcode, byte 0.
const OPCODE: u8 = 0x24;

/// F, in byte 1.
const FINAL: u8 = 0x80;

/// The Target Transfer Tag of an exchange that goes on. A connection has one exchange at a time, so one tag is enough
/// (RFC 7143 §11.11.4).
pub const EXCHANGE_TAG: u32 = 0xffff_fffe;

/// Whether the exchange of texts goes on after an answer (RFC 7143 §11.11.1, §11.11.2).
#[derive(Clone, Copy)]
pub enum TextStep {
    /// C: the answer's text continues in the next answer, which the initiator asks for by an empty request.
    Continued,
    /// Neither F nor C: the answer is whole, and the initiator may send more.
    GoesOn,
    /// F: the exchange is over.
    Ends,
}

/// The answer to a Text Request (RFC 7143 §11.11). Its LUN is 0.
#[derive(Drop)]
pub struct TextResponse<'a> {
    /// The Initiator Task Tag of the request.
    pub initiator_task_tag: u32,
    pub stamp: Stamp,
    pub step: TextStep,
    /// A piece of the text of pairs `key=value`, each ended by a zero byte: at most 262144 bytes.
    pub text: &'a [u8],
}

impl<'a> Model for TextResponse<'a> {
    ghost use Rattle.std.specs.Prelude.{◌≤◌, length};
    ghost use Rattle.iscsi_pdu.specs.TextResponse.{TextResponseFields};
    ghost use Rattle.iscsi_pdu.specs.Segment.{most_data};

    ghost Value = { TextResponseFields };

    ghost view = { λ r. record { initiator_task_tag = r.initiator_task_tag; stamp = r.stamp; step = r.step; text = r.text.now } };

    ghost invariant = { λ r. length r.text.now ≤ most_data };
}

impl TextStep {
    ghost use Rattle.iscsi_pdu.specs.TextResponse.{text_flags, exchange_tag};

    /// Returns byte 1: F and C.
    fn flags(self) -> u8
        ensures { result ≡ text_flags self }
    {
        match self {
            TextStep::Continued => CONTINUED,
            TextStep::GoesOn => 0,
            TextStep::Ends => FINAL,
        }
    }

    /// Returns the Target Transfer Tag.
    fn tag(self) -> u32
        ensures { result ≡ exchange_tag self }
    {
        match self {
            TextStep::Continued | TextStep::GoesOn => EXCHANGE_TAG,
            TextStep::Ends => RESERVED_TAG,
        }
    }
}

impl<'a> TextResponse<'a> {
    ghost use Rattle.iscsi_pdu.specs.TextResponse.{text_response_bytes, text_response_header};

    /// Returns the length of the PDU in bytes.
    pub(crate) fn length(&self) -> usize
        ensures value { result ≡ length (text_response_bytes self.now) }
        ensures bound { result ≤ header_length + most_data }
    {
        self.header().len() + padded(self.text.len())
    }

    /// Returns the 48 header bytes.
    pub(crate) fn header(&self) -> [u8; HEADER_LENGTH]
        ensures { result ≡ text_response_header self.now }
    {
        let mut header = [0; HEADER_LENGTH];
        header[0] = OPCODE;
        header[1] = self.step.flags();
        BigEndian::write_u24(&mut header[5..8], self.text.len() as u32);
        BigEndian::write_u32(&mut header[16..20], self.initiator_task_tag);
        BigEndian::write_u32(&mut header[20..24], self.step.tag());
        header[24..36].copy_from_slice(&self.stamp.bytes());
        header
    }

    /// Returns the data segment.
    pub(crate) fn segment(&self) -> &[u8]
        ensures value { result.now ≡ self.now.text }
        ensures bound { length result.now ≤ most_data }
    {
        self.text
    }
}
