//! The answer to a Login Request (RFC 7143 §11.13).

ghost use Rattle.std.specs.Prelude.{◌≡◌, ◌+◌, ◌≤◌, length, replicate};

use crate::header::HEADER_LENGTH;
use crate::login_request::{CONTINUED, TRANSIT};
use crate::segment::padded;
use crate::stage::Stage;
use crate::stamp::Stamp;
use byteorder::{BigEndian, ByteOrder};
use std::marker::Model;

/// The opcode, byte 0.
const OPCODE: u8 = 0x23;

/// The answer to a Login Request. Both versions are 0.
#[derive(Drop)]
pub struct LoginResponse {
    /// ISID of the request.
    pub isid: [u8; 6],
    /// TSIH, the target's part of the session identifier.
    pub tsih: u16,
    /// The Initiator Task Tag of the request.
    pub initiator_task_tag: u32,
    pub stamp: Stamp,
    pub reply: LoginReply,
}

/// Whether the login goes on.
#[derive(Drop)]
pub enum LoginReply {
    /// No stage and no text is sent. The connection ends.
    Refused(LoginRefusal),
    Accepted(LoginAccepted),
}

/// The reason why a login is refused: status class and detail of RFC 7143 §11.13.5.
#[derive(Clone, Copy)]
pub enum LoginRefusal {
    /// 0200h
    InitiatorError = 0x0200,
    /// 0203h
    TargetNotFound = 0x0203,
    /// 0205h
    UnsupportedVersion = 0x0205,
    /// 0206h
    TooManyConnections = 0x0206,
    /// 0207h
    MissingParameter = 0x0207,
    /// 020Ah
    SessionDoesNotExist = 0x020A,
}

/// The login goes on: status 0000h.
#[derive(Drop)]
pub struct LoginAccepted {
    /// CSG, the stage that the login is in.
    pub stage: Stage,
    pub step: LoginStep,
    /// Pairs `key=value`, each ended by a zero byte: at most 262144 bytes.
    pub text: Vec<u8>,
}

/// The step of the login from its stage.
#[derive(Clone, Copy)]
pub enum LoginStep {
    /// C: the text continues in the next response.
    Continued,
    /// The login stays in its stage.
    Stays,
    /// T: the login enters this stage, NSG.
    Enters(Stage),
}

impl Model for LoginAccepted {
    ghost use Rattle.std.specs.Prelude.{◌≤◌, length};
    ghost use Rattle.iscsi_pdu.specs.AcceptedLogin.{AcceptedLogin};
    ghost use Rattle.iscsi_pdu.specs.Segment.{most_data};

    ghost Value = { AcceptedLogin };

    ghost view = { λ a. record { stage = a.stage; step = a.step; text = a.text.items } };

    ghost invariant = { λ a. length a.text.items ≤ most_data };
}

impl LoginRefusal {
    ghost use Rattle.iscsi_pdu.specs.LoginResponse.{refusal_code};

    /// Returns the status class in the high byte and the status detail in the low one.
    pub fn code(self) -> u16
        ensures { result ≡ refusal_code self }
    {
        self as u16
    }
}

impl LoginStep {
    ghost use Rattle.iscsi_pdu.specs.LoginResponse.{step_flags};

    /// Returns T, C and NSG of byte 1.
    fn flags(self) -> u8
        ensures { result ≡ step_flags self }
    {
        match self {
            LoginStep::Continued => CONTINUED,
            LoginStep::Stays => 0,
            LoginStep::Enters(next) => TRANSIT + next.number(),
        }
    }
}

impl LoginReply {
    ghost use Rattle.iscsi_pdu.specs.Segment.{most_data};
    ghost use Rattle.iscsi_pdu.specs.LoginResponse.{login_flags, login_status, login_text};

    /// Returns byte 1: T, C, CSG and NSG.
    fn flags(&self) -> u8
        ensures { result ≡ login_flags self.now }
    {
        match self {
            LoginReply::Refused(_) => 0,
            LoginReply::Accepted(accepted) => accepted.step.flags() + 4 * accepted.stage.number(),
        }
    }

    /// Returns Status-Class and Status-Detail.
    fn status(&self) -> u16
        ensures { result ≡ login_status self.now }
    {
        match self {
            LoginReply::Refused(refusal) => refusal.code(),
            LoginReply::Accepted(_) => 0x0000,
        }
    }

    /// Returns the data segment.
    pub(crate) fn text(&self) -> &[u8]
        ensures value { result.now ≡ login_text self.now }
        ensures bound { length result.now ≤ most_data }
    {
        match self {
            LoginReply::Refused(_) => &[],
            LoginReply::Accepted(accepted) => accepted.text.as_slice(),
        }
    }
}

impl LoginResponse {
    ghost use Rattle.iscsi_pdu.specs.Header.{header_length};
    ghost use Rattle.iscsi_pdu.specs.Segment.{most_data};
    ghost use Rattle.iscsi_pdu.specs.LoginResponse.{login_response_bytes, login_response_header};

    /// Returns the length of the response in bytes.
    pub(crate) fn length(&self) -> usize
        ensures value { result ≡ length (login_response_bytes self.now) }
        ensures bound { result ≤ header_length + most_data }
    {
        self.header().len() + padded(self.reply.text().len())
    }

    /// Returns the 48 header bytes.
    pub(crate) fn header(&self) -> [u8; HEADER_LENGTH]
        ensures { result ≡ login_response_header self.now }
    {
        let mut header = self.header_without_isid();
        header[8..14].copy_from_slice(&self.isid);
        header
    }

    /// Returns the 48 header bytes with zeros for the ISID.
    fn header_without_isid(&self) -> [u8; HEADER_LENGTH]
        ensures { result ≡ login_response_header (record self.now { isid = replicate 6 0 }) }
    {
        let mut header = [0; HEADER_LENGTH];
        header[0] = OPCODE;
        header[1] = self.reply.flags();
        BigEndian::write_u24(&mut header[5..8], self.reply.text().len() as u32);
        BigEndian::write_u16(&mut header[14..16], self.tsih);
        BigEndian::write_u32(&mut header[16..20], self.initiator_task_tag);
        header[24..36].copy_from_slice(&self.stamp.bytes());
        BigEndian::write_u16(&mut header[36..38], self.reply.status());
        header
    }
}
