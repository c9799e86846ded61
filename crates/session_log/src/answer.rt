//! The answer of the target to which a header belongs, as far as the log needs it (RFC 7143 §11).

ghost use Rattle.std.specs.Prelude.{◌≡◌};
ghost use Rattle.session_log.specs.Answer.{answer_of as answer_in, login_answer, r2t_answer, scsi_answer};

use byteorder::{BigEndian, ByteOrder};
use iscsi_pdu::{HEADER_LENGTH, Header};

/// An answer.
#[derive(Clone, Copy)]
pub(crate) enum Answer {
    /// The last Login Response: the session has this TSIH.
    LoggedIn {
        tsih: u16,
    },
    /// A Login Response after which the login goes on.
    LoginGoesOn,
    /// A Login Response that refuses with this status, class and detail.
    Refused {
        status: u16,
    },
    /// A Logout Response: the connection is closed.
    LoggedOut,
    /// A Task Management Function Response with this response, to the request with this tag.
    Function {
        response: u8,
        tag: u32,
    },
    /// A SCSI Response with the status CHECK CONDITION, to the command with this tag.
    CheckCondition {
        tag: u32,
    },
    /// A SCSI Response with another status, to the command with this tag.
    Ended {
        tag: u32,
    },
    /// An R2T to the command with this tag, with its Target Transfer Tag, Buffer Offset and Desired Data Transfer Length.
    Asked {
        tag: u32,
        transfer_tag: u32,
        offset: u32,
        length: u32,
    },
    /// Any other answer.
    Other,
}

/// Returns what a Login Response says (RFC 7143 §11.13).
fn login_of(header: &[u8; HEADER_LENGTH]) -> Answer
    ensures { result ≡ login_answer header.now }
{
    let status = BigEndian::read_u16(&header[36..]);
    if status != 0 {
        return Answer::Refused { status };
    }
    // T, and the full feature phase as NSG.
    if header[1] & 0x83 == 0x83 {
        let tsih = BigEndian::read_u16(&header[14..]);
        return Answer::LoggedIn { tsih };
    }
    Answer::LoginGoesOn
}

/// Returns what a SCSI Response says (RFC 7143 §11.4).
fn response_of(header: &[u8; HEADER_LENGTH]) -> Answer
    ensures { result ≡ scsi_answer header.now }
{
    let tag = BigEndian::read_u32(&header[16..]);
    if header[3] == 0x02 {
        return Answer::CheckCondition { tag };
    }
    Answer::Ended { tag }
}

/// Returns what an R2T says (RFC 7143 §11.8). Its tags and its Buffer Offset are in the places of those of a Data-Out.
fn ask_of(header: &[u8; HEADER_LENGTH]) -> Answer
    ensures { result ≡ r2t_answer header.now }
{
    let length = BigEndian::read_u32(&header[44..]);
    let header = Header::new(*header);
    Answer::Asked {
        tag: header.initiator_task_tag(),
        transfer_tag: header.target_transfer_tag(),
        offset: header.buffer_offset(),
        length,
    }
}

/// Returns the answer to which a header belongs.
pub(crate) fn answer_of(header: &[u8; HEADER_LENGTH]) -> Answer
    ensures { result ≡ answer_in header.now }
{
    match header[0] {
        0x21 => response_of(header),
        0x22 => Answer::Function {
            response: header[2],
            tag: BigEndian::read_u32(&header[16..]),
        },
        0x23 => login_of(header),
        0x26 if header[2] == 0x00 => Answer::LoggedOut,
        0x31 => ask_of(header),
        _ => Answer::Other,
    }
}
