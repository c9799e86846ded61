//! The answer to a Logout Request (RFC 7143 §11.15).

ghost use Rattle.std.specs.Prelude.{◌≡◌, ◌+◌, ◌≤◌, length};
ghost use Rattle.iscsi_pdu.specs.Header.{header_length};
ghost use Rattle.iscsi_pdu.specs.Segment.{most_data};

use crate::header::HEADER_LENGTH;
use crate::result_header::result_header;
use crate::stamp::Stamp;

/// The opcode, byte 0.
const OPCODE: u8 = 0x26;

/// The result of a logout (RFC 7143 §11.15.1).
#[derive(Clone, Copy)]
pub enum LogoutResult {
    /// 0: the connection or the session is closed.
    Closed = 0,
    /// 1: the session has no connection with this CID.
    CidNotFound = 1,
    /// 2: connection recovery is not supported.
    NoRecovery = 2,
}

/// The answer to a Logout Request (RFC 7143 §11.15). Time2Wait and Time2Retain are 0.
#[derive(Clone, Copy)]
pub struct LogoutResponse {
    /// The Initiator Task Tag of the request.
    pub initiator_task_tag: u32,
    pub stamp: Stamp,
    pub response: LogoutResult,
}

impl LogoutResult {
    ghost use Rattle.iscsi_pdu.specs.LogoutResponse.{logout_code};

    /// Returns byte 2.
    fn code(self) -> u8
        ensures { result ≡ logout_code self }
    {
        self as u8
    }
}

impl LogoutResponse {
    ghost use Rattle.iscsi_pdu.specs.LogoutResponse.{logout_response_bytes, logout_response_header};

    /// Returns the length of the response in bytes.
    pub(crate) fn length(&self) -> usize
        ensures value { result ≡ length (logout_response_bytes self.now) }
        ensures bound { result ≤ header_length + most_data }
    {
        self.header().len()
    }

    /// Returns the 48 header bytes.
    pub(crate) fn header(&self) -> [u8; HEADER_LENGTH]
        ensures { result ≡ logout_response_header self.now }
    {
        let code = self.response.code();
        result_header(OPCODE, code, self.initiator_task_tag, self.stamp)
    }
}
