//! The fields of a Logout Request (RFC 7143 §11.14).

ghost use Rattle.std.specs.Prelude.{◌≡◌};

use crate::header::Header;

/// The reason code, in byte 1.
const REASON: u8 = 0x7F;

impl Header {
    ghost use Rattle.iscsi_pdu.specs.LogoutRequest.{logout_reason};

    /// Returns the reason code: 0 closes the session, 1 closes the connection that CID names, 2 removes that
    /// connection for recovery.
    pub fn logout_reason(&self) -> u8
        ensures { result ≡ logout_reason self.now }
    {
        self.bytes[1] & REASON
    }
}
