//! The fields of a Login Request (RFC 7143 §11.12).

ghost use Rattle.std.specs.Prelude.{◌≡◌};

use crate::header::Header;
use crate::stage::Stage;
use byteorder::{BigEndian, ByteOrder};

/// T, in byte 1 of a Login Request and of a Login Response.
pub const TRANSIT: u8 = 0x80;

/// C, in byte 1 of a Login Request and of a Login Response.
pub const CONTINUED: u8 = 0x40;

impl Header {
    ghost use Rattle.iscsi_pdu.specs.LoginRequest.{is_transit, is_continued, current_stage, next_stage, version_min, isid, tsih, connection_id};

    /// Returns the T bit: whether the initiator is ready for the next stage.
    pub fn is_transit(&self) -> bool
        ensures { result ≡ is_transit self.now }
    {
        self.bytes[1] & TRANSIT == TRANSIT
    }

    /// Returns the C bit: whether the text continues in the next request.
    pub fn is_continued(&self) -> bool
        ensures { result ≡ is_continued self.now }
    {
        self.bytes[1] & CONTINUED == CONTINUED
    }

    /// Returns CSG, the stage that the login is in, or `None` for the reserved number 2.
    pub fn current_stage(&self) -> Option<Stage>
        ensures { result ≡ current_stage self.now }
    {
        Stage::of_number(self.bytes[1] / 4 % 4)
    }

    /// Returns NSG, the stage that the initiator wants next, or `None` for the reserved number 2. It has a meaning
    /// only with T.
    pub fn next_stage(&self) -> Option<Stage>
        ensures { result ≡ next_stage self.now }
    {
        Stage::of_number(self.bytes[1] % 4)
    }

    /// Returns Version-min: the lowest version that the initiator supports.
    pub fn version_min(&self) -> u8
        ensures { result ≡ version_min self.now }
    {
        self.bytes[3]
    }

    /// Returns ISID, the initiator's part of the session identifier.
    pub fn isid(&self) -> [u8; 6]
        ensures { result ≡ isid self.now }
    {
        let mut isid = [0; 6];
        isid.copy_from_slice(&self.bytes[8..14]);
        isid
    }

    /// Returns TSIH, the target's part of the session identifier: 0 for a new session.
    pub fn tsih(&self) -> u16
        ensures { result ≡ tsih self.now }
    {
        BigEndian::read_u16(&self.bytes[14..])
    }

    /// Returns CID, the initiator's number of the connection in the session. Login and Logout Requests have it.
    pub fn connection_id(&self) -> u16
        ensures { result ≡ connection_id self.now }
    {
        BigEndian::read_u16(&self.bytes[20..])
    }
}
