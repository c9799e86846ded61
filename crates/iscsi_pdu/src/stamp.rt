//! The sequence numbers of an answer.

ghost use Rattle.std.specs.Prelude.{◌≡◌};

use byteorder::{BigEndian, ByteOrder};

/// The sequence numbers of an answer, bytes 24 to 35 of its header (RFC 7143 §4.2.2.1 and
/// §4.2.2.2).
#[derive(Clone, Copy)]
pub struct Stamp {
    /// StatSN, the number of this answer.
    pub stat_sn: u32,
    /// ExpCmdSN, the next command number that is expected.
    pub exp_cmd_sn: u32,
    /// MaxCmdSN, the last command number that is accepted.
    pub max_cmd_sn: u32,
}

impl Stamp {
    ghost use Rattle.iscsi_pdu.specs.Stamp.{stamp_bytes};

    /// Returns bytes 24 to 35.
    pub(crate) fn bytes(self) -> [u8; 12]
        ensures { result ≡ stamp_bytes self }
    {
        let mut bytes = [0; 12];
        BigEndian::write_u32(&mut bytes[0..4], self.stat_sn);
        BigEndian::write_u32(&mut bytes[4..8], self.exp_cmd_sn);
        BigEndian::write_u32(&mut bytes[8..12], self.max_cmd_sn);
        bytes
    }
}
