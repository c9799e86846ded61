//! The fields that the first request of a login sets.

ghost use Rattle.std.specs.Prelude.{◌≡◌};
ghost use Rattle.iscsi_login.specs.LoginState.{opening_of};

use iscsi_pdu::Header;

/// The fields that the first request sets (RFC 7143 §11.12.5 to §11.12.8).
#[derive(Clone, Copy)]
pub struct Opening {
    pub isid: [u8; 6],
    pub tsih: u16,
    /// CID
    pub connection_id: u16,
    /// CmdSN
    pub cmd_sn: u32,
}

impl Opening {
    /// Returns what this request would set.
    pub(crate) fn of(header: &Header) -> Opening
        ensures { result ≡ opening_of header.now }
    {
        Opening {
            isid: header.isid(),
            tsih: header.tsih(),
            connection_id: header.connection_id(),
            cmd_sn: header.cmd_sn(),
        }
    }
}
