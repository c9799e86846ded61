//! What a LUN names.

ghost use Rattle.std.specs.Prelude.{◌≡◌};
ghost use Rattle.scsi_inquiry.specs.StandardData.{peripheral_byte};

use scsi_cdb::Kind;

/// What a LUN names, which byte 0 of INQUIRY data reports (SPC-4 "Standard INQUIRY data").
#[derive(Clone, Copy)]
pub enum Peripheral {
    /// A logical unit of this kind.
    Unit(Kind),
    /// No logical unit, and there can be none.
    NoUnit,
}

impl Peripheral {
    /// Returns the peripheral qualifier and the peripheral device type.
    pub fn byte(self) -> u8
        ensures { result ≡ peripheral_byte self }
    {
        match self {
            Peripheral::Unit(Kind::Disk) => 0x00,
            Peripheral::Unit(Kind::Tape) => 0x01,
            Peripheral::NoUnit => 0x7f,
        }
    }
}
