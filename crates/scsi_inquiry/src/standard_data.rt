//! Standard INQUIRY data.

ghost use Rattle.std.specs.Prelude.{◌≡◌};
ghost use Rattle.scsi_inquiry.specs.StandardData.{standard_data};

use crate::peripheral::Peripheral;
use scsi_cdb::Kind;

/// A disk. After the first two bytes: version SPC-4, response data format 2, 31 bytes follow, and commands are queued;
/// then vendor, product and revision.
const DISK: [u8; 36] = *b"\x00\x00\x06\x02\x1f\0\0\x02ISCSIPRJVIRTUAL DISK    0001";

/// A tape, whose medium is removable.
const TAPE: [u8; 36] = *b"\x01\x80\x06\x02\x1f\0\0\x02ISCSIPRJVIRTUAL TAPE    0001";

/// No unit.
const NO_UNIT: [u8; 36] = *b"\x7f\x00\x06\x02\x1f\0\0\x02ISCSIPRJVIRTUAL DISK    0001";

/// Returns standard INQUIRY data (SPC-4 "Standard INQUIRY data").
pub fn standard(peripheral: Peripheral) -> [u8; 36]
    ensures { result ≡ standard_data peripheral }
{
    match peripheral {
        Peripheral::Unit(Kind::Disk) => DISK,
        Peripheral::Unit(Kind::Tape) => TAPE,
        Peripheral::NoUnit => NO_UNIT,
    }
}
