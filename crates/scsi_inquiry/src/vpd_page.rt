//! The vital product data pages that exist.

ghost use Rattle.std.specs.Prelude.{◌≡◌};
ghost use Rattle.scsi_inquiry.specs.ProductData.{page_of, page_code};

use scsi_cdb::Kind;

/// A vital product data page (SPC-4 "Vital product data parameters").
#[derive(Clone, Copy)]
pub enum VpdPage {
    /// 00h
    SupportedPages = 0x00,
    /// 80h
    UnitSerialNumber = 0x80,
    /// 83h
    DeviceIdentification = 0x83,
    /// B0h (SBC-3 "Block Limits VPD page")
    BlockLimits = 0xb0,
    /// B1h (SBC-3 "Block Device Characteristics VPD page")
    BlockDeviceCharacteristics = 0xb1,
}

impl VpdPage {
    /// Returns the page of this code, if a unit of this kind has it.
    pub fn of(code: u8, kind: Kind) -> Option<VpdPage>
        ensures { result ≡ page_of code kind }
    {
        match (code, kind) {
            (0x00, _) => Some(VpdPage::SupportedPages),
            (0x80, _) => Some(VpdPage::UnitSerialNumber),
            (0x83, _) => Some(VpdPage::DeviceIdentification),
            (0xb0, Kind::Disk) => Some(VpdPage::BlockLimits),
            (0xb1, Kind::Disk) => Some(VpdPage::BlockDeviceCharacteristics),
            _ => None,
        }
    }

    /// Returns its page code.
    pub fn code(self) -> u8
        ensures { result ≡ page_code self }
    {
        self as u8
    }
}
