//! The bytes of the vital product data pages (`specs/ProductData.antt`).

ghost use Rattle.std.specs.Prelude.{◌≡◌, ◌≤◌, length};
ghost use Rattle.scsi_inquiry.specs.ProductData.{most_serial, designator, block_limits as limits, page_parameters, page_data};

use crate::peripheral::Peripheral;
use crate::put::put;
use crate::vpd_page::VpdPage;
use arrayvec::ArrayVec;
use scsi_cdb::{Kind, MOST_BLOCKS, MOST_COMPARED, MOST_SAME};

/// The codes of a disk's pages, rising.
const DISK_PAGES: [u8; 5] = [0x00, 0x80, 0x83, 0xb0, 0xb1];

/// The codes of a tape's pages, rising.
const TAPE_PAGES: [u8; 3] = [0x00, 0x80, 0x83];

/// T10 vendor identification.
const VENDOR: [u8; 8] = *b"ISCSIPRJ";

/// WSNZ: a WRITE SAME of no block is refused.
const WRITE_SAME_NONZERO: u8 = 0x01;

/// Returns a designator of the logical unit from vendor and serial number, in ASCII (2h), of the type T10 vendor ID
/// based (1h) (SPC-4 "Device Identification VPD page").
fn identification(serial: &[u8]) -> ArrayVec<u8, 64>
    requires { length serial.now ≤ most_serial }
    ensures value { result.items ≡ designator serial.now }
{
    let mut data = ArrayVec::new();
    put(
        &mut data,
        &[0x02, 0x01, 0, (VENDOR.len() + serial.len()) as u8],
    );
    put(&mut data, &VENDOR);
    put(&mut data, serial);
    data
}

/// Returns the limits of commands (SBC-3 "Block Limits VPD page").
fn block_limits() -> ArrayVec<u8, 64>
    ensures { result.items ≡ Rattle.scsi_inquiry.specs.ProductData.block_limits }
{
    let mut data = ArrayVec::new();
    put(&mut data, &[WRITE_SAME_NONZERO, MOST_COMPARED as u8, 0, 0]);
    put(&mut data, &MOST_BLOCKS.to_be_bytes());
    put(&mut data, &[0; 24]);
    put(&mut data, &u64::from(MOST_SAME).to_be_bytes());
    put(&mut data, &[0; 20]);
    data
}

/// Returns these bytes alone.
fn alone(bytes: &[u8]) -> ArrayVec<u8, 64>
    requires { length bytes.now ≤ 64 }
    ensures { result.items ≡ bytes.now }
{
    let mut data = ArrayVec::new();
    put(&mut data, bytes);
    data
}

/// Returns what comes after the first four bytes of a page, at most 64 bytes.
fn parameters(kind: Kind, serial: &[u8], page: VpdPage) -> ArrayVec<u8, 64>
    requires { length serial.now ≤ most_serial }
    ensures data { result.items ≡ page_parameters kind serial.now page }
    ensures short { length result.items ≤ 64 }
{
    match (page, kind) {
        (VpdPage::SupportedPages, Kind::Disk) => alone(&DISK_PAGES),
        (VpdPage::SupportedPages, Kind::Tape) => alone(&TAPE_PAGES),
        (VpdPage::UnitSerialNumber, _) => alone(serial),
        (VpdPage::DeviceIdentification, _) => identification(serial),
        (VpdPage::BlockLimits, _) => block_limits(),
        (VpdPage::BlockDeviceCharacteristics, _) => alone(&[0; 60]),
    }
}

/// Returns a vital product data page of a unit of this kind and with this serial number (SPC-4 "Vital product data page
/// format"). It allocates nothing.
pub fn page(kind: Kind, serial: &[u8], page: VpdPage) -> ArrayVec<u8, 68>
    requires { length serial.now ≤ most_serial }
    ensures page { result.items ≡ page_data kind serial.now page }
    ensures short { length result.items ≤ 68 }
{
    let parameters = parameters(kind, serial, page);
    let mut data = ArrayVec::new();
    put(&mut data, &[Peripheral::Unit(kind).byte(), page.code()]);
    put(&mut data, &(parameters.len() as u16).to_be_bytes());
    put(&mut data, parameters.as_slice());
    data
}
