//! A command in words: its operation, and the blocks that it names (SPC-4, SBC-3, SSC-4).

use byteorder::{BigEndian, ByteOrder};
use std::alloc::AllocError;

/// The bytes of a CDB in a SCSI Command (RFC 7143 §11.3).
pub(crate) const CDB: usize = 16;

/// Returns the name of an operation of a disk or a tape that reads or writes.
fn name(operation: u8) -> Option<&'static str> {
    match operation {
        0x01 => Some("REWIND"),
        0x08 => Some("READ (6)"),
        0x0A => Some("WRITE (6)"),
        0x10 => Some("WRITE FILEMARKS (6)"),
        0x11 => Some("SPACE (6)"),
        0x13 => Some("VERIFY (6)"),
        0x19 => Some("ERASE (6)"),
        0x28 => Some("READ (10)"),
        0x2A => Some("WRITE (10)"),
        0x2B => Some("LOCATE (10)"),
        0x2E => Some("WRITE AND VERIFY (10)"),
        0x2F => Some("VERIFY (10)"),
        0x35 => Some("SYNCHRONIZE CACHE (10)"),
        0x41 => Some("WRITE SAME (10)"),
        0x88 => Some("READ (16)"),
        0x8A => Some("WRITE (16)"),
        0x8E => Some("WRITE AND VERIFY (16)"),
        0x8F => Some("VERIFY (16)"),
        0x91 => Some("SYNCHRONIZE CACHE (16)"),
        0x92 => Some("LOCATE (16)"),
        0x93 => Some("WRITE SAME (16)"),
        0xA8 => Some("READ (12)"),
        0xAA => Some("WRITE (12)"),
        _ => None,
    }
}

/// Returns the first block and the number of blocks of a CDB of 10, 12 or 16 bytes. Those of 6 bytes have either
/// blocks or bytes in one place, by the kind of the unit, and LOCATE has no number.
fn blocks(cdb: &[u8; CDB]) -> Option<(u64, u32)> {
    match cdb[0] {
        0x2B | 0x92 => None,
        0x28..=0x41 => Some((
            u64::from(BigEndian::read_u32(&cdb[2..])),
            u32::from(BigEndian::read_u16(&cdb[7..])),
        )),
        0x88..=0x93 => Some((
            BigEndian::read_u64(&cdb[2..]),
            BigEndian::read_u32(&cdb[10..]),
        )),
        0xA8 | 0xAA => Some((
            u64::from(BigEndian::read_u32(&cdb[2..])),
            BigEndian::read_u32(&cdb[6..]),
        )),
        _ => None,
    }
}

/// Appends a command by its CDB, as `WRITE (10) of 8 blocks from 16`.
pub(crate) fn put_operation(line: &mut String, cdb: &[u8; CDB]) -> Result<(), AllocError> {
    match name(cdb[0]) {
        Some(name) => line.push_str(name)?,
        None => write!(line, "operation {:02X}h", cdb[0])?,
    }
    if let Some((first, count)) = blocks(cdb) {
        write!(line, " of {count} blocks from {first}")?;
    }
    Ok(())
}
