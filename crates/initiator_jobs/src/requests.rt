//! The headers of an initiator's PDUs (RFC 7143 §11), and command descriptor blocks.

ghost use Rattle.std.specs.Prelude.{◌≤◌};

use byteorder::{BigEndian, ByteOrder};

/// The header of a PDU.
pub type Header = [u8; 48];

/// A command descriptor block.
pub type Cdb = [u8; 16];

/// TEST UNIT READY.
pub const READY: Cdb = [0; 16];

/// The flags F, W and R of a SCSI Command, whose task attribute is SIMPLE.
const NO_DATA: u8 = 0x81;

const WRITES: u8 = 0xa1;

const READS: u8 = 0xc1;

/// The most data that comes with its command.
const IMMEDIATE: usize = 65_536;

/// A SCSI Command.
#[derive(Clone, Copy)]
pub struct Command {
    flags: u8,
    /// The Expected Data Transfer Length.
    expected: usize,
    cdb: Cdb,
}

impl Command {
    /// Returns a command to LUN 0 that takes `expected` bytes from the target.
    pub fn reading(cdb: Cdb, expected: usize) -> Command {
        Command {
            flags: if expected == 0 { NO_DATA } else { READS },
            expected,
            cdb,
        }
    }

    /// Returns a command to LUN 0 that gives `expected` bytes to the target.
    pub fn writing(cdb: Cdb, expected: usize) -> Command {
        Command {
            flags: WRITES,
            expected,
            cdb,
        }
    }

    /// Returns the length of the data that comes with the command.
    pub fn immediate(&self) -> usize {
        if self.flags == WRITES {
            self.expected.min(IMMEDIATE)
        } else {
            0
        }
    }
}

/// Puts a number into four bytes of a header.
fn put(header: &mut Header, at: usize, number: u32)
    requires { at ≤ 44 }
{
    BigEndian::write_u32(&mut header[at..at + 4], number);
}

/// Returns a header with an opcode, flags, a tag and DataSegmentLength.
fn begun(opcode: u8, flags: u8, tag: u32, data: usize) -> Header {
    let mut header = [0; 48];
    header[0] = opcode;
    header[1] = flags;
    header[5] = (data >> 16 & 0xff) as u8;
    header[6] = (data >> 8 & 0xff) as u8;
    header[7] = (data & 0xff) as u8;
    put(&mut header, 16, tag);
    header
}

/// Returns a SCSI Command with `data` bytes of immediate data.
pub fn scsi_command(command: &Command, tag: u32, cmd_sn: u32, data: usize) -> Header {
    let mut header = begun(0x01, command.flags, tag, data);
    put(&mut header, 20, (command.expected & 0xffff_ffff) as u32);
    put(&mut header, 24, cmd_sn);
    header[32..48].copy_from_slice(&command.cdb);
    header
}

/// Returns a SCSI Data-Out with `data` bytes of data.
pub fn data_out(
    tag: u32,
    transfer: u32,
    data_sn: u32,
    offset: u32,
    data: usize,
    last: bool,
) -> Header {
    let mut header = begun(0x05, if last { 0x80 } else { 0 }, tag, data);
    put(&mut header, 20, transfer);
    put(&mut header, 36, data_sn);
    put(&mut header, 40, offset);
    header
}

/// Returns a Login Request from operational negotiation to full feature phase.
pub fn login(isid: u16, cmd_sn: u32, data: usize) -> Header {
    let mut header = begun(0x43, 0x87, 0, data);
    header[8] = 0x80;
    header[12..14].copy_from_slice(&isid.to_be_bytes());
    put(&mut header, 24, cmd_sn);
    header
}

/// Returns a Text Request with `data` bytes of text.
pub fn text(flags: u8, tag: u32, transfer: u32, cmd_sn: u32, data: usize) -> Header {
    let mut header = begun(0x04, flags, tag, data);
    put(&mut header, 20, transfer);
    put(&mut header, 24, cmd_sn);
    header
}

/// Returns a Logout Request that closes the session.
pub fn logout(tag: u32, cmd_sn: u32) -> Header {
    let mut header = begun(0x06, 0x80, tag, 0);
    put(&mut header, 24, cmd_sn);
    header
}

/// Returns a NOP-Out with `data` bytes of data, which come back.
pub fn ping(tag: u32, cmd_sn: u32, data: usize) -> Header {
    let mut header = begun(0x00, 0x80, tag, data);
    put(&mut header, 20, 0xffff_ffff);
    put(&mut header, 24, cmd_sn);
    header
}

/// Returns an ABORT TASK, for immediate delivery.
pub fn abort_task(tag: u32, aborted: u32, aborted_sn: u32, cmd_sn: u32) -> Header {
    let mut header = begun(0x42, 0x81, tag, 0);
    put(&mut header, 20, aborted);
    put(&mut header, 24, cmd_sn);
    put(&mut header, 32, aborted_sn);
    header
}

/// Returns a block of six bytes: its operation code, byte 1, and bytes 2 to 4 as one number.
pub fn cdb_6(code: u8, flags: u8, number: usize) -> Cdb {
    let mut cdb = [0; 16];
    cdb[0] = code;
    cdb[1] = flags;
    BigEndian::write_u24(&mut cdb[2..5], (number & 0xff_ffff) as u32);
    cdb
}

/// Returns a block of ten bytes: its operation code, byte 1, a number in bytes 2 to 5, and one in bytes 7 and 8.
pub fn cdb_10(code: u8, flags: u8, at: usize, count: usize) -> Cdb {
    let mut cdb = [0; 16];
    cdb[0] = code;
    cdb[1] = flags;
    BigEndian::write_u32(&mut cdb[2..6], (at & 0xffff_ffff) as u32);
    BigEndian::write_u16(&mut cdb[7..9], (count & 0xffff) as u16);
    cdb
}

/// Returns a block of sixteen bytes: its operation code, byte 1, a number in bytes 2 to 9, and one in bytes 10 to 13.
pub fn cdb_16(code: u8, flags: u8, at: usize, count: usize) -> Cdb {
    let mut cdb = [0; 16];
    cdb[0] = code;
    cdb[1] = flags;
    cdb[2..10].copy_from_slice(&(at as u64).to_be_bytes());
    BigEndian::write_u32(&mut cdb[10..14], (count & 0xffff_ffff) as u32);
    cdb
}

/// Returns a LOCATE (10) to an item of a tape.
pub fn cdb_locate(at: usize) -> Cdb {
    let mut cdb = [0; 16];
    cdb[0] = 0x2b;
    BigEndian::write_u32(&mut cdb[3..7], (at & 0xffff_ffff) as u32);
    cdb
}

/// Returns a READ (10) or a WRITE (10) of at most 2,048 blocks.
pub fn transfer(writes: bool, at: usize, blocks: usize) -> Command {
    let length = 512 * blocks.min(2_048);
    if writes {
        Command::writing(cdb_10(0x2a, 0, at, blocks), length)
    } else {
        Command::reading(cdb_10(0x28, 0, at, blocks), length)
    }
}
