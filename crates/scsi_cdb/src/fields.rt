//! The fields of command descriptor blocks.

ghost use Rattle.std.specs.Prelude.{◌≡◌, slice_index};
ghost use Rattle.scsi_cdb.specs.Command.{fields_of, unit_fields, disk_fields, inquiry_of, mode_select_of, control_of, mode_sense_of};
ghost use Rattle.scsi_cdb.specs.Taken.{command_if};
ghost use Rattle.scsi_cdb.specs.Command.{range_10 as range_of_10, range_16 as range_of_16, range_compared, is_without_protection};
ghost use Rattle.scsi_cdb.specs.Command.{forces_access as forces_unit_access, read_of, write_of, verify_of, write_same_of, compare_and_write_of};

use crate::block_range::{AnyRange, BlockRange, ComparedRange, SameRange};
use crate::command::{Command, DiskCommand, UnitCommand};
use crate::fault::FieldFault;
use crate::mode::{ModeSelectFields, ModeSenseFields, PageControl, ParameterHeader};
use crate::operation::{DiskOperation, Operation, UnitOperation};
use crate::persistent_reserve::{ReserveInFields, ReserveOutFields};
use crate::report_luns::ReportLunsFields;
use byteorder::{BigEndian, ByteOrder};

/// DESC of REQUEST SENSE, EVPD of INQUIRY and SP of MODE SELECT, in byte 1.
const LOWEST_BIT: u8 = 0x01;

/// DBD of MODE SENSE, in byte 1.
const WITHOUT_DESCRIPTOR: u8 = 0x08;

/// PC of MODE SENSE, in byte 2.
const PAGE_CONTROL: u8 = 0xC0;

/// PAGE CODE of MODE SENSE, in byte 2, and the code that requests all pages.
const PAGE_CODE: u8 = 0x3F;

const ALL_PAGES: u8 = 0x3F;

/// RDPROTECT, WRPROTECT and VRPROTECT, in byte 1.
const PROTECT: u8 = 0xE0;

/// FUA of WRITE and COMPARE AND WRITE, in byte 1.
const FORCE_UNIT_ACCESS: u8 = 0x08;

/// BYTCHK of VERIFY, in byte 1, and its values: no data, and as much data as blocks.
const BYTE_CHECK: u8 = 0x06;

const NO_DATA: u8 = 0x00;

const DATA_OF_BLOCKS: u8 = 0x02;

/// SERVICE ACTION, in byte 1.
const SERVICE_ACTION: u8 = 0x1F;

/// READ CAPACITY (16), a service action.
const READ_CAPACITY_16: u8 = 0x10;

impl Operation {
    /// Returns the command that the bytes encode for this operation. A tape's block length determines what its fields
    /// mean (0: blocks have any length); no other unit has one. The control byte is ignored.
    pub fn command(self, bytes: [u8; 16], block_length: u32) -> Result<Command, FieldFault>
        ensures { result ≡ fields_of self bytes block_length }
    {
        match self {
            Operation::Unit(operation) => Ok(Command::Unit(operation.command(&bytes)?)),
            Operation::Disk(operation) => Ok(Command::Disk(operation.command(&bytes)?)),
            Operation::Tape(operation) => {
                Ok(Command::Tape(operation.command(&bytes, block_length)?))
            }
        }
    }
}

impl UnitOperation {
    /// Returns the command that the bytes encode for this operation.
    pub fn command(self, bytes: &[u8; 16]) -> Result<UnitCommand, FieldFault>
        ensures { result ≡ unit_fields self bytes.now }
    {
        match self {
            UnitOperation::TestUnitReady => Ok(UnitCommand::TestUnitReady),
            UnitOperation::RequestSense => {
                let allocation_length = u32::from(bytes[4]);
                let command = UnitCommand::RequestSense { allocation_length };
                command_where(bytes[1] & LOWEST_BIT == 0, command)
            }
            UnitOperation::Inquiry => inquiry(bytes),
            UnitOperation::ModeSelect6 => {
                mode_select(bytes[1], ParameterHeader::Six, u32::from(bytes[4]))
            }
            UnitOperation::ModeSelect10 => {
                let list_length = u32::from(BigEndian::read_u16(&bytes[7..]));
                mode_select(bytes[1], ParameterHeader::Ten, list_length)
            }
            UnitOperation::ModeSense6 => {
                mode_sense(bytes, ParameterHeader::Six, u32::from(bytes[4]))
            }
            UnitOperation::ModeSense10 => {
                let allocation_length = u32::from(BigEndian::read_u16(&bytes[7..]));
                mode_sense(bytes, ParameterHeader::Ten, allocation_length)
            }
            UnitOperation::PersistentReserveIn => {
                Ok(UnitCommand::ReserveIn(ReserveInFields::read(bytes)?))
            }
            UnitOperation::PersistentReserveOut => {
                Ok(UnitCommand::ReserveOut(ReserveOutFields::read(bytes)?))
            }
            UnitOperation::ReportLuns => {
                Ok(UnitCommand::ReportLuns(ReportLunsFields::read(bytes)?))
            }
        }
    }
}

impl DiskOperation {
    /// Returns the command that the bytes encode for this operation.
    pub fn command(self, bytes: &[u8; 16]) -> Result<DiskCommand, FieldFault>
        ensures { result ≡ disk_fields self bytes.now }
    {
        match self {
            DiskOperation::Read10 => read(bytes[1], range_10(bytes)),
            DiskOperation::Read16 => read(bytes[1], range_16(bytes)),
            DiskOperation::ReadCapacity10 => Ok(DiskCommand::ReadCapacity10),
            DiskOperation::ServiceActionIn16 => {
                let allocation_length = BigEndian::read_u32(&bytes[10..]);
                command_where(
                    bytes[1] & SERVICE_ACTION == READ_CAPACITY_16,
                    DiskCommand::ReadCapacity16 { allocation_length },
                )
            }
            DiskOperation::Write10 => write(bytes[1], range_10(bytes)),
            DiskOperation::Write16 => write(bytes[1], range_16(bytes)),
            DiskOperation::Verify10 => verify(bytes[1], range_10(bytes)),
            DiskOperation::Verify16 => verify(bytes[1], range_16(bytes)),
            DiskOperation::SynchronizeCache10 => Ok(DiskCommand::SynchronizeCache(range_10(bytes))),
            DiskOperation::SynchronizeCache16 => Ok(DiskCommand::SynchronizeCache(range_16(bytes))),
            DiskOperation::WriteSame10 => write_same(bytes[1], range_10(bytes)),
            DiskOperation::WriteSame16 => write_same(bytes[1], range_16(bytes)),
            DiskOperation::CompareAndWrite => compare_and_write(bytes),
        }
    }
}

/// Returns the command if its fields are accepted.
pub(crate) fn command_where<C: Drop>(is_taken: bool, command: C) -> Result<C, FieldFault>
    ensures { result ≡ command_if is_taken command }
{
    if is_taken {
        Ok(command)
    } else {
        Err(FieldFault::InvalidField)
    }
}

/// Reads INQUIRY: a page is requested if EVPD is set, and must not be named if it is clear.
fn inquiry(bytes: &[u8; 16]) -> Result<UnitCommand, FieldFault>
    ensures { result ≡ inquiry_of bytes.now }
{
    let allocation_length = u32::from(BigEndian::read_u16(&bytes[3..]));
    let page = if bytes[1] & LOWEST_BIT != 0 {
        Some(bytes[2])
    } else {
        None
    };
    command_where(
        page.is_some() || bytes[2] == 0,
        UnitCommand::Inquiry {
            page,
            allocation_length,
        },
    )
}

/// Reads MODE SELECT, which saves nothing.
fn mode_select(
    byte_1: u8,
    header: ParameterHeader,
    list_length: u32,
) -> Result<UnitCommand, FieldFault>
    ensures { result ≡ mode_select_of byte_1 header list_length }
{
    let fields = ModeSelectFields {
        header,
        list_length,
    };
    command_where(byte_1 & LOWEST_BIT == 0, UnitCommand::ModeSelect(fields))
}

/// Returns the values that byte 2 of MODE SENSE requests, or `None` if they are saved ones.
fn control(byte_2: u8) -> Option<PageControl>
    ensures { result ≡ control_of byte_2 }
{
    match byte_2 & PAGE_CONTROL {
        0x00 => Some(PageControl::Current),
        0x40 => Some(PageControl::Changeable),
        0x80 => Some(PageControl::Default),
        _ => None,
    }
}

/// Reads MODE SENSE, which has subpages only if all pages are requested.
fn mode_sense(
    bytes: &[u8; 16],
    header: ParameterHeader,
    allocation_length: u32,
) -> Result<UnitCommand, FieldFault>
    ensures { result ≡ mode_sense_of bytes.now header allocation_length }
{
    let Some(control) = control(bytes[2]) else {
        return Err(FieldFault::SavingNotSupported);
    };
    let page = bytes[2] & PAGE_CODE;
    let fields = ModeSenseFields {
        header,
        block_descriptor: bytes[1] & WITHOUT_DESCRIPTOR == 0,
        control,
        page,
        allocation_length,
    };
    command_where(
        bytes[3] == 0 || (page == ALL_PAGES && bytes[3] == 0xFF),
        UnitCommand::ModeSense(fields),
    )
}

/// Reads LOGICAL BLOCK ADDRESS and the number of blocks of a descriptor block of 10 bytes.
fn range_10(bytes: &[u8; 16]) -> AnyRange
    ensures { result ≡ range_of_10 bytes.now }
{
    let first = BigEndian::read_u32(&bytes[2..]);
    let count = BigEndian::read_u16(&bytes[7..]);
    AnyRange::new(u64::from(first), u32::from(count))
}

/// Reads the same fields of a descriptor block of 16 bytes.
fn range_16(bytes: &[u8; 16]) -> AnyRange
    ensures { result ≡ range_of_16 bytes.now }
{
    let first = BigEndian::read_u64(&bytes[2..]);
    let count = BigEndian::read_u32(&bytes[10..]);
    AnyRange::new(first, count)
}

/// Returns whether no protection information is requested.
fn is_unprotected(byte_1: u8) -> bool
    ensures { result ≡ is_without_protection byte_1 }
{
    byte_1 & PROTECT == 0
}

/// Returns whether FUA is set.
fn forces_access(byte_1: u8) -> bool
    ensures { result ≡ forces_unit_access byte_1 }
{
    byte_1 & FORCE_UNIT_ACCESS != 0
}

/// Returns READ of these blocks, with this byte 1.
fn read(byte_1: u8, range: AnyRange) -> Result<DiskCommand, FieldFault>
    ensures { result ≡ read_of byte_1 range }
{
    match BlockRange::new(range.first(), range.count()) {
        Some(range) => command_where(is_unprotected(byte_1), DiskCommand::Read(range)),
        None => Err(FieldFault::InvalidField),
    }
}

/// Returns WRITE of these blocks, with this byte 1.
fn write(byte_1: u8, range: AnyRange) -> Result<DiskCommand, FieldFault>
    ensures { result ≡ write_of byte_1 range }
{
    let Some(range) = BlockRange::new(range.first(), range.count()) else {
        return Err(FieldFault::InvalidField);
    };
    let command = DiskCommand::Write {
        range,
        force_unit_access: forces_access(byte_1),
    };
    command_where(is_unprotected(byte_1), command)
}

/// Returns VERIFY of these blocks, with this byte 1.
fn verify(byte_1: u8, range: AnyRange) -> Result<DiskCommand, FieldFault>
    ensures { result ≡ verify_of byte_1 range }
{
    let check = byte_1 & BYTE_CHECK;
    if check == NO_DATA {
        return command_where(is_unprotected(byte_1), DiskCommand::Verify(range));
    }
    match BlockRange::new(range.first(), range.count()) {
        Some(range) => command_where(
            is_unprotected(byte_1) && check == DATA_OF_BLOCKS,
            DiskCommand::VerifyData(range),
        ),
        None => Err(FieldFault::InvalidField),
    }
}

/// Returns WRITE SAME to these blocks, with this byte 1.
fn write_same(byte_1: u8, range: AnyRange) -> Result<DiskCommand, FieldFault>
    ensures { result ≡ write_same_of byte_1 range }
{
    match SameRange::new(range.first(), range.count()) {
        Some(range) => command_where(byte_1 == 0, DiskCommand::WriteSame(range)),
        None => Err(FieldFault::InvalidField),
    }
}

fn compare_and_write(bytes: &[u8; 16]) -> Result<DiskCommand, FieldFault>
    ensures { result ≡ compare_and_write_of (slice_index bytes.now 1) (range_compared bytes.now) }
{
    let first = BigEndian::read_u64(&bytes[2..]);
    let Some(range) = ComparedRange::new(first, u32::from(bytes[13])) else {
        return Err(FieldFault::InvalidField);
    };
    let command = DiskCommand::CompareAndWrite {
        range,
        force_unit_access: forces_access(bytes[1]),
    };
    command_where(is_unprotected(bytes[1]), command)
}
