//! Commands to tapes, with their fields (SSC-4 "Command descriptions").

ghost use Rattle.std.specs.Prelude.{◌≡◌};
ghost use Rattle.scsi_cdb.specs.Tape.{incorrect_length_of, read_of, write_of, distance_of, space_of, tape_fields};

use crate::fault::FieldFault;
use crate::fields::command_where;
use crate::fixed_blocks::FixedBlocks;
use crate::operation::TapeOperation;
use crate::record_length::RecordLength;
use byteorder::{BigEndian, ByteOrder};

/// MLOI of READ BLOCK LIMITS, in byte 1.
const MAXIMUM_LOGICAL_OBJECT_IDENTIFIER: u8 = 0x01;

/// FIXED of READ and WRITE, in byte 1.
const FIXED: u8 = 0x01;

/// SILI of READ, in byte 1.
const SUPPRESS_INCORRECT_LENGTH: u8 = 0x02;

/// WSMK of WRITE FILEMARKS, in byte 1.
const WRITE_SETMARKS: u8 = 0x02;

/// CODE of SPACE, in byte 1.
const SPACE_CODE: u8 = 0x0F;

/// LOAD of LOAD UNLOAD, in byte 4, and its EOT and HOLD.
const LOAD: u8 = 0x01;

const END_OF_TAPE_OR_HOLD: u8 = 0x0C;

/// BT and CP of LOCATE, in byte 1.
const BLOCK_TYPE_OR_CHANGE_PARTITION: u8 = 0x06;

/// SERVICE ACTION of READ POSITION, in byte 1.
const SERVICE_ACTION: u8 = 0x1F;

/// The lowest number of three bytes that is below zero in two's complement.
const LOWEST_NEGATIVE: u32 = 0x0080_0000;

/// One more than the greatest number of three bytes.
const THREE_BYTES: u32 = 0x0100_0000;

/// What is counted while spacing (SSC-4 "SPACE (6) command", CODE).
#[derive(Clone, Copy)]
pub enum SpaceCode {
    /// 0h
    LogicalBlocks,
    /// 1h
    Filemarks,
}

/// How many are spaced over, and in which direction (SSC-4 "SPACE (6) command", COUNT).
#[derive(Clone, Copy)]
pub struct Distance {
    /// Toward the beginning of the tape.
    pub is_backward: bool,
    pub count: u32,
}

/// Whether it is reported that a record's length differs from the length requested (SSC-4 "READ (6) command", SILI).
#[derive(Clone, Copy)]
pub enum IncorrectLength {
    /// SILI is clear: it is reported.
    Told,
    /// SILI is set, and the tape has a block length: it is still reported if the record is longer.
    ToldIfLonger,
    /// SILI is set, and blocks have any length: it is not reported.
    Suppressed,
}

/// A command to a tape.
#[derive(Clone, Copy)]
pub enum TapeCommand {
    /// Sets the position before everything written (SSC-4 "REWIND command").
    Rewind,
    /// Requests the lengths that a record can have (SSC-4 "READ BLOCK LIMITS command").
    ReadBlockLimits,
    /// Requests the record after the position, with the length that it should have in bytes (SSC-4 "READ (6) command").
    Read {
        length: u32,
        incorrect_length: IncorrectLength,
    },
    /// Requests a number of records of the tape's block length (the same, FIXED).
    ReadFixed(FixedBlocks),
    /// Writes a record (SSC-4 "WRITE (6) command").
    Write(RecordLength),
    /// Writes a number of records of the tape's block length (the same, FIXED).
    WriteFixed(FixedBlocks),
    /// Writes this many filemarks, and waits until everything is on the medium (SSC-4 "WRITE FILEMARKS (6) command").
    WriteFilemarks(u32),
    /// Moves the position over a number of logical blocks or filemarks (SSC-4 "SPACE (6) command").
    Space {
        code: SpaceCode,
        distance: Distance,
    },
    /// Sets the position after everything written (the same, CODE 3h).
    SpaceToEndOfData,
    /// Removes everything after the position (SSC-4 "ERASE (6) command").
    Erase,
    /// Loads or unloads the tape (SSC-4 "LOAD UNLOAD command").
    LoadUnload {
        load: bool,
    },
    /// Sets the position after this many logical objects (SSC-4 "LOCATE (10) command").
    Locate(u32),
    /// Requests the position (SSC-4 "READ POSITION command", short form).
    ReadPosition,
}

impl TapeOperation {
    /// Returns the command that the bytes encode for this operation, to a tape with this block length (0: blocks have
    /// any length).
    pub fn command(self, bytes: &[u8; 16], block_length: u32) -> Result<TapeCommand, FieldFault>
        ensures { result ≡ tape_fields self bytes.now block_length }
    {
        let count = BigEndian::read_u24(&bytes[2..]);
        match self {
            TapeOperation::Rewind => Ok(TapeCommand::Rewind),
            TapeOperation::ReadBlockLimits => command_where(
                bytes[1] & MAXIMUM_LOGICAL_OBJECT_IDENTIFIER == 0,
                TapeCommand::ReadBlockLimits,
            ),
            TapeOperation::Read6 => read(bytes[1], count, block_length),
            TapeOperation::Write6 => write(bytes[1], count, block_length),
            TapeOperation::WriteFilemarks6 => {
                let command = TapeCommand::WriteFilemarks(count);
                command_where(bytes[1] & WRITE_SETMARKS == 0, command)
            }
            TapeOperation::Space6 => space(bytes[1] & SPACE_CODE, signed(count)),
            TapeOperation::Erase6 => Ok(TapeCommand::Erase),
            TapeOperation::LoadUnload => {
                let command = TapeCommand::LoadUnload {
                    load: bytes[4] & LOAD != 0,
                };
                command_where(bytes[4] & END_OF_TAPE_OR_HOLD == 0, command)
            }
            TapeOperation::Locate10 => {
                let command = TapeCommand::Locate(BigEndian::read_u32(&bytes[3..]));
                command_where(bytes[1] & BLOCK_TYPE_OR_CHANGE_PARTITION == 0, command)
            }
            TapeOperation::ReadPosition => {
                command_where(bytes[1] & SERVICE_ACTION == 0, TapeCommand::ReadPosition)
            }
        }
    }
}

/// Reads a number of three bytes in two's complement.
fn signed(number: u32) -> Distance
    ensures { result ≡ distance_of number }
{
    let is_backward = number >= LOWEST_NEGATIVE;
    Distance {
        is_backward,
        count: if is_backward {
            THREE_BYTES.saturating_sub(number)
        } else {
            number
        },
    }
}

/// Returns READ of a record of `number` bytes, or with FIXED of `number` blocks of this length, with this byte 1.
fn read(byte_1: u8, number: u32, block_length: u32) -> Result<TapeCommand, FieldFault>
    ensures { result ≡ read_of byte_1 number block_length }
{
    let suppresses = byte_1 & SUPPRESS_INCORRECT_LENGTH != 0;
    if byte_1 & FIXED == 0 {
        return Ok(TapeCommand::Read {
            length: number,
            incorrect_length: incorrect_length(suppresses, block_length),
        });
    }
    match FixedBlocks::new(number, block_length) {
        Some(blocks) => command_where(!suppresses, TapeCommand::ReadFixed(blocks)),
        None => Err(FieldFault::InvalidField),
    }
}

/// Returns what SILI requests of a tape with this block length.
fn incorrect_length(suppresses: bool, block_length: u32) -> IncorrectLength
    ensures { result ≡ incorrect_length_of suppresses block_length }
{
    if !suppresses {
        IncorrectLength::Told
    } else if block_length == 0 {
        IncorrectLength::Suppressed
    } else {
        IncorrectLength::ToldIfLonger
    }
}

/// Returns WRITE of a record of `number` bytes, or with FIXED of `number` blocks of this length, with this byte 1.
fn write(byte_1: u8, number: u32, block_length: u32) -> Result<TapeCommand, FieldFault>
    ensures { result ≡ write_of byte_1 number block_length }
{
    let command = if byte_1 & FIXED == 0 {
        RecordLength::new(number).map(TapeCommand::Write)
    } else {
        FixedBlocks::new(number, block_length).map(TapeCommand::WriteFixed)
    };
    command.ok_or(FieldFault::InvalidField)
}

/// Returns SPACE with this code.
fn space(code: u8, distance: Distance) -> Result<TapeCommand, FieldFault>
    ensures { result ≡ space_of code distance }
{
    match code {
        0x0 => Ok(TapeCommand::Space {
            code: SpaceCode::LogicalBlocks,
            distance,
        }),
        0x1 => Ok(TapeCommand::Space {
            code: SpaceCode::Filemarks,
            distance,
        }),
        0x3 => Ok(TapeCommand::SpaceToEndOfData),
        _ => Err(FieldFault::InvalidField),
    }
}
