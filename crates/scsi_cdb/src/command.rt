//! Commands with their fields.

use crate::block_range::{AnyRange, BlockRange, ComparedRange, SameRange};
use crate::mode::{ModeSelectFields, ModeSenseFields};
use crate::persistent_reserve::{ReserveInFields, ReserveOutFields};
use crate::report_luns::ReportLunsFields;
use crate::tape::TapeCommand;

/// A command with its fields.
#[derive(Clone, Copy)]
pub enum Command {
    /// To a unit of any kind.
    Unit(UnitCommand),
    /// To a disk.
    Disk(DiskCommand),
    /// To a tape.
    Tape(TapeCommand),
}

/// A command to a unit of any kind.
#[derive(Clone, Copy)]
pub enum UnitCommand {
    /// Asks whether the unit accepts medium commands now (SPC-4 "TEST UNIT READY command").
    TestUnitReady,
    /// Requests sense data, up to the allocation length (SPC-4 "REQUEST SENSE command").
    RequestSense {
        allocation_length: u32,
    },
    /// Requests standard INQUIRY data, or the vital product data page of this code (SPC-4 "INQUIRY command").
    Inquiry {
        page: Option<u8>,
        allocation_length: u32,
    },
    /// Sets mode parameters.
    ModeSelect(ModeSelectFields),
    /// Requests mode parameters.
    ModeSense(ModeSenseFields),
    /// Requests the registrations of the unit, or its reservation.
    ReserveIn(ReserveInFields),
    /// Registers the nexus, or reserves the unit.
    ReserveOut(ReserveOutFields),
    /// Requests the logical units of the target (SPC-4 "REPORT LUNS command").
    ReportLuns(ReportLunsFields),
}

/// A command to a disk.
#[derive(Clone, Copy)]
pub enum DiskCommand {
    /// Requests the data of blocks (SBC-3 "READ (10) command", "READ (16) command"). FUA is not kept: each read is of
    /// the medium.
    Read(BlockRange),
    /// Requests the last logical block address in four bytes, and the length of a block (SBC-3 "READ CAPACITY (10)
    /// command").
    ReadCapacity10,
    /// Requests the same with the address in eight bytes, up to the allocation length (SBC-3 "READ CAPACITY (16)
    /// command").
    ReadCapacity16 {
        allocation_length: u32,
    },
    /// Replaces blocks by data. If FUA is set, it is on the medium before the command ends (SBC-3 "WRITE (10) command",
    /// "WRITE (16) command").
    Write {
        range: BlockRange,
        force_unit_access: bool,
    },
    /// Asks whether blocks can be read (SBC-3 "VERIFY (10) command", "VERIFY (16) command", BYTCHK 00b).
    Verify(AnyRange),
    /// Asks whether blocks have this data (the same, BYTCHK 01b).
    VerifyData(BlockRange),
    /// Requests that everything written be stored on the medium (SBC-3 "SYNCHRONIZE CACHE (10) command", "SYNCHRONIZE
    /// CACHE (16) command").
    SynchronizeCache(AnyRange),
    /// Replaces each of these blocks by one block of data (SBC-3 "WRITE SAME (10) command", "WRITE SAME (16) command").
    WriteSame(SameRange),
    /// Replaces blocks that have the first half of the data by the second half (SBC-3 "COMPARE AND WRITE command"). FUA
    /// is as in WRITE.
    CompareAndWrite {
        range: ComparedRange,
        force_unit_access: bool,
    },
}
