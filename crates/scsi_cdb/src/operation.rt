//! What operation codes name, and what a unit checks before it reads the fields of each.

ghost use Rattle.std.specs.Prelude.{◌≡◌};
ghost use Rattle.scsi_cdb.specs.Operation.{row, row_of, row_for, is_for, is_of_target, class_of};

/// The kind of a logical unit (SPC-4 "Standard INQUIRY data", peripheral device type).
#[derive(Clone, Copy)]
pub enum Kind {
    /// A direct access block device (SBC-3).
    Disk,
    /// A sequential access device (SSC-4).
    Tape,
}

/// The operation that a code names, with no field of its command descriptor block read.
#[derive(Clone, Copy)]
pub enum Operation {
    /// Of units of every kind.
    Unit(UnitOperation),
    /// Of disks alone.
    Disk(DiskOperation),
    /// Of tapes alone.
    Tape(TapeOperation),
}

/// An operation of units of every kind (SPC-4 "Commands for all device types").
#[derive(Clone, Copy)]
pub enum UnitOperation {
    TestUnitReady,
    RequestSense,
    Inquiry,
    ModeSelect6,
    ModeSelect10,
    ModeSense6,
    ModeSense10,
    PersistentReserveIn,
    PersistentReserveOut,
    ReportLuns,
}

/// An operation of disks (SBC-3 "Commands for direct access block devices").
#[derive(Clone, Copy)]
pub enum DiskOperation {
    Read10,
    Read16,
    ReadCapacity10,
    /// Of its service actions only READ CAPACITY (16) is read.
    ServiceActionIn16,
    Write10,
    Write16,
    Verify10,
    Verify16,
    SynchronizeCache10,
    SynchronizeCache16,
    WriteSame10,
    WriteSame16,
    CompareAndWrite,
}

/// An operation of tapes (SSC-4 "Commands for sequential-access devices").
#[derive(Clone, Copy)]
pub enum TapeOperation {
    Rewind,
    ReadBlockLimits,
    Read6,
    Write6,
    WriteFilemarks6,
    Space6,
    Erase6,
    LoadUnload,
    Locate10,
    ReadPosition,
}

/// What an operation needs of a unit.
#[derive(Clone, Copy)]
pub enum Need {
    Nothing,
    /// That no write to its medium has failed.
    Working,
    /// The same, and that its medium is loaded (SPC-4 "TEST UNIT READY command").
    Ready,
}

/// What a reservation of another nexus does to an operation (SPC-4 "Persistent reservations"; its tables
/// of commands that are allowed).
#[derive(Clone, Copy)]
pub enum ReservationClass {
    /// It is allowed whatever is reserved.
    Always,
    /// It is allowed if reading is.
    Reading,
    /// It is allowed if writing is.
    Writing,
}

/// A row of the table of operations.
#[derive(Clone, Copy)]
pub struct Row {
    pub operation: Operation,
    /// It is carried out while a unit attention is pending (SAM-5 "Unit attention condition").
    pub passes_attention: bool,
    /// It is carried out if the LUN names no unit (SPC-4 "INQUIRY command", "REQUEST SENSE command").
    pub passes_missing_unit: bool,
    /// It is refused if the unit does not meet this.
    pub needs: Need,
    pub reservation: ReservationClass,
}

impl Row {
    /// Returns the row of an operation code (SPC-4 "Operation code"; SPC-4, SBC-3 and SSC-4, each in "Commands").
    pub fn of(code: u8) -> Option<Row>
        ensures { result ≡ row_of code }
    {
        use DiskOperation::{
            CompareAndWrite, Read10, Read16, ReadCapacity10, ServiceActionIn16, SynchronizeCache10,
            SynchronizeCache16, Verify10, Verify16, Write10, Write16, WriteSame10, WriteSame16,
        };
        use Need::{Nothing, Ready, Working};
        use Operation::{Disk, Tape, Unit};
        use ReservationClass::{Always, Reading, Writing};
        use TapeOperation::{
            Erase6, LoadUnload, Locate10, Read6, ReadBlockLimits, ReadPosition, Rewind, Space6,
            Write6, WriteFilemarks6,
        };
        use UnitOperation::{
            Inquiry, ModeSelect6, ModeSelect10, ModeSense6, ModeSense10, PersistentReserveIn,
            PersistentReserveOut, ReportLuns, RequestSense, TestUnitReady,
        };
        // What it passes: an attention, a missing unit. What it needs.
        match code {
            0x00 => make_row(Unit(TestUnitReady), false, false, Ready, Always),
            0x01 => make_row(Tape(Rewind), false, false, Ready, Writing),
            0x03 => make_row(Unit(RequestSense), true, true, Nothing, Always),
            0x05 => make_row(Tape(ReadBlockLimits), false, false, Nothing, Always),
            0x08 => make_row(Tape(Read6), false, false, Ready, Writing),
            0x0A => make_row(Tape(Write6), false, false, Ready, Writing),
            0x10 => make_row(Tape(WriteFilemarks6), false, false, Ready, Writing),
            0x11 => make_row(Tape(Space6), false, false, Ready, Writing),
            0x12 => make_row(Unit(Inquiry), true, true, Nothing, Always),
            0x15 => make_row(Unit(ModeSelect6), false, false, Nothing, Writing),
            0x19 => make_row(Tape(Erase6), false, false, Ready, Writing),
            0x1A => make_row(Unit(ModeSense6), false, false, Nothing, Reading),
            0x1B => make_row(Tape(LoadUnload), false, false, Working, Writing),
            0x25 => make_row(Disk(ReadCapacity10), false, false, Nothing, Always),
            0x28 => make_row(Disk(Read10), false, false, Ready, Reading),
            0x2A => make_row(Disk(Write10), false, false, Ready, Writing),
            0x2B => make_row(Tape(Locate10), false, false, Ready, Writing),
            0x2F => make_row(Disk(Verify10), false, false, Ready, Reading),
            0x34 => make_row(Tape(ReadPosition), false, false, Ready, Reading),
            0x35 => make_row(Disk(SynchronizeCache10), false, false, Ready, Writing),
            0x41 => make_row(Disk(WriteSame10), false, false, Ready, Writing),
            0x55 => make_row(Unit(ModeSelect10), false, false, Nothing, Writing),
            0x5A => make_row(Unit(ModeSense10), false, false, Nothing, Reading),
            0x5E => make_row(Unit(PersistentReserveIn), false, false, Nothing, Always),
            0x5F => make_row(Unit(PersistentReserveOut), false, false, Nothing, Always),
            0x88 => make_row(Disk(Read16), false, false, Ready, Reading),
            0x89 => make_row(Disk(CompareAndWrite), false, false, Ready, Writing),
            0x8A => make_row(Disk(Write16), false, false, Ready, Writing),
            0x8F => make_row(Disk(Verify16), false, false, Ready, Reading),
            0x91 => make_row(Disk(SynchronizeCache16), false, false, Ready, Writing),
            0x93 => make_row(Disk(WriteSame16), false, false, Ready, Writing),
            0x9E => make_row(Disk(ServiceActionIn16), false, false, Nothing, Always),
            0xA0 => make_row(Unit(ReportLuns), true, false, Nothing, Always),
            _ => None,
        }
    }

    /// Returns the row of an operation code, if units of this kind have it.
    pub fn for_kind(code: u8, kind: Kind) -> Option<Row>
        ensures { result ≡ row_for kind code }
    {
        let row = Row::of(code)?;
        if row.operation.is_for(kind) {
            Some(row)
        } else {
            None
        }
    }
}

/// Returns the class for reservations of an operation code, if units of this kind have it.
pub fn class(code: u8, kind: Kind) -> Option<ReservationClass>
    ensures { result ≡ class_of kind code }
{
    Some(Row::for_kind(code, kind)?.reservation)
}

impl Operation {
    /// Returns whether the target answers it for all its units: REPORT LUNS (SPC-4 "REPORT LUNS command").
    pub fn is_of_target(self) -> bool
        ensures { result ≡ is_of_target self }
    {
        matches!(self, Operation::Unit(UnitOperation::ReportLuns))
    }

    /// Returns whether units of this kind have it.
    pub fn is_for(self, kind: Kind) -> bool
        ensures { result ≡ is_for kind self }
    {
        match (self, kind) {
            (Operation::Unit(_), _)
            | (Operation::Disk(_), Kind::Disk)
            | (Operation::Tape(_), Kind::Tape) => true,
            (Operation::Disk(_), Kind::Tape) | (Operation::Tape(_), Kind::Disk) => false,
        }
    }
}

fn make_row(
    operation: Operation,
    passes_attention: bool,
    passes_missing_unit: bool,
    needs: Need,
    reservation: ReservationClass,
) -> Option<Row>
    ensures { result ≡ Some (row operation passes_attention passes_missing_unit needs reservation) }
{
    Some(Row {
        operation,
        passes_attention,
        passes_missing_unit,
        needs,
        reservation,
    })
}
