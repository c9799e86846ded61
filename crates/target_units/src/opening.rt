//! Opening the units of a configuration.

ghost use Rattle.std.specs.Prelude.{◌≡◌, ◌≢◌, IfOk, IfErr, true, map, string_bytes};
ghost use Rattle.std.specs.IoError.{error_kind};
ghost use Rattle.std.specs.List.{list_all};
ghost use Rattle.target_config.specs.Configuration.{FileDisk, FileTape, names_of, unit_view, units_view, targets_view, configuration_view};
ghost use Rattle.target_config.specs.Limits.{is_lun, unit_keeps, keeps_limits};
ghost use Rattle.target_units.specs.Opened.{zero_disk, empty_tape, IsFileDisk, IsFileTape, IsUnitOf, AreEach, AreUnitsOf};
ghost use Rattle.target_units.specs.Refusal.{refusal_of};
ghost use Rattle.target_units.specs.Unopened.{IsErrorOf, disk_cause, tape_fault_of, IsDevice, IsFaultAt, IsFaultIn, IsUnopened};
ghost use Rattle.target_units.specs.declared.cause.DeviceCause.{DeviceCause};
ghost use Rattle.target_units.specs.declared.fault.UnitFault.TheVariants.{Device, Memory as OutOfMemory};

use crate::cause::DeviceCause;
use crate::fault::{OpenFault, UnitFault};
use crate::refused::Refused;
use crate::store::{MediumStore, SystemStore};
use media_block::{BLOCK_LENGTH, Disk, DiskOpenFault};
use media_store::{FileStore, MemStore, Start, Store, SystemFile};
use media_tape::{Tape, TapeOpenFault};
use scsi_unit::{Serial, Unit, Units};
use std::alloc::Global;
use std::fs::File;
use std::io;
use std::io::ErrorKind;
use std::rt::Files;
use target_config::{BlockCount, Configuration, MediumConfiguration, UnitConfiguration};
use target_limits::Memory;

/// The targets of a configuration, with their units opened.
#[derive(Drop)]
pub struct OpenedTargets<S: Start> {
    /// The address to listen on, from the configuration.
    pub listen: String,
    /// The path of the log, from the configuration.
    pub log: Option<String>,
    /// The names of the targets.
    pub names: Vec<String>,
    /// The units of each target, in the same order.
    pub units: Vec<Units<SystemStore<S>>>,
}

/// Makes a disk of `blocks` blocks of zeros in memory. Such a store is a disk and does not fail, so only an allocation
/// can fail.
fn memory_disk<F: Store + Drop>(
    alloc: Global,
    blocks: BlockCount,
) -> Result<Disk<MediumStore<F>>, Memory>
    ensures { IfOk result (λ disk. disk ≡ zero_disk blocks.number) }
{
    let length = BLOCK_LENGTH * blocks.number as usize;
    let store = MemStore::new(alloc, length, length)?;
    Ok(Disk::open(MediumStore::Memory(store)).unwrap())
}

/// Makes an empty tape in memory. Such a store is a tape and does not fail when it is opened, so only an allocation can
/// fail.
fn memory_tape<F: Store + Drop>(
    alloc: Global,
    capacity: u64,
    early: u64,
) -> Result<Tape<MediumStore<F>>, Memory>
    ensures { IfOk result (λ tape. tape ≡ empty_tape capacity early) }
{
    let store = MemStore::new(alloc, 0, capacity as usize)?;
    match Tape::open(alloc, MediumStore::Memory(store), capacity, early) {
        Ok(tape) => Ok(tape),
        Err(refused) => {
            prove!(matches!(&refused.fault, TapeOpenFault::OutOfMemory));
            Err(Memory)
        }
    }
}

/// Returns the fault for an error of the system at the file of a unit.
fn fault_of(error: &io::Error, lun: u8) -> UnitFault
    ensures memory { error_kind error.now ≡ ErrorKind.OutOfMemory → result ≡ OutOfMemory }
    ensures other { error_kind error.now ≢ ErrorKind.OutOfMemory → (cause : DeviceCause) × (result ≡ Device lun cause) × IsErrorOf error.now cause }
{
    match error.kind() {
        ErrorKind::OutOfMemory => UnitFault::Memory,
        _ => UnitFault::Device {
            lun,
            cause: DeviceCause::of_error(error),
        },
    }
}

/// Returns the fault for a store that is not opened as a disk.
fn disk_fault(fault: DiskOpenFault, lun: u8) -> UnitFault
    ensures { result ≡ Device lun (disk_cause fault) }
{
    let cause = match fault {
        DiskOpenFault::Length => DeviceCause::Length,
        DiskOpenFault::Device => DeviceCause::Unread,
    };
    UnitFault::Device { lun, cause }
}

/// Opens the file at a path for reading and writing, as a disk. The file is not created.
fn file_disk<S: Start>(
    rt: &impl Files<File = File>,
    path: String,
    lun: u8,
    refused: &mut Refused<S>,
) -> Result<Disk<SystemStore<S>>, UnitFault>
    ensures disk { IfOk result (IsFileDisk (S.held (string_bytes path))) }
    ensures fault { IfErr result (λ why. why ≢ OutOfMemory → IsDevice S.held (FileDisk (string_bytes path)) lun (refusal_of refused.new) why) }
{
    match SystemFile::open(rt, path.as_str()) {
        Ok(file) => match Disk::open(MediumStore::File(FileStore::new(file))) {
            Ok(disk) => Ok(disk),
            Err(unfit) => {
                *refused = Refused::Unfit(unfit.store);
                Err(disk_fault(unfit.fault, lun))
            }
        },
        Err(unopened) => {
            let fault = fault_of(&unopened.error, lun);
            *refused = Refused::Unopened(unopened);
            Err(fault)
        }
    }
}

/// Returns the fault for a store that is not opened as a tape.
fn tape_fault(fault: TapeOpenFault, lun: u8) -> UnitFault
    ensures { result ≡ tape_fault_of lun fault }
{
    let cause = match fault {
        TapeOpenFault::OutOfMemory => return UnitFault::Memory,
        TapeOpenFault::TornEnd(at) => DeviceCause::Torn { at },
        TapeOpenFault::Device => DeviceCause::Unread,
        TapeOpenFault::TooLong => DeviceCause::TooLong,
    };
    UnitFault::Device { lun, cause }
}

/// Opens the file at a path for reading and writing, as a tape. The file is not created.
fn file_tape<S: Start>(
    rt: &(impl Files<File = File> + AllocGlobal),
    path: String,
    capacity: u64,
    early: u64,
    lun: u8,
    refused: &mut Refused<S>,
) -> Result<Tape<SystemStore<S>>, UnitFault>
    ensures tape { IfOk result (IsFileTape capacity early (S.held (string_bytes path))) }
    ensures fault { IfErr result (λ why. why ≢ OutOfMemory
        → IsDevice S.held (FileTape (string_bytes path) capacity early) lun (refusal_of refused.new) why) }
{
    match SystemFile::open(rt, path.as_str()) {
        Ok(file) => {
            let store = MediumStore::File(FileStore::new(file));
            match Tape::open(rt.alloc(), store, capacity, early) {
                Ok(tape) => Ok(tape),
                Err(unfit) => {
                    *refused = Refused::Unfit(unfit.store);
                    Err(tape_fault(unfit.fault, lun))
                }
            }
        }
        Err(unopened) => {
            let fault = fault_of(&unopened.error, lun);
            *refused = Refused::Unopened(unopened);
            Err(fault)
        }
    }
}

/// Opens a unit with its medium.
fn open_unit<S: Start>(
    rt: &(impl Files<File = File> + AllocGlobal),
    unit: UnitConfiguration,
    refused: &mut Refused<S>,
) -> Result<Unit<SystemStore<S>>, UnitFault>
    requires { unit_keeps (unit_view unit) ≡ true }
    ensures unit { IfOk result (IsUnitOf S.held (unit_view unit)) }
    ensures fault { IfErr result (IsFaultAt S.held (unit_view unit) (refusal_of refused.new)) }
{
    let alloc = rt.alloc();
    let UnitConfiguration {
        lun,
        serial,
        medium,
    } = unit;
    let lun = lun as u8;
    let serial = Serial::new(serial);
    match medium {
        MediumConfiguration::MemoryDisk(blocks) => {
            Ok(Unit::disk(alloc, lun, serial, memory_disk(alloc, blocks)?))
        }
        MediumConfiguration::FileDisk(path) => {
            Ok(Unit::disk(alloc, lun, serial, file_disk(rt, path, lun, refused)?))
        }
        MediumConfiguration::MemoryTape { capacity, early } => {
            let tape = memory_tape(alloc, capacity, early)?;
            Ok(Unit::tape(alloc, lun, serial, tape))
        }
        MediumConfiguration::FileTape {
            path,
            capacity,
            early,
        } => {
            let tape = file_tape(rt, path, capacity, early, lun, refused)?;
            Ok(Unit::tape(alloc, lun, serial, tape))
        }
    }
}

/// Opens the units of a target in their order.
fn open_units<S: Start>(
    rt: &(impl Files<File = File> + AllocGlobal),
    units: Vec<UnitConfiguration>,
    refused: &mut Refused<S>,
) -> Result<Units<SystemStore<S>>, UnitFault>
    requires { list_all unit_keeps (units_view units.items) ≡ true }
    ensures units { IfOk result (AreEach (IsUnitOf S.held) (units_view units.items)) }
    ensures fault { IfErr result (IsFaultIn S.held (units_view units.items) (refusal_of refused.new)) }
{
    let alloc = rt.alloc();
    let mut opened = Vec::new(alloc);
    for unit in units {
        opened.push(open_unit(rt, unit, refused)?)?;
    }
    Ok(Units::new(alloc, opened)?)
}

/// Opens the units of all targets, in the order of the configuration. What is left of the file of a unit that is not
/// opened is kept in `refused`.
pub fn open<S: Start>(
    rt: &(impl Files<File = File> + AllocGlobal),
    configuration: Configuration,
    refused: &mut Refused<S>,
) -> Result<OpenedTargets<S>, OpenFault>
    requires { keeps_limits (configuration_view configuration) ≡ true }
    ensures listen { IfOk result (λ opened. string_bytes opened.listen ≡ string_bytes configuration.listen) }
    ensures log { IfOk result (λ opened. opened.log ≡ configuration.log) }
    ensures names { IfOk result (λ opened. map string_bytes opened.names.items ≡ names_of (targets_view configuration.targets.items)) }
    ensures units { IfOk result (λ opened. AreUnitsOf S.held (targets_view configuration.targets.items) opened.units.items) }
    ensures fault { IfErr result (IsUnopened S.held (targets_view configuration.targets.items) (refusal_of refused.new)) }
{
    let mut names = Vec::new(rt.alloc());
    let mut units = Vec::new(rt.alloc());
    for target in configuration.targets {
        match open_units(rt, target.units, refused) {
            Ok(opened) => units.push(opened)?,
            Err(UnitFault::Device { lun, cause }) => {
                return Err(OpenFault::Device {
                    target: target.name,
                    lun,
                    cause,
                });
            }
            Err(UnitFault::Memory) => return Err(OpenFault::Memory),
        }
        names.push(target.name)?;
    }
    Ok(OpenedTargets {
        listen: configuration.listen,
        log: configuration.log,
        names,
        units,
    })
}
