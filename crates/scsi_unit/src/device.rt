//! The device of a logical unit: a disk or a tape.

ghost use Rattle.std.specs.Prelude.{◌≡◌};
ghost use Rattle.scsi_unit.specs.Device.{kind_of, device_view, parameters_of, with_parameters, fixed_length};
ghost use Rattle.scsi_unit.specs.Checks.{has_range, is_protected, range_of, needs_medium, unready};

use media_store::Store;
use scsi_cdb::{AnyRange, Command, Kind, Need};
use scsi_disk::{DiskDevice, range_named};
use scsi_mode::Parameters;
use scsi_sense::{Condition, Sense};
use scsi_tape::TapeUnit;

/// Returns whether an operation with this need needs the medium.
fn needs_medium(need: Need) -> bool
    ensures { result ≡ needs_medium need }
{
    match need {
        Need::Nothing => false,
        Need::Working | Need::Ready => true,
    }
}

/// The device of a logical unit.
#[derive(Drop)]
pub(crate) enum Device<S: Store> {
    Disk(DiskDevice<S>),
    Tape(TapeUnit<S>),
}

impl<S: Store> Device<S> {
    /// Returns the kind of unit.
    pub fn kind(&self) -> Kind
        ensures { result ≡ kind_of (device_view self.now) }
    {
        match self {
            Device::Disk(_) => Kind::Disk,
            Device::Tape(_) => Kind::Tape,
        }
    }

    /// Returns why it cannot do an operation with this need now, or `None`.
    pub fn unready(&self, need: Need) -> Option<Sense>
        ensures { result ≡ unready need (device_view self.now) }
    {
        match self {
            Device::Disk(disk) if needs_medium(need) && !disk.is_ready => {
                Some(Sense::new(Condition::InternalTargetFailure))
            }
            Device::Disk(_) => None,
            Device::Tape(tape) => tape.not_ready(need),
        }
    }

    /// Returns its mode parameters.
    pub fn parameters(&self) -> Parameters
        ensures { result ≡ parameters_of (device_view self.now) }
    {
        match self {
            Device::Disk(device) => Parameters::Disk {
                block_count: device.disk.block_count(),
                write_protect: device.write_protect,
            },
            Device::Tape(tape) => Parameters::Tape {
                block_length: tape.block_length(),
            },
        }
    }

    /// Sets the mode parameters.
    pub fn set_parameters(&mut self, parameters: Parameters)
        ensures { device_view self.new ≡ with_parameters parameters (device_view self.old) }
    {
        match self {
            Device::Disk(disk) => disk.write_protect = parameters.write_protect(),
            Device::Tape(tape) => tape.set_block_length(parameters.block_length()),
        }
    }

    /// Returns the length of a tape's fixed blocks in bytes: 0 if it has none, and for a disk.
    pub fn fixed_length(&self) -> u32
        ensures { result ≡ fixed_length (device_view self.now) }
    {
        match self {
            Device::Disk(_) => 0,
            Device::Tape(tape) => tape.block_length(),
        }
    }

    /// Returns whether writes to it are refused.
    pub fn is_protected(&self) -> bool
        ensures { result ≡ is_protected (device_view self.now) }
    {
        match self {
            Device::Disk(disk) => disk.write_protect,
            Device::Tape(_) => false,
        }
    }

    /// Returns whether it has the blocks that a command names.
    pub fn has_range(&self, command: &Command) -> bool
        ensures { result ≡ has_range (device_view self.now) (range_of command.now) }
    {
        match command {
            Command::Disk(command) => match range_named(command) {
                Some(range) => self.has_blocks(range),
                None => true,
            },
            Command::Unit(_) | Command::Tape(_) => true,
        }
    }

    /// Returns whether it has these blocks. For a tape this always holds.
    fn has_blocks(&self, range: AnyRange) -> bool
        ensures { result ≡ has_range (device_view self.now) (Some range) }
    {
        match self {
            Device::Disk(device) => {
                let blocks = device.disk.block_count();
                range.first() <= blocks && u64::from(range.count()) <= blocks - range.first()
            }
            Device::Tape(_) => true,
        }
    }
}
