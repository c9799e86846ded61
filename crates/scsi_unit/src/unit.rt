//! One logical unit.

ghost use Rattle.std.specs.Prelude.{◌≡◌, ◌≤◌, length, false, IfOk, OnOk, OnErr};
ghost use Rattle.scsi_unit.specs.Device.{opened, opened_tape};
ghost use Rattle.scsi_disk.specs.DiskCommands.{most_given};
ghost use Rattle.scsi_unit.specs.Unit.{free_unit, joined_unit, left_unit, raised_unit, raised_unit_for_all, where_named, names_unit, perform_as, touch_with, IsPerformed};

use crate::device::Device;
use crate::identity::without_unit;
use crate::joined::{JoinedList, join, leave};
use crate::lun::Lun;
use crate::serial::Serial;
use data_parts::Data;
use media_block::Disk;
use media_store::Store;
use media_tape::Tape;
use scsi_cdb::Row;
use scsi_disk::{Buffers, DiskDevice};
use scsi_reserve::Table;
use scsi_sense::{Attention, Done, Nexus};
use scsi_tape::TapeUnit;
use std::alloc::Global;
use std::marker::Model;
use target_limits::Memory;

/// A logical unit: a disk or a tape, its registrations and reservation, and the unit attentions pending for each nexus.
pub struct Unit<S: Store> {
    pub(crate) lun: Lun,
    pub(crate) serial: Serial,
    pub(crate) device: Device<S>,
    pub(crate) reservations: Table,
    pub(crate) joined: JoinedList,
    pub(crate) alloc: Global,
}

impl<S: Store> Model for Unit<S> {
    ghost use Rattle.scsi_unit.specs.Device.{device_view};
    ghost use Rattle.scsi_unit.specs.State.{UnitState};

    ghost Value = { UnitState };

    ghost view = { λ u. record { lun = u.lun; serial = u.serial; device = device_view u.device; reservations = u.reservations; joined = u.joined.items } };
}

// Dropped by a call of its own, so that code that drops a unit does not distinguish disks and tapes.
impl<S: Store + Drop> Drop for Unit<S> {
    fn drop(self) {
        let Unit {
            lun: _lun,
            serial: _serial,
            device: _device,
            reservations: _reservations,
            joined: _joined,
            alloc: _alloc,
        } = self;
    }
}

impl<S: Store> Unit<S> {
    /// Returns a unit with a disk.
    pub fn disk(alloc: Global, lun: u8, serial: Serial, disk: Disk<S>) -> Unit<S>
        ensures { result ≡ free_unit lun serial (opened disk) }
    {
        Unit {
            lun: Lun::new(lun),
            serial,
            device: Device::Disk(DiskDevice {
                disk,
                is_ready: true,
                write_protect: false,
            }),
            reservations: Table::new(alloc),
            joined: JoinedList::new(alloc),
            alloc,
        }
    }

    /// Returns a unit with a tape.
    pub fn tape(alloc: Global, lun: u8, serial: Serial, tape: Tape<S>) -> Unit<S>
        ensures { result ≡ free_unit lun serial (opened_tape tape) }
    {
        Unit {
            lun: Lun::new(lun),
            serial,
            device: Device::Tape(TapeUnit::new(tape)),
            reservations: Table::new(alloc),
            joined: JoinedList::new(alloc),
            alloc,
        }
    }

    /// Returns whether a LUN field names this unit.
    pub(crate) fn is_named(&self, field: [u8; 8]) -> bool
        ensures { result ≡ names_unit field self.now }
    {
        match Lun::read(field) {
            Some(lun) => lun.number() == self.lun.number(),
            None => false,
        }
    }

    /// Joins a nexus: the power-on attention is pending for it, and no other, even if it was joined before. If an
    /// allocation fails, nothing changes.
    pub fn join(&mut self, nexus: Nexus) -> Result<(), Memory>
        ensures ok { OnOk result (self.new ≡ joined_unit nexus self.old) }
        ensures err { OnErr result (self.new ≡ self.old) }
    {
        self.joined.reserve_one()?;
        join(&mut self.joined, nexus);
        Ok(())
    }

    /// Removes a nexus, with its attentions.
    pub fn leave(&mut self, nexus: &Nexus)
        ensures { self.new ≡ left_unit nexus.now self.old }
    {
        leave(&mut self.joined, nexus);
    }

    /// Establishes a unit attention for a nexus that is joined, unless it is already pending. It allocates nothing.
    pub fn raise(&mut self, nexus: &Nexus, attention: Attention)
        ensures { self.new ≡ raised_unit nexus.now attention self.old }
    {
        self.joined.raise(nexus, attention);
    }

    /// Establishes a unit attention for every nexus that is joined, unless it is already pending. It allocates nothing.
    pub fn raise_for_all(&mut self, attention: Attention)
        ensures { self.new ≡ raised_unit_for_all attention self.old }
    {
        self.joined.raise_for_all(attention);
    }

    /// Establishes a unit attention for one nexus, if the LUN field names this unit.
    pub(crate) fn raise_at(&mut self, nexus: &Nexus, lun: [u8; 8], attention: Attention)
        ensures { self.new ≡ where_named lun (raised_unit nexus.now attention) self.old }
    {
        if self.is_named(lun) {
            self.raise(nexus, attention);
        }
    }

    /// Establishes a unit attention for every nexus, if the LUN field names this unit.
    pub(crate) fn raise_for_all_at(&mut self, lun: [u8; 8], attention: Attention)
        ensures { self.new ≡ where_named lun (raised_unit_for_all attention) self.old }
    {
        if self.is_named(lun) {
            self.raise_for_all(attention);
        }
    }

    /// Performs a command that is sent to a LUN, with this data. The checks are made in this order, and the first that
    /// fails determines the answer:
    ///
    /// 1. the LUN names this unit;
    /// 2. the unit has the operation;
    /// 3. no unit attention is pending for the nexus;
    /// 4. no reservation forbids the operation;
    /// 5. the medium is ready;
    /// 6. the fields of the command descriptor block are valid;
    /// 7. the unit has the range of blocks;
    /// 8. the data is long enough;
    /// 9. the unit is not write protected.
    ///
    /// If a read of the store fails, it reports UNRECOVERED READ ERROR, and nothing else changes. If a write fails, it
    /// reports WRITE ERROR, and the unit is not ready until it is opened again. REPORT LUNS reports this unit alone. If
    /// an allocation fails, nothing changes.
    #[tactic(auto, unfolding(crate::specs::Unit::perform_as, crate::specs::Unit::touch_with))]
    pub fn perform(
        &mut self,
        nexus: &Nexus,
        lun: [u8; 8],
        cdb: [u8; 16],
        data: &Data,
    ) -> Result<Done, Memory>
        ensures done { IfOk result (IsPerformed (touch_with nexus.now lun cdb «data».now self.old)
            (λ came. perform_as came nexus.now lun cdb «data».now self.old) self.old self.new) }
        ensures given { IfOk result (λ done. length done.given ≤ most_given) }
        ensures err { OnErr result (self.new ≡ self.old) }
    {
        let alloc = self.alloc;
        if !self.is_named(lun) {
            return without_unit(alloc, cdb);
        }
        let row = Row::of(cdb[0]);
        self.perform_with(&mut Buffers::new(alloc), nexus, row, cdb, data)
    }
}
