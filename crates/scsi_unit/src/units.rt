//! The logical units of one target.

ghost use Rattle.std.specs.Prelude.{◌≡◌, ◌<◌, ◌≤◌, length, map, false, IfSome, IfOk, OnOk, OnErr};
ghost use Rattle.scsi_unit.specs.CameOut.{CameOut, AsDefined};
ghost use Rattle.scsi_disk.specs.DiskCommands.{most_given};
ghost use Rattle.scsi_unit.specs.Unit.{joined_unit};
ghost use Rattle.scsi_unit.specs.Lun.{lun_number as number_of_lun};
ghost use Rattle.scsi_unit.specs.Units.{join, leave, raised_at, raised_for_all_at, raised_everywhere, numbers_of, come_out, perform as performed, unit_of, AreSound, AreSure, AreAnswered, IsTrusted};
ghost use Rattle.scsi_unit.specs.Identity.{reported_luns, is_row_of_target};

use crate::identity::{report_luns, without_unit};
use crate::joined::join as join_list;
use crate::lun::Lun;
use crate::unit::Unit;
use bytes::BytesMut;
use data_parts::{Data, SpareBuffers};
use media_store::Store;
use scsi_cdb::{ReportLunsFields, Row};
use scsi_disk::{Buffers, give_back};
use scsi_sense::{Attention, Done, Nexus};
use std::alloc::Global;
use std::marker::Model;
use std::mem;
use target_limits::Memory;

/// The logical units of one target.
pub struct Units<S: Store> {
    units: Vec<Unit<S>>,
    /// The numbers of the units, in their order.
    luns: Vec<u8>,
    /// Buffers in which commands returned their data.
    used: Buffers,
    /// Buffers in which the data of commands arrived.
    spares: SpareBuffers,
    alloc: Global,
}

impl<S: Store> Model for Units<S> {
    ghost use Rattle.std.specs.Prelude.{◌≡◌, List};
    ghost use Rattle.scsi_unit.specs.State.{UnitState};
    ghost use Rattle.scsi_unit.specs.Units.{numbers_of};

    ghost Value = { List UnitState };

    ghost view = { λ u. u.units.items };

    ghost invariant = { λ u. u.luns.items ≡ numbers_of u.units.items };
}

// Dropped by a call of its own, so that code that drops units does not take their buffers apart.
impl<S: Store + Drop> Drop for Units<S> {
    fn drop(self) {
        let Units {
            units: _units,
            luns: _luns,
            used: _used,
            spares: _spares,
            alloc: _alloc,
        } = self;
    }
}

/// Joins a nexus to each of these units. All the memory that this takes is there before it joins the first.
fn join_each<S: Store>(units: &mut [Unit<S>], nexus: &Nexus) -> Result<(), Memory>
    ensures ok { OnOk result (units.new ≡ map (joined_unit nexus.now) units.old) }
    ensures err { OnErr result (units.new ≡ units.old) }
{
    let Some((unit, others)) = units.split_first_mut() else {
        return Ok(());
    };
    let name = nexus.clone()?;
    unit.joined.reserve_one()?;
    join_each(others, nexus)?;
    join_list(&mut unit.joined, name);
    Ok(())
}

/// Returns the numbers of these units, in their order.
fn numbers<S: Store>(alloc: Global, units: &[Unit<S>]) -> Result<Vec<u8>, Memory>
    ensures { IfOk result (λ numbers. numbers.items ≡ numbers_of units.now) }
{
    let mut numbers = Vec::new(alloc);
    for unit in units {
        numbers.push(unit.lun.number())?;
    }
    Ok(numbers)
}

/// Carries out the REPORT LUNS in these bytes, for units with these numbers.
#[tactic(auto, unfolding(crate::specs::Identity::reported_luns, crate::specs::Identity::luns_outcome))]
fn reported_luns(alloc: Global, luns: &[u8], cdb: [u8; 16]) -> Result<Done, Memory>
    ensures done { IfOk result (λ done. done ≡ reported_luns luns.now cdb) }
    ensures given { IfOk result (λ done. length done.given ≤ most_given) }
{
    match ReportLunsFields::read(&cdb) {
        Ok(fields) => {
            if fields.allocation_length == 0 {
                return Ok(Done::good(alloc));
            }
            report_luns(alloc, luns, fields)
        }
        Err(fault) => Ok(Done::check_condition(alloc, fault.sense())),
    }
}

/// Returns whether the target answers a command with this row for all its units.
fn is_for_target(row: &Option<Row>) -> bool
    ensures { result ≡ is_row_of_target row.now }
{
    match row {
        Some(row) => row.operation.is_of_target(),
        None => false,
    }
}

impl<S: Store + Drop> Units<S> {
    /// Returns a target's units.
    pub fn new(alloc: Global, units: Vec<Unit<S>>) -> Result<Units<S>, Memory>
        ensures { IfOk result (λ made. made ≡ units.items) }
    {
        let used = Buffers::with_places(alloc)?;
        let luns = numbers(alloc, units.as_slice())?;
        Ok(Units {
            units,
            luns,
            used,
            spares: SpareBuffers::new(alloc),
            alloc,
        })
    }
}

impl<S: Store> Units<S> {
    /// Joins a nexus: the power-on attention is pending for it on each unit, and no other, even if it was joined
    /// before. If an allocation fails, nothing changes.
    #[tactic(auto, unfolding(crate::specs::Units::join))]
    pub fn join(&mut self, nexus: &Nexus) -> Result<(), Memory>
        ensures ok { OnOk result (self.new ≡ join nexus.now self.old) }
        ensures err { OnErr result (self.new ≡ self.old) }
    {
        join_each(self.units.as_mut_slice(), nexus)
    }

    /// Removes a nexus, with its attentions.
    #[tactic(auto, unfolding(crate::specs::Units::leave))]
    pub fn leave(&mut self, nexus: &Nexus)
        ensures { self.new ≡ leave nexus.now self.old }
    {
        for unit in self.units.iter_mut() {
            unit.leave(nexus);
        }
    }

    /// Returns the numbers of the units, in their order.
    pub fn luns(&self) -> &[u8]
        ensures { result.now ≡ numbers_of self.now }
    {
        self.luns.as_slice()
    }

    /// Establishes a unit attention for a nexus on the unit that the LUN field names, if it is joined. It allocates
    /// nothing.
    #[tactic(auto, unfolding(crate::specs::Units::raised_at))]
    pub fn raise(&mut self, nexus: &Nexus, lun: [u8; 8], attention: Attention)
        ensures { self.new ≡ raised_at nexus.now lun attention self.old }
    {
        for unit in self.units.iter_mut() {
            unit.raise_at(nexus, lun, attention);
        }
    }

    /// Establishes a unit attention for every nexus that is joined to the unit that the LUN field names. It allocates
    /// nothing.
    #[tactic(auto, unfolding(crate::specs::Units::raised_for_all_at))]
    pub fn raise_for_all(&mut self, lun: [u8; 8], attention: Attention)
        ensures { self.new ≡ raised_for_all_at lun attention self.old }
    {
        for unit in self.units.iter_mut() {
            unit.raise_for_all_at(lun, attention);
        }
    }

    /// Establishes a unit attention for every nexus on every unit. It allocates nothing.
    #[tactic(auto, unfolding(crate::specs::Units::raised_everywhere))]
    pub fn raise_everywhere(&mut self, attention: Attention)
        ensures { self.new ≡ raised_everywhere attention self.old }
    {
        for unit in self.units.iter_mut() {
            unit.raise_for_all(attention);
        }
    }

    /// Keeps a buffer in which a command returned its data, and which has been sent, for the data of another. So room
    /// that was filled once is not filled again. It allocates nothing.
    pub fn give_back(&mut self, buffer: BytesMut)
        ensures { self.new ≡ self.old }
    {
        give_back(&mut self.used, buffer);
    }

    /// Sets the length of the pieces in which the data of the next READs is to lie, in blocks. Each piece lies after room
    /// for the header of a PDU. `None` means that the data lies together. Only the speed of the answers depends on it.
    pub fn lay_out(&mut self, piece: Option<u32>)
        ensures { self.new ≡ self.old }
    {
        self.used.lay_out(piece);
    }

    /// Keeps a buffer in which the data of a command arrived, for that of another.
    pub fn keep_buffer(&mut self, buffer: Vec<u8>)
        ensures { self.new ≡ self.old }
    {
        self.spares.keep(buffer);
    }

    /// Lends the buffers that were kept, until [`Units::return_buffers`] gives them back. It allocates nothing.
    pub fn lend_buffers(&mut self) -> SpareBuffers
        ensures { self.new ≡ self.old }
    {
        mem::replace(&mut self.spares, SpareBuffers::new(self.alloc))
    }

    /// Takes back buffers that were lent.
    pub fn return_buffers(&mut self, spares: SpareBuffers)
        ensures { self.new ≡ self.old }
    {
        self.spares = spares;
    }

    /// Returns whether more buffers were to be kept than there is room for, since the last [`Units::trim`]: it was a busy
    /// time.
    pub fn is_overfull(&self) -> bool {
        self.used.is_overfull() || self.spares.is_overfull()
    }

    /// Frees the buffers that are kept, so that those of a busy time do not stay after it. It allocates nothing.
    pub fn trim(&mut self)
        ensures { self.new ≡ self.old }
    {
        self.used.trim();
        self.spares.trim();
    }

    /// Returns the place of the unit that a LUN names.
    #[tactic(auto, unfolding(crate::specs::Lun::lun_number))]
    fn position(&self, lun: [u8; 8]) -> Option<usize>
        ensures value { result ≡ unit_of self.now (number_of_lun lun) }
        ensures bound { IfSome result (λ at. at < length self.now) }
    {
        let named = Lun::read(lun)?;
        let number = named.number();
        self.units
            .iter()
            .position(|unit| unit.lun.number() == number)
    }

    /// Performs a command with this data on the unit that the LUN names. REPORT LUNS reports all units. It returns at
    /// most 1,048,576 bytes. If an allocation fails, nothing changes.
    #[tactic(auto, unfolding(crate::specs::Units::perform))]
    pub fn perform(
        &mut self,
        nexus: &Nexus,
        lun: [u8; 8],
        cdb: [u8; 16],
        data: &Data,
    ) -> Result<Done, Memory>
        ensures answered { IfOk result (AreAnswered nexus.now cdb «data».now (unit_of self.old (number_of_lun lun)) self.old self.new) }
        ensures came { IfOk result (λ done. (came : CameOut) × ((self.new, done) ≡ come_out came self.old nexus.now lun cdb «data».now)
            × (AreSound self.new → came ≡ AsDefined)) }
        ensures exact { IfOk result (λ done. IsTrusted nexus.now cdb «data».now (unit_of self.old (number_of_lun lun)) self.old self.new
            → (self.new, done) ≡ performed self.old nexus.now lun cdb «data».now) }
        ensures sound { IfOk result (λ done. AreSound self.new → (self.new, done) ≡ performed self.old nexus.now lun cdb «data».now) }
        ensures back { AreSound self.new → AreSound self.old }
        ensures sure { AreSure self.old → AreSure self.new }
        ensures given { IfOk result (λ done. length done.given ≤ most_given) }
        ensures err { OnErr result (self.new ≡ self.old) }
    {
        let Some(at) = self.position(lun) else {
            return without_unit(self.alloc, cdb);
        };
        let row = Row::of(cdb[0]);
        if is_for_target(&row) {
            return reported_luns(self.alloc, self.luns.as_slice(), cdb);
        }
        let unit = &mut self.units[at];
        unit.perform_with(&mut self.used, nexus, row, cdb, data)
    }
}
