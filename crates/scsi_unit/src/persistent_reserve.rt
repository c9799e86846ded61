//! PERSISTENT RESERVE IN and PERSISTENT RESERVE OUT.

ghost use Rattle.std.specs.Prelude.{◌≡◌, ◌≤◌, [], length, IfOk, OnErr};
ghost use Rattle.scsi_unit.specs.Device.{store_of};
ghost use Rattle.scsi_disk.specs.DiskCommands.{most_given};
ghost use Rattle.scsi_unit.specs.PersistentReserve.{reserve_in_outcome, ended_outcome, reserved_out};

use crate::unit::Unit;
use media_store::Store;
use scsi_cdb::{ReserveInFields, ReserveOutFields};
use scsi_disk::done_with_front;
use scsi_reserve::{Ended, Table};
use scsi_sense::{Done, Nexus, Sense};
use std::alloc::Global;
use target_limits::Memory;

/// Carries out PERSISTENT RESERVE IN of a table.
#[tactic(auto, unfolding(crate::specs::PersistentReserve::reserve_in_outcome))]
pub(crate) fn reserve_in(
    alloc: Global,
    table: &Table,
    fields: ReserveInFields,
) -> Result<Done, Memory>
    ensures done { IfOk result (λ done. done ≡ reserve_in_outcome fields table.now) }
    ensures given { IfOk result (λ done. length done.given ≤ most_given) }
{
    if fields.allocation_length == 0 {
        return Ok(Done::good(alloc));
    }
    let data = table.read_in(fields.action)?;
    done_with_front(alloc, data.as_slice(), u32::from(fields.allocation_length))
}

/// Reports how PERSISTENT RESERVE OUT ended. It allocates nothing.
fn ended(alloc: Global, list_length: u32, ended: Ended) -> Done
    ensures { result ≡ ended_outcome list_length ended }
{
    match ended {
        Ended::Good => Done::good_taking(alloc, list_length),
        Ended::ReservationConflict => Done::reservation_conflict(alloc),
        Ended::CheckCondition(condition) => Done::check_condition(alloc, Sense::new(condition)),
    }
}

impl<S: Store> Unit<S> {
    /// Carries out PERSISTENT RESERVE OUT with this data, which has the parameter list. Unit attentions are established
    /// for the others that it concerns. If an allocation fails, nothing changes.
    #[tactic(auto, unfolding(crate::specs::PersistentReserve::reserved_out))]
    pub(crate) fn reserve_out(
        &mut self,
        nexus: &Nexus,
        fields: ReserveOutFields,
        data: &[u8],
    ) -> Result<Done, Memory>
        requires { fields.list_length ≤ length «data».now }
        ensures done { IfOk result (λ done. (self.new, done) ≡ reserved_out nexus.now «data».now self.old fields) }
        ensures store { store_of self.new.device ≡ store_of self.old.device }
        ensures given { IfOk result (λ done. done.given ≡ []) }
        ensures err { OnErr result (self.new ≡ self.old) }
    {
        let list = &data[..fields.list_length as usize];
        let outcome = self
            .reservations
            .persistent_reserve_out(nexus, fields.action, fields.scope, fields.code, list)?;
        self.joined.raise_due(outcome.due.as_slice());
        Ok(ended(self.alloc, fields.list_length, outcome.ended))
    }
}
