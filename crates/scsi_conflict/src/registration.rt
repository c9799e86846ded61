//! The registrations of a logical unit, and the holder of its reservation.

ghost use Rattle.std.specs.Prelude.{◌≡◌, ◌≤◌, length, map};
ghost use Rattle.scsi_conflict.specs.Registration.{with_key, without_nexus, is_held_by, who_of, ends_with, is_held_with};

use crate::conflict::Who;
use crate::reservation_type::ReservationType;
use scsi_sense::Nexus;

/// A nexus that is registered, and its reservation key (SPC-4 "Registering").
#[derive(Drop)]
pub struct Row {
    pub nexus: Nexus,
    pub key: u64,
}

/// A reservation of the logical unit.
#[derive(Drop)]
pub struct Reservation {
    pub kind: ReservationType,
    /// The nexus that made it. It alone is the holder, unless the type is of all registrants.
    pub holder: Nexus,
}

/// Returns the key that a nexus is registered with, if it is registered.
pub fn own_key(rows: &[Row], nexus: &Nexus) -> Option<u64>
    ensures { result ≡ Rattle.scsi_conflict.specs.Registration.own_key nexus.now rows.now }
{
    for row in rows {
        if row.nexus.is_same(nexus) {
            return Some(row.key);
        }
    }
    None
}

/// Returns whether any nexus is registered with this key.
pub fn has_key(rows: &[Row], key: u64) -> bool
    ensures { result ≡ Rattle.scsi_conflict.specs.Registration.has_key key rows.now }
{
    rows.iter().any(|row| row.key == key)
}

impl Row {
    /// Sets the key, if this is the registration of the nexus.
    fn set_key_of(&mut self, nexus: &Nexus, key: u64)
        ensures { self.new ≡ with_key nexus.now key self.old }
    {
        if self.nexus.is_same(nexus) {
            self.key = key;
        }
    }
}

/// Sets the key of the registration of a nexus.
pub fn set_key(rows: &mut [Row], nexus: &Nexus, key: u64)
    ensures { rows.new ≡ map (with_key nexus.now key) rows.old }
{
    for at in 0..rows.len() {
        let row = &mut rows[at];
        row.set_key_of(nexus, key);
    }
}

/// Removes the registration of a nexus.
pub fn take_out(rows: &mut Vec<Row>, nexus: &Nexus)
    ensures left { rows.new.items ≡ without_nexus nexus.now rows.old.items }
    ensures fewer { length rows.new.items ≤ length rows.old.items }
{
    rows.retain(|row| !row.nexus.is_same(nexus));
}

impl Reservation {
    /// Returns whether a nexus holds it, given the registrations (SPC-4 "Persistent reservation holder").
    pub fn is_held_by(&self, rows: &[Row], nexus: &Nexus) -> bool
        ensures { result ≡ is_held_by nexus.now rows.now self.now }
    {
        if self.kind.is_of_all() {
            own_key(rows, nexus).is_some()
        } else {
            self.holder.is_same(nexus)
        }
    }

    /// Returns the relation of a nexus to it.
    pub fn who(&self, rows: &[Row], nexus: &Nexus) -> Who
        ensures { result ≡ who_of nexus.now rows.now self.now }
    {
        if self.is_held_by(rows, nexus) {
            Who::Holder
        } else if own_key(rows, nexus).is_some() {
            Who::Registrant
        } else {
            Who::Neither
        }
    }

    /// Returns whether it ends with the registration of a nexus, which alone holds it.
    pub fn ends_with(&self, nexus: &Nexus) -> bool
        ensures { result ≡ ends_with nexus.now self.now }
    {
        !self.kind.is_of_all() && self.holder.is_same(nexus)
    }

    /// Returns whether one nexus alone holds it, and is registered with this key.
    pub fn is_held_with(&self, rows: &[Row], key: u64) -> bool
        ensures { result ≡ is_held_with key rows.now self.now }
    {
        if self.kind.is_of_all() {
            return false;
        }
        match own_key(rows, &self.holder) {
            Some(own) => own == key,
            None => false,
        }
    }
}
