//! The registrations and the reservation of a logical unit.

ghost use Rattle.std.specs.Prelude.{◌≡◌, ◌<◌, length, IfOk, OnErr};
ghost use Rattle.scsi_reserve.specs.Table.{empty_table, most_rows, is_allowed};
ghost use Rattle.scsi_reserve.specs.Out.{registered, unregistered, reserved, released, cleared, taken_over, removed, preempted, acted, out_of};

use crate::news::{News, Others};
use crate::outcome::{Ended, Outcome};
use crate::parameter_list::ParameterList;
use crate::request::Request;
use scsi_cdb::{ReservationClass, ServiceAction};
use scsi_conflict::{
    Reservation, ReservationType, Row, allows, has_key, own_key, set_key, take_out,
};
use scsi_sense::{Attention, Condition, Nexus};
use std::alloc::{AllocError, Global};
use std::marker::Model;

/// The most registrations.
const MOST_ROWS: usize = 64;

/// The registrations of a logical unit, in the order in which they were made, and its reservation (SPC-4 "Persistent
/// reservations").
#[derive(Drop)]
pub struct Table {
    pub(crate) rows: Vec<Row>,
    pub(crate) reservation: Option<Reservation>,
    /// PRGENERATION: how often registrations changed, modulo 2^32.
    pub(crate) generation: u32,
    pub(crate) alloc: Global,
}

impl Model for Table {
    ghost use Rattle.std.specs.Prelude.{◌≤◌, length};
    ghost use Rattle.scsi_reserve.specs.Table.{TableState, most_rows};

    ghost Value = { TableState };

    ghost view = { λ t. record { rows = t.rows.items; reservation = t.reservation; generation = t.generation } };

    ghost invariant = { λ t. length t.rows.items ≤ most_rows };
}

impl Table {
    /// Returns a table without registration and reservation. It allocates nothing.
    pub fn new(alloc: Global) -> Table
        ensures { result ≡ empty_table }
    {
        Table {
            rows: Vec::new(alloc),
            reservation: None,
            generation: 0,
            alloc,
        }
    }

    /// Returns whether the reservation allows a nexus a command of this class; otherwise it is a RESERVATION CONFLICT.
    pub fn allows(&self, nexus: &Nexus, class: ReservationClass) -> bool
        ensures { result ≡ is_allowed nexus.now class self.now }
    {
        allows(&self.reservation, self.rows.as_slice(), nexus, class)
    }

    /// Carries out PERSISTENT RESERVE OUT with the SCOPE and TYPE of its command descriptor block, and its parameter
    /// list. The list has as many bytes as PARAMETER LIST LENGTH says. The first rule that refuses it counts, in this
    /// order:
    ///
    /// - the type that RESERVE or RELEASE needs
    /// - the length of the list
    /// - its bits
    /// - the reservation key
    /// - what the action itself refuses
    ///
    /// If an allocation fails, nothing changes.
    #[tactic(auto, unfolding(crate::specs::Out::out_of))]
    pub fn persistent_reserve_out(
        &mut self,
        nexus: &Nexus,
        action: ServiceAction,
        scope: u8,
        code: u8,
        list: &[u8],
    ) -> Result<Outcome, AllocError>
        ensures ok { IfOk result (λ outcome. (self.new, outcome) ≡ out_of action scope code list.now nexus.now self.old) }
        ensures err { OnErr result (self.new ≡ self.old) }
    {
        let request = match Request::new(action, ReservationType::of(scope, code)) {
            Ok(request) => request,
            Err(condition) => return Ok(Outcome::refused(self.alloc, condition)),
        };
        let list = match ParameterList::read(list) {
            Ok(list) => list,
            Err(condition) => return Ok(Outcome::refused(self.alloc, condition)),
        };
        if !request.may_be_asked(own_key(self.rows.as_slice(), nexus), list.key) {
            return Ok(Outcome::new(self.alloc, Ended::ReservationConflict));
        }
        self.act(nexus, request, list.action_key)
    }

    /// Carries out an action that the nexus may request, with the service action reservation key.
    fn act(&mut self, nexus: &Nexus, request: Request, key: u64) -> Result<Outcome, AllocError>
        ensures ok { IfOk result (λ outcome. (self.new, outcome) ≡ acted request key nexus.now self.old) }
        ensures err { OnErr result (self.new ≡ self.old) }
    {
        match request {
            Request::Register | Request::RegisterAndIgnoreExistingKey => {
                if key == 0 {
                    self.unregister(nexus)
                } else {
                    self.register(nexus, key)
                }
            }
            Request::Reserve(kind) => self.reserve(nexus, kind),
            Request::Release(kind) => self.release(nexus, kind),
            Request::Clear => self.clear(nexus),
            Request::Preempt(kind) => self.preempt(nexus, kind, key),
        }
    }

    /// Registers the nexus with this key. A 65th registration is refused.
    #[tactic(auto, unfolding(crate::specs::Out::registered))]
    fn register(&mut self, nexus: &Nexus, key: u64) -> Result<Outcome, AllocError>
        ensures ok { IfOk result (λ outcome. (self.new, outcome) ≡ registered key nexus.now self.old) }
        ensures err { OnErr result (self.new ≡ self.old) }
    {
        if own_key(self.rows.as_slice(), nexus).is_some() {
            set_key(self.rows.as_mut_slice(), nexus, key);
        } else if self.rows.len() < MOST_ROWS {
            let nexus = nexus.clone()?;
            self.rows.push(Row { nexus, key })?;
        } else {
            let condition = Condition::InsufficientRegistrationResources;
            return Ok(Outcome::refused(self.alloc, condition));
        }
        self.generation = self.generation.wrapping_add(1);
        Ok(Outcome::new(self.alloc, Ended::Good))
    }

    /// Removes the registration of the nexus, and the reservation if the nexus alone holds it, or if no registrant is
    /// left.
    #[tactic(auto, unfolding(crate::specs::Out::unregistered))]
    fn unregister(&mut self, nexus: &Nexus) -> Result<Outcome, AllocError>
        ensures ok { IfOk result (λ outcome. (self.new, outcome) ≡ unregistered nexus.now self.old) }
        ensures err { OnErr result (self.new ≡ self.old) }
    {
        let news = News::to_all(Attention::ReservationsReleased);
        let (ends, is_told) = match &self.reservation {
            Some(reservation) => {
                let ends = reservation.ends_with(nexus);
                (ends, ends && reservation.kind.is_of_registrants())
            }
            None => (false, false),
        };
        let due = if is_told {
            news.due(self.alloc, self.rows.as_slice(), nexus)?
        } else {
            Vec::new(self.alloc)
        };
        take_out(&mut self.rows, nexus);
        if ends || self.rows.is_empty() {
            self.reservation = None;
        }
        self.generation = self.generation.wrapping_add(1);
        Ok(Outcome::good(due))
    }

    /// Reserves the unit for the nexus with this type; it may hold the same reservation already.
    #[tactic(auto, unfolding(crate::specs::Out::reserved))]
    fn reserve(&mut self, nexus: &Nexus, kind: ReservationType) -> Result<Outcome, AllocError>
        ensures ok { IfOk result (λ outcome. (self.new, outcome) ≡ reserved kind nexus.now self.old) }
        ensures err { OnErr result (self.new ≡ self.old) }
    {
        let Some(reservation) = &self.reservation else {
            let holder = nexus.clone()?;
            self.reservation = Some(Reservation { kind, holder });
            return Ok(Outcome::new(self.alloc, Ended::Good));
        };
        let is_held = reservation.is_held_by(self.rows.as_slice(), nexus);
        let ended = if is_held && reservation.kind.is_same(kind) {
            Ended::Good
        } else {
            Ended::ReservationConflict
        };
        Ok(Outcome::new(self.alloc, ended))
    }

    /// Releases the reservation, if the nexus holds it with this type.
    #[tactic(auto, unfolding(crate::specs::Out::released))]
    fn release(&mut self, nexus: &Nexus, kind: ReservationType) -> Result<Outcome, AllocError>
        ensures ok { IfOk result (λ outcome. (self.new, outcome) ≡ released kind nexus.now self.old) }
        ensures err { OnErr result (self.new ≡ self.old) }
    {
        let Some(reservation) = &self.reservation else {
            return Ok(Outcome::new(self.alloc, Ended::Good));
        };
        if !reservation.is_held_by(self.rows.as_slice(), nexus) {
            return Ok(Outcome::new(self.alloc, Ended::Good));
        }
        if !reservation.kind.is_same(kind) {
            let condition = Condition::InvalidReleaseOfPersistentReservation;
            return Ok(Outcome::refused(self.alloc, condition));
        }
        let due = if kind.is_of_registrants() {
            let news = News::to_all(Attention::ReservationsReleased);
            news.due(self.alloc, self.rows.as_slice(), nexus)?
        } else {
            Vec::new(self.alloc)
        };
        self.reservation = None;
        Ok(Outcome::good(due))
    }

    /// Removes all registrations and the reservation.
    #[tactic(auto, unfolding(crate::specs::Out::cleared))]
    fn clear(&mut self, nexus: &Nexus) -> Result<Outcome, AllocError>
        ensures ok { IfOk result (λ outcome. (self.new, outcome) ≡ cleared nexus.now self.old) }
        ensures err { OnErr result (self.new ≡ self.old) }
    {
        let news = News::to_all(Attention::ReservationsPreempted);
        let due = news.due(self.alloc, self.rows.as_slice(), nexus)?;
        self.rows.clear();
        self.reservation = None;
        self.generation = self.generation.wrapping_add(1);
        Ok(Outcome::good(due))
    }

    /// Removes the other registrations with a key, or all others if the key is 0 and all registrants hold the
    /// reservation. If that preempts the reservation, the nexus then holds one of this type.
    #[tactic(auto, unfolding(crate::specs::Out::preempted))]
    fn preempt(
        &mut self,
        nexus: &Nexus,
        kind: Option<ReservationType>,
        key: u64,
    ) -> Result<Outcome, AllocError>
        ensures ok { IfOk result (λ outcome. (self.new, outcome) ≡ preempted kind key nexus.now self.old) }
        ensures err { OnErr result (self.new ≡ self.old) }
    {
        let rows = self.rows.as_slice();
        let (is_of_all, is_held_with) = match &self.reservation {
            Some(reservation) => (
                reservation.kind.is_of_all(),
                reservation.is_held_with(rows, key),
            ),
            None => (false, false),
        };
        if key == 0 {
            if is_of_all {
                self.take_over(nexus, kind, Others::All)
            } else {
                let condition = Condition::InvalidFieldInParameterList;
                Ok(Outcome::refused(self.alloc, condition))
            }
        } else if is_held_with {
            self.take_over(nexus, kind, Others::WithKey(key))
        } else if has_key(rows, key) {
            self.remove(nexus, Others::WithKey(key))
        } else {
            Ok(Outcome::new(self.alloc, Ended::ReservationConflict))
        }
    }

    /// Removes these registrations, after which the nexus holds a reservation of this type.
    #[tactic(auto, unfolding(crate::specs::Out::taken_over))]
    fn take_over(
        &mut self,
        nexus: &Nexus,
        kind: Option<ReservationType>,
        others: Others,
    ) -> Result<Outcome, AllocError>
        ensures ok { IfOk result (λ outcome. (self.new, outcome) ≡ taken_over kind others nexus.now self.old) }
        ensures err { OnErr result (self.new ≡ self.old) }
    {
        let Some(kind) = kind else {
            return Ok(Outcome::refused(self.alloc, Condition::InvalidFieldInCdb));
        };
        let rest = match &self.reservation {
            Some(reservation) if !reservation.kind.is_same(kind) => {
                Some(Attention::ReservationsReleased)
            }
            _ => None,
        };
        let told = Attention::RegistrationsPreempted;
        let news = News { others, told, rest };
        let due = news.due(self.alloc, self.rows.as_slice(), nexus)?;
        let holder = nexus.clone()?;
        others.take_out(&mut self.rows, nexus);
        self.reservation = Some(Reservation { kind, holder });
        self.generation = self.generation.wrapping_add(1);
        Ok(Outcome::good(due))
    }

    /// Removes these registrations, and keeps the reservation.
    #[tactic(auto, unfolding(crate::specs::Out::removed))]
    fn remove(&mut self, nexus: &Nexus, others: Others) -> Result<Outcome, AllocError>
        ensures ok { IfOk result (λ outcome. (self.new, outcome) ≡ removed others nexus.now self.old) }
        ensures err { OnErr result (self.new ≡ self.old) }
    {
        let told = Attention::RegistrationsPreempted;
        let news = News {
            others,
            told,
            rest: None,
        };
        let due = news.due(self.alloc, self.rows.as_slice(), nexus)?;
        others.take_out(&mut self.rows, nexus);
        self.generation = self.generation.wrapping_add(1);
        Ok(Outcome::good(due))
    }
}
