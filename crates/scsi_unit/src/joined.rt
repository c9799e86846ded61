//! The nexuses that are joined to a unit.

ghost use Rattle.std.specs.Prelude.{◌≡◌, ◌<◌, ◌↔◌, [], length, map, slice_get, IfSome, IsSomeAnd, IsTrue, OnOk};
ghost use Rattle.scsi_sense.specs.Nexus.{same_nexus};
ghost use Rattle.scsi_unit.specs.Joined.{place_of, newly_joined, with_nexus, without_nexus, told, told_in, raised_where, raised_for, raised_for_others, raised_in, raised_for_all, raised_due};

use scsi_reserve::Due;
use scsi_sense::{Attention, Attentions, Nexus};
use std::alloc::{AllocError, Global};
use std::marker::Model;

/// A nexus that is joined to a unit, and the unit attentions pending for it, in order (SAM-5 "Unit attention
/// condition").
#[derive(Drop)]
pub(crate) struct Joined {
    pub nexus: Nexus,
    pub attentions: Attentions,
}

/// The nexuses that are joined to a unit. Clauses see them as a list, with the room that there is for them.
#[derive(Drop)]
pub(crate) struct JoinedList {
    list: Vec<Joined>,
    /// The place of the nexus that was looked for last. It or the next one is tried first: sessions often send in the
    /// order in which they joined.
    found: usize,
}

impl Model for JoinedList {
    ghost use Rattle.std.specs.Prelude.{vec_capacity};
    ghost use Rattle.scsi_unit.specs.JoinedList.{JoinedState, AreDistinct};

    ghost Value = { JoinedState };

    ghost view = { λ joined. record { items = joined.list.items; room = vec_capacity joined.list } };

    ghost invariant = { λ joined. AreDistinct joined.list.items };
}

impl JoinedList {
    /// Returns the list of no nexus.
    #[tactic(auto, unfolding(crate::specs::JoinedList::AreDistinct))]
    pub fn new(alloc: Global) -> JoinedList
        ensures { result.items ≡ [] }
    {
        JoinedList {
            list: Vec::new(alloc),
            found: 0,
        }
    }

    /// Reserves room for one more.
    pub fn reserve_one(&mut self) -> Result<(), AllocError>
        ensures items { self.new.items ≡ self.old.items }
        ensures room { OnOk result (length self.new.items < self.new.room) }
    {
        self.list.reserve(1)
    }

    /// Returns the place of a nexus. Tries the place of the one looked for last, and then the next, before it searches.
    fn place(&self, nexus: &Nexus) -> Option<usize>
        ensures value { result ≡ place_of nexus.now self.now.items }
        ensures bound { IfSome result (λ at. at < length self.now.items) }
    {
        let joined = self.list.as_slice();
        let next = self.found.wrapping_add(1);
        if stands_at(joined, self.found, nexus) {
            Some(self.found)
        } else if stands_at(joined, next, nexus) {
            Some(next)
        } else {
            position(joined, nexus)
        }
    }

    /// Returns the first attention that is pending for the nexus, which stays pending. Keeps the place of the nexus, so
    /// that it is found there.
    #[tactic(auto, unfolding(crate::specs::Joined::told))]
    pub fn look_for(&mut self, nexus: &Nexus) -> Option<Attention>
        ensures pending { result ≡ (told nexus.now self.old.items).1 }
        ensures same { self.new ≡ self.old }
    {
        let place = self.place(nexus);
        if let Some(at) = place {
            self.found = at;
        }
        pending_at(self.list.as_slice(), place)
    }

    /// Establishes a unit attention for the nexus. It allocates nothing.
    pub fn raise(&mut self, nexus: &Nexus, attention: Attention)
        ensures { self.new.items ≡ raised_for nexus.now attention self.old.items }
    {
        raise(self.list.as_mut_slice(), nexus, attention);
    }

    /// Establishes the unit attention for all but this nexus. It allocates nothing.
    pub fn raise_for_others(&mut self, nexus: &Nexus, attention: Attention)
        ensures { self.new.items ≡ raised_for_others nexus.now attention self.old.items }
    {
        raise_for_others(self.list.as_mut_slice(), nexus, attention);
    }

    /// Establishes the unit attention for every nexus. It allocates nothing.
    pub fn raise_for_all(&mut self, attention: Attention)
        ensures { self.new.items ≡ raised_for_all attention self.old.items }
    {
        raise_for_all(self.list.as_mut_slice(), attention);
    }

    /// Establishes for each of these its unit attention, if it is joined. It allocates nothing.
    pub fn raise_due(&mut self, due: &[Due])
        ensures { self.new.items ≡ raised_due due.now self.old.items }
    {
        raise_due(self.list.as_mut_slice(), due);
    }
}

/// Returns whether the nexus stands at this place.
fn stands_at(joined: &[Joined], at: usize, nexus: &Nexus) -> bool
    ensures { IsTrue result ↔ IsSomeAnd (slice_get joined.now at) (λ j. IsTrue (same_nexus j.nexus nexus.now)) }
{
    at < joined.len() && joined[at].nexus.is_same(nexus)
}

/// Returns the place of a nexus among those that are joined.
fn position(joined: &[Joined], nexus: &Nexus) -> Option<usize>
    ensures value { result ≡ place_of nexus.now joined.now }
    ensures bound { IfSome result (λ at. at < length joined.now) }
{
    joined.iter().position(|j| j.nexus.is_same(nexus))
}

/// Returns an entry of a nexus for which the power-on attention is pending, and no other.
fn entry(nexus: Nexus) -> Joined
    ensures { result ≡ newly_joined nexus }
{
    let mut attentions = Attentions::new();
    attentions.raise(Attention::PowerOnOrReset);
    Joined { nexus, attentions }
}

/// Joins the nexus, with the power-on attention and no other. There is room for one more.
pub(crate) fn join(joined: &mut JoinedList, nexus: Nexus)
    requires { length joined.old.items < joined.old.room }
    ensures { joined.new.items ≡ with_nexus nexus joined.old.items }
{
    match position(joined.list.as_slice(), &nexus) {
        None => joined.list.push_reserved(entry(nexus)),
        Some(at) => joined.list[at] = entry(nexus),
    }
}

/// Removes the nexus, with its attentions.
pub(crate) fn leave(joined: &mut JoinedList, nexus: &Nexus)
    ensures { joined.new.items ≡ without_nexus nexus.now joined.old.items }
{
    if let Some(at) = position(joined.list.as_slice(), nexus) {
        let _ = joined.list.remove(at);
    }
}

/// Returns the first attention that is pending for the nexus, and clears it.
#[tactic(auto, unfolding(crate::specs::Joined::told))]
pub(crate) fn tell(joined: &mut JoinedList, nexus: &Nexus) -> Option<Attention>
    ensures joined { joined.new.items ≡ (told nexus.now joined.old.items).0 }
    ensures attention { result ≡ (told nexus.now joined.old.items).1 }
{
    let at = joined.place(nexus)?;
    let code = joined.list[at].attentions.first()?;
    let entry = &mut joined.list[at];
    entry.attentions.clear_first();
    Some(code)
}

/// Returns the first attention that is pending at a place, where it stays pending.
fn pending_at(joined: &[Joined], place: Option<usize>) -> Option<Attention>
    requires { IfSome place (λ at. at < length joined.now) }
    ensures { result ≡ (told_in joined.now place).1 }
{
    let at = place?;
    joined[at].attentions.first()
}

/// Returns the first attention that is pending for the nexus, which stays pending.
#[tactic(auto, unfolding(crate::specs::Joined::told))]
pub(crate) fn pending(joined: &JoinedList, nexus: &Nexus) -> Option<Attention>
    ensures { result ≡ (told nexus.now joined.now.items).1 }
{
    pending_at(joined.list.as_slice(), joined.place(nexus))
}

impl Joined {
    /// Establishes the attention if this is the nexus, or if it is another, as `is_same` says.
    fn raise_where(&mut self, nexus: &Nexus, is_same: bool, attention: Attention)
        ensures { self.new ≡ raised_where nexus.now is_same attention self.old }
    {
        let is_this = self.nexus.is_same(nexus);
        if if is_same { is_this } else { !is_this } {
            self.attentions.raise(attention);
        }
    }

    /// Establishes the attention.
    fn raise(&mut self, attention: Attention)
        ensures { self.new ≡ raised_in attention self.old }
    {
        self.attentions.raise(attention);
    }
}

/// Establishes an attention for the nexus, or for all others.
fn raise_each(joined: &mut [Joined], nexus: &Nexus, is_same: bool, attention: Attention)
    ensures { joined.new ≡ map (raised_where nexus.now is_same attention) joined.old }
{
    for at in 0..joined.len() {
        let other = &mut joined[at];
        other.raise_where(nexus, is_same, attention);
    }
}

#[tactic(auto, unfolding(crate::specs::Joined::raised_for))]
fn raise(joined: &mut [Joined], nexus: &Nexus, attention: Attention)
    ensures { joined.new ≡ raised_for nexus.now attention joined.old }
{
    raise_each(joined, nexus, true, attention);
}

#[tactic(auto, unfolding(crate::specs::Joined::raised_for_others))]
fn raise_for_others(joined: &mut [Joined], nexus: &Nexus, attention: Attention)
    ensures { joined.new ≡ raised_for_others nexus.now attention joined.old }
{
    raise_each(joined, nexus, false, attention);
}

#[tactic(auto, unfolding(crate::specs::Joined::raised_for_all))]
fn raise_for_all(joined: &mut [Joined], attention: Attention)
    ensures { joined.new ≡ raised_for_all attention joined.old }
{
    for at in 0..joined.len() {
        let other = &mut joined[at];
        other.raise(attention);
    }
}

/// Establishes for each of these its attention, if it is joined.
fn raise_due(joined: &mut [Joined], due: &[Due])
    ensures { joined.new ≡ raised_due due.now joined.old }
{
    let Some((first, others)) = due.split_first() else {
        return;
    };
    raise(joined, &first.nexus, first.attention);
    raise_due(joined, others);
}
