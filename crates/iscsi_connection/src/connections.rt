//! All connections, and what is known of each since its last change: that it is settled, silent or stalled, or whether it is
//! full.

ghost use Rattle.std.specs.Prelude.{◌≡◌, ◌<◌, ◌≤◌, ℕ, All, true, not, length, replicate, slice_index_or, slice_set, IfOk, IfSome, IfNone};
ghost use Rattle.std.specs.Borrow.{sem};
ghost use Rattle.iscsi_connection.specs.Connections.{is_full};
ghost use Rattle.iscsi_connection.specs.Lending.{LendsLink};
ghost use Rattle.iscsi_world.specs.Machine.{free_link, is_free, is_settled, is_silent};

use crate::connection::Connection;
use crate::number_set::NumberSet;
use std::alloc::Global;
use std::marker::Model;
use target_limits::{CONNECTIONS, Memory};

/// The connections by number. Clauses see them as a list.
///
/// Most connections are silent and settled at most times. One that was found so is skipped until it is borrowed mutably.
#[derive(Drop)]
pub struct Connections {
    items: Vec<Connection>,
    /// A superset of the connections whose sessions have something to settle.
    unsettled: NumberSet,
    /// A superset of the connections that are closing or have bytes to send.
    busy: NumberSet,
    /// A superset of the connections that are not open or have no bytes to send.
    unstalled: NumberSet,
    /// A superset of the connections of which it is not known whether they are full.
    uncounted: NumberSet,
    /// Which of the others are full.
    full: NumberSet,
}

impl Model for Connections {
    ghost use Rattle.std.specs.Prelude.{◌≡◌, length, List};
    ghost use Rattle.iscsi_connection.specs.Connections.{IsTrueOfOthers, IsKnownOfOthers, has_to_send, is_full};
    ghost use Rattle.iscsi_world.specs.Machine.{LinkState, is_settled, is_silent};

    ghost Value = { List LinkState };

    ghost view = { λ l. l.items.items };

    ghost invariant = { λ l. (length l.items.items ≡ 64) × IsTrueOfOthers (λ (link : LinkState). is_settled link.phase) l.unsettled l.items.items
        × IsTrueOfOthers is_silent l.busy l.items.items × IsTrueOfOthers has_to_send l.unstalled l.items.items
        × IsKnownOfOthers is_full l.uncounted l.full l.items.items };
}

/// Returns all connections, none of them open.
fn free_connections(alloc: Global) -> Result<Vec<Connection>, Memory>
    ensures { IfOk result (λ connections. connections.items ≡ replicate 64 free_link) }
{
    let mut connections = Vec::with_capacity(alloc, CONNECTIONS)?;
    for _ in 0..CONNECTIONS {
        connections.push(Connection::free(alloc))?;
    }
    Ok(connections)
}

impl Connections {
    /// Returns all connections, none of them open.
    pub fn free(alloc: Global) -> Result<Connections, Memory>
        ensures { IfOk result (λ connections. connections ≡ replicate 64 free_link) }
    {
        let items = free_connections(alloc)?;
        Ok(Connections {
            items,
            unsettled: NumberSet::all(),
            busy: NumberSet::all(),
            unstalled: NumberSet::all(),
            uncounted: NumberSet::all(),
            full: NumberSet::all(),
        })
    }

    /// Returns all connections in the order of their numbers.
    #[inline]
    pub fn as_slice(&self) -> &[Connection]
        ensures value { result.now ≡ self.now }
    {
        self.items.as_slice()
    }

    /// Returns the connection with this number.
    #[inline]
    pub fn at(&self, c: usize) -> &Connection
        requires { c < 64 }
        ensures { result.now ≡ slice_index_or self.now c free_link }
    {
        &self.items[c]
    }

    /// Borrows the connection with this number mutably, and marks it as changed: it is not known any more to be idle,
    /// stalled or full.
    #[inline]
    pub fn at_mut(&mut self, c: usize) -> &mut Connection
        requires { c < 64 }
        ensures* writes_back { sem 𝓛 (LendsLink self.entry c result) }
        ensures value { result.now ≡ slice_index_or self.old c result.now }
    {
        self.unsettled.insert(c);
        self.busy.insert(c);
        self.unstalled.insert(c);
        self.uncounted.insert(c);
        &mut self.items[c]
    }

    /// Replaces the connection with this number.
    pub fn put(&mut self, c: usize, connection: Connection)
        requires { c < 64 }
        ensures { self.new ≡ slice_set self.old c connection }
    {
        *self.at_mut(c) = connection;
    }

    /// Returns the lowest number, from `from` on, of a connection whose session has a command that can be done.
    pub fn next_unsettled(&mut self, from: usize) -> Option<usize>
        ensures same { self.new ≡ self.old }
        ensures found { IfSome result (λ c. (from ≤ c) × (c < 64)) }
        ensures before { IfSome result (λ c. (d : ℕ) → from ≤ d → d < c → is_settled (slice_index_or self.old d free_link).phase ≡ true) }
        ensures none { IfNone result ((d : ℕ) → from ≤ d → d < 64 → is_settled (slice_index_or self.old d free_link).phase ≡ true) }
    {
        let mut at = from;
        while let Some(c) = self.unsettled.next_from(at) {
            if !self.items[c].is_settled() {
                return Some(c);
            }
            self.unsettled.remove(c);
            at = c + 1;
        }
        None
    }

    /// Returns whether nothing waits to be sent on the connection and it is not closing.
    #[inline]
    pub fn is_silent(&self, c: usize) -> bool
        requires { c < 64 }
        ensures { result ≡ is_silent (slice_index_or self.now c free_link) }
    {
        !self.busy.contains(c) || self.items[c].is_silent()
    }

    /// Returns the next connection, from `from` on, that may be busy. On each one that is skipped nothing waits to be
    /// sent, and it is not closing.
    #[inline]
    pub fn next_busy(&self, from: usize) -> Option<usize>
        ensures found { IfSome result (λ c. (from ≤ c) × (c < 64)) }
        ensures before { IfSome result (λ c. (d : ℕ) → from ≤ d → d < c → is_silent (slice_index_or self.now d free_link) ≡ true) }
        ensures none { IfNone result ((d : ℕ) → from ≤ d → d < 64 → is_silent (slice_index_or self.now d free_link) ≡ true) }
    {
        self.busy.next_from(from)
    }

    /// Notes that bytes wait on a connection of which the last write took none.
    #[inline]
    #[tactic(auto, using(crate::proofs::Marked::is_to_send))]
    pub fn note_stalled(&mut self, c: usize)
        requires in_range { c < 64 }
        requires open { not (is_free (slice_index_or self.old c free_link).phase) ≡ true }
        requires waits { 0 < length (slice_index_or self.old c free_link).waiting }
        ensures { self.new ≡ self.old }
    {
        self.unstalled.remove(c);
    }

    /// Returns whether the connection was noted as stalled since its last change: it is open, and bytes wait.
    #[inline]
    #[tactic(auto, using(crate::proofs::Marked::stalled_open, crate::proofs::Marked::stalled_waits))]
    pub fn is_stalled(&self, c: usize) -> bool
        requires { c < 64 }
        ensures open { result ≡ true → not (is_free (slice_index_or self.now c free_link).phase) ≡ true }
        ensures waits { result ≡ true → 0 < length (slice_index_or self.now c free_link).waiting }
    {
        !self.unstalled.contains(c)
    }

    /// Notes whether the connection is full, unless that is known.
    pub fn note_full(&mut self, c: usize)
        requires { c < 64 }
        ensures { self.new ≡ self.old }
    {
        if !self.uncounted.contains(c) {
            return;
        }
        if self.items[c].is_full() {
            self.full.insert(c);
        } else {
            self.full.remove(c);
        }
        self.uncounted.remove(c);
    }

    /// Returns whether more than 1,048,576 bytes wait on the connection, so that it is not to be read.
    #[inline]
    pub fn is_full(&self, c: usize) -> bool
        requires { c < 64 }
        ensures { result ≡ is_full (slice_index_or self.now c free_link) }
    {
        if self.uncounted.contains(c) {
            return self.items[c].is_full();
        }
        self.full.contains(c)
    }

    /// Clears the busy flag if the connection is silent: nothing waits to be sent, and it is not closing.
    pub fn note(&mut self, c: usize)
        requires { c < 64 }
        ensures { self.new ≡ self.old }
    {
        if self.items[c].is_silent() {
            self.busy.remove(c);
        }
    }

    /// Releases room of more than `most` bytes that the connection does not need.
    pub fn trim(&mut self, alloc: Global, c: usize, most: usize)
        requires { c < 64 }
        ensures { self.new ≡ self.old }
    {
        self.items[c].trim(alloc, most);
        self.note(c);
    }

    /// Returns whether nothing waits to be sent on any connection, and no session has an unfinished request.
    pub fn are_quiet(&self) -> bool
        ensures { result ≡ true → All (λ link. length link.waiting ≡ 0) self.now }
    {
        for connection in &self.items {
            if !connection.is_quiet() {
                return false;
            }
        }
        true
    }
}
