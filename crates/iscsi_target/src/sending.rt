//! Sending what waits on the connections.

ghost use Rattle.std.specs.Prelude.{◌≡◌, ◌<◌, ◌≤◌, ◌+◌, ◌++◌, ℕ, true, length, take, IfSome, IfNone, OnOk};
ghost use Rattle.iscsi_login.specs.LoginState.{IsTargetBelow};
ghost use Rattle.iscsi_outbox.specs.Offered.{EndsPdu};
ghost use Rattle.iscsi_world.specs.Bounded.{Bounded};
ghost use Rattle.iscsi_world.specs.History.{History};
ghost use Rattle.iscsi_world.specs.World.{Setting};
ghost use Rattle.iscsi_world.specs.Machine.{ReflectsSoundness, IsSure, sent_link, link_at, with_link, target_in, is_silent, is_open_at};
ghost use Rattle.iscsi_world.specs.Stands.{Stands, with_sent};

use crate::target::Target;
use bytes::BytesMut;
use iscsi_connection::MOST_ROOM_KEPT;
use media_store::Store;
use target_limits::{CONNECTIONS, Memory};

impl<S: Store> Target<S> {
    /// Returns the bytes to be sent next on a connection, as many as are contiguous. They are a prefix of all that
    /// waits that ends where a PDU does, empty only if nothing waits.
    pub fn out(&self, c: usize) -> &[u8]
        requires in_range { c < 64 }
        requires open { is_open_at self.now c ≡ true }
        ensures front { result.now ≡ take (length result.now) (link_at self.now c).waiting }
        ensures some { 0 < length (link_at self.now c).waiting → 0 < length result.now }
        ensures within { length result.now ≤ length (link_at self.now c).waiting }

        // Whole PDUs wait after it, so it has at least all that is left of the first one.
        ensures ends { EndsPdu (link_at self.now c).waiting result.now }
    {
        self.connections.at(c).out()
    }

    /// Appends all that waits on a connection. Appends nothing if it is not open.
    pub(crate) fn copy_out(&self, c: usize, bytes: &mut Vec<u8>) -> Result<(), Memory>
        ensures { OnOk result (bytes.new.items ≡ bytes.old.items ++ (link_at self.now c).waiting) }
    {
        if let Some(connection) = self.connections.as_slice().get(c) {
            connection.copy_to(bytes)?;
        }
        Ok(())
    }

    /// Records that `n` bytes were sent from the front of what waits on a connection.
    pub fn sent(&mut self, c: usize, n: usize)
        requires in_range { c < 64 }
        requires open { is_open_at self.old c ≡ true }
        requires waits { n ≤ length (link_at self.old c).waiting }
        ensures now { self.new ≡ with_link self.old c (sent_link (link_at self.old c) n) }
        ensures each { ReflectsSoundness self.old self.new }
        ensures sure { IsSure self.old → IsSure self.new }
        ensures always { (s : Setting) (sent : ℕ → ℕ) (h : History) → Stands s sent self.old h → Stands s (with_sent sent c (sent c + n)) self.new h }
        ensures bounded { Bounded self.old → Bounded self.new }
    {
        self.advance(c, n);
        self.note(c);
        self.trim(c);
    }

    /// Removes `n` bytes from the front of what waits on a connection. A data buffer that was sent completely is used
    /// again.
    fn advance(&mut self, c: usize, n: usize)
        requires in_range { c < 64 }
        requires waits { n ≤ length (link_at self.old c).waiting }
        ensures sent { self.new ≡ with_link self.old c (sent_link (link_at self.old c) n) }
        ensures count { length self.old.links ≡ 64 }
    {
        let target = self.home(c);
        let mut unsent = n;
        while unsent > 0 {
            let skipped = self.skip_front(c, unsent);
            self.give_back(target, skipped.1);
            unsent -= skipped.0;
        }
    }

    /// Returns the target of a connection's session, if it has one. It is one of this target's.
    #[tactic(auto, using(iscsi_world::proofs::Sent::target_below))]
    pub(crate) fn home(&self, c: usize) -> Option<usize>
        requires { c < 64 }
        ensures value { result ≡ target_in (link_at self.now c).phase }
        ensures below { IsTargetBelow (length self.now.units) result }
        ensures count { length self.now.links ≡ 64 }
    {
        self.connections.at(c).target()
    }

    /// Removes up to `n` sent bytes from the front of a connection, as many as were contiguous. Returns their number,
    /// and the buffer of a command's data if all of it was sent.
    fn skip_front(&mut self, c: usize, n: usize) -> (usize, Option<BytesMut>)
        requires in_range { c < 64 }
        requires waits { n ≤ length (link_at self.old c).waiting }
        ensures within { result.0 ≤ n }
        ensures some { 0 < n → 0 < result.0 }
        ensures sent { self.new ≡ with_link self.old c (sent_link (link_at self.old c) result.0) }
        ensures count { length self.old.links ≡ 64 }
    {
        let connection = self.connections.at_mut(c);
        connection.skip_front(n)
    }

    /// Gives a buffer back to the units of a target, if both are given.
    #[tactic(auto, using(iscsi_world::proofs::Sent::same_units))]
    fn give_back(&mut self, target: Option<usize>, buffer: Option<BytesMut>)
        requires { IsTargetBelow (length self.old.units) target }
        ensures { self.new ≡ self.old }
    {
        let Some(target) = target else {
            return;
        };
        let Some(buffer) = buffer else {
            return;
        };
        let units = &mut self.units[target];
        units.give_back(buffer);
    }

    /// Clears the busy flag of the connection if it is silent.
    fn note(&mut self, c: usize)
        requires { c < 64 }
        ensures { self.new ≡ self.old }
    {
        self.connections.note(c);
    }

    /// Releases what is not needed, after bytes were sent on a connection.
    fn trim(&mut self, c: usize)
        requires { c < 64 }
        ensures { self.new ≡ self.old }
    {
        self.trim_next();
        self.trim_quiet(c);
    }

    /// Releases unneeded room of one connection, the next one in turn at each call. So an idle connection does not
    /// keep what its largest answer took.
    fn trim_next(&mut self)
        ensures { self.new ≡ self.old }
    {
        let c = self.resting % CONNECTIONS;
        self.resting = c + 1;
        self.connections.trim(self.alloc, c, MOST_ROOM_KEPT);
    }

    /// Releases what a busy time has left, once a connection is quiet: its room, and the buffers of its target's units
    /// if all connections are quiet. What was allocated at such a time may lie above much memory that is freed after it,
    /// which the C library gives back to the system only from its end.
    fn trim_quiet(&mut self, c: usize)
        requires { c < 64 }
        ensures { self.new ≡ self.old }
    {
        let Some(target) = self.home(c) else {
            return;
        };
        if !self.units[target].is_overfull() || !self.connections.at(c).is_quiet() {
            return;
        }
        self.connections.trim(self.alloc, c, 0);
        if self.connections.are_quiet() {
            self.trim_units(target);
        }
    }

    /// Frees the buffers that the units of a target keep.
    #[tactic(auto, using(iscsi_world::proofs::Sent::same_units))]
    fn trim_units(&mut self, target: usize)
        requires { target < length self.old.units }
        ensures { self.new ≡ self.old }
    {
        let units = &mut self.units[target];
        units.trim();
    }

    /// Returns whether nothing waits to be sent on the connection and it is not closing.
    pub fn is_silent(&self, c: usize) -> bool
        requires { c < 64 }
        ensures { result ≡ is_silent (link_at self.now c) }
    {
        self.connections.is_silent(c)
    }

    /// Notes that bytes wait on an open connection, and that the last write took none of them: its peer takes none, or the
    /// ports put it off.
    pub fn note_stalled(&mut self, c: usize)
        requires in_range { c < 64 }
        requires open { is_open_at self.old c ≡ true }
        requires waits { 0 < length (link_at self.old c).waiting }
        ensures { self.new ≡ self.old }
    {
        self.connections.note_stalled(c);
    }

    /// Returns whether the connection was noted as stalled since its last change: it is open, and bytes wait.
    pub fn is_stalled(&self, c: usize) -> bool
        requires { c < 64 }
        ensures open { result ≡ true → is_open_at self.now c ≡ true }
        ensures waits { result ≡ true → 0 < length (link_at self.now c).waiting }
    {
        self.connections.is_stalled(c)
    }

    /// Notes whether more than 1,048,576 bytes wait on the connection, so that they are not counted again until it changes.
    pub fn note_full(&mut self, c: usize)
        requires { c < 64 }
        ensures { self.new ≡ self.old }
    {
        self.connections.note_full(c);
    }

    /// Returns the next connection, from `from` on, to be looked at for bytes to send or for its end. On each one
    /// that is skipped nothing waits, and it is not closing.
    pub fn next_busy(&self, from: usize) -> Option<usize>
        ensures found { IfSome result (λ c. (from ≤ c) × (c < 64)) }
        ensures before { IfSome result (λ c. (d : ℕ) → from ≤ d → d < c → is_silent (link_at self.now d) ≡ true) }
        ensures none { IfNone result ((d : ℕ) → from ≤ d → d < 64 → is_silent (link_at self.now d) ≡ true) }
    {
        self.connections.next_busy(from)
    }
}
