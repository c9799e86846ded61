//! A frame of a session is judged, and the requests that it lets be taken act. Then the commands that the sessions of
//! its target have taken are done.

ghost use Rattle.std.specs.Prelude.{◌≡◌, ◌<◌, [], Some, true, length};
ghost use Rattle.iscsi_connection.specs.Arriving.{frame_of, MayServe};
ghost use Rattle.iscsi_login.specs.LoginState.{IsTargetBelow};
ghost use Rattle.scsi_unit.specs.Units.{numbers_of};
ghost use Rattle.iscsi_world.specs.World.{units_at};
ghost use Rattle.iscsi_world.specs.Machine.{link_at, with_link, target_in, is_in_session};
ghost use Rattle.iscsi_world.specs.Serving.{TakesFrame, Settles, SettlesFor, SettlesOne, StaysWithin, first_starved, first_of};
ghost use Rattle.iscsi_world.specs.SessionCalls.{ServesSession, SettlesSession, ChangesOne};

use crate::target::Target;
use crate::task_management::luns_of;
use iscsi_connection::Arrived;
use iscsi_pdu::Header;
use iscsi_world::Starved;
use media_store::Store;
use target_limits::Memory;

/// Returns the failure of the connection that was closed first, if any was.
pub(crate) fn earlier_of(
    earlier: Result<(), Starved>,
    later: Result<(), Starved>,
) -> Result<(), Starved>
    ensures { first_starved result ≡ first_of (first_starved earlier) (first_starved later) }
{
    earlier?;
    later
}

impl<S: Store> Target<S> {
    /// Performs and answers the commands that the sessions of a target have taken, session by session. If an
    /// allocation fails, its session is closed, and the others go on.
    pub(crate) fn settle(&mut self, target: usize) -> Result<(), Starved>
        requires { target < length self.old.units }
        ensures settles { Settles target (first_starved result) self.old self.new }
        ensures stays { StaysWithin (Some target) (first_starved result) self.old self.new }
    {
        let mut outcome = Ok(());
        let mut from = 0;
        while let Some(c) = self.next_unsettled(from) {
            let settled = self.settle_one(c, target);
            outcome = earlier_of(outcome, settled);
            from = c + 1;
        }
        outcome
    }

    /// Settles the sessions of this target, if one is given.
    pub(crate) fn settle_for(&mut self, target: Option<usize>) -> Result<(), Starved>
        requires { IsTargetBelow (length self.old.units) target }
        ensures settles { SettlesFor target (first_starved result) self.old self.new }
        ensures stays { StaysWithin target (first_starved result) self.old self.new }
    {
        match target {
            Some(target) => self.settle(target),
            None => Ok(()),
        }
    }

    /// Performs and answers the commands that a connection's session has taken, if it is with this target. If an
    /// allocation fails, the session is closed.
    fn settle_one(&mut self, c: usize, target: usize) -> Result<(), Starved>
        requires in_range { c < 64 }
        requires target { target < length self.old.units }
        ensures settles { SettlesOne target c (first_starved result) self.old self.new }
        ensures stays { StaysWithin (Some target) (first_starved result) self.old self.new }
    {
        if !self.is_with(c, target) {
            return Ok(());
        }
        let goes_on = self.settle_session(c, target);
        self.end_unless(c, goes_on)
    }

    /// Performs and answers the commands that a connection's session has taken. Returns whether the session goes on.
    fn settle_session(&mut self, c: usize, target: usize) -> Result<bool, Memory>
        requires in_range { c < 64 }
        requires target { target < length self.old.units }
        ensures changes { ChangesOne c (Some target) self.old self.new }
        ensures calls { SettlesSession result (units_at (Some target) self.old.units) (units_at (Some target) self.new.units)
            (link_at self.old c) (link_at self.new c) }
        ensures count { length self.old.links ≡ 64 }
    {
        let units = &mut self.units[target];
        let connection = self.connections.at_mut(c);
        connection.settle(self.alloc, units)
    }

    /// Serves a PDU of a session: it is judged and acts, and then its target's sessions are settled. If an
    /// allocation fails, that connection is closed, as if just before one of the frame's steps.
    pub(crate) fn serve(&mut self, c: usize, arrived: Arrived) -> Result<(), Starved>
        requires in_range { c < 64 }
        requires session { is_in_session (link_at self.old c).phase ≡ true }
        requires alone { (link_at self.old c).half ≡ [] }
        requires serves { MayServe (link_at self.old c).phase arrived }
        ensures { TakesFrame c (frame_of arrived) (first_starved result) self.old self.new }
    {
        let target = self.target_at(c);
        let mut orders = Vec::new(self.alloc);
        let goes_on = self.serve_session(c, target, arrived, &mut orders);
        let served = self.end_unless(c, goes_on);
        self.carry_out_for(c, target, orders.as_slice());
        let settled = self.settle_for(target);
        earlier_of(served, settled)
    }

    /// Judges a PDU, and lets the requests act that it lets be taken. Returns whether the session goes on.
    fn serve_session(
        &mut self,
        c: usize,
        target: Option<usize>,
        arrived: Arrived,
        orders: &mut Vec<Header>,
    ) -> Result<bool, Memory>
        requires in_range { c < 64 }
        requires own { target ≡ target_in (link_at self.old c).phase }
        requires alone { (link_at self.old c).half ≡ [] }
        requires serves { MayServe (link_at self.old c).phase arrived }
        requires fresh { orders.old.items ≡ [] }
        ensures changes { self.new ≡ with_link self.old c (link_at self.new c) }
        ensures calls { ServesSession result (frame_of arrived) (numbers_of (units_at target self.old.units)) orders.new.items
            (link_at self.old c) (link_at self.new c) }
        ensures below { IsTargetBelow (length self.old.units) target }
        ensures count { length self.old.links ≡ 64 }
    {
        let luns = luns_of(self.units.as_slice(), target);
        let connection = self.connections.at_mut(c);
        connection.serve(arrived, luns, orders)
    }
}
