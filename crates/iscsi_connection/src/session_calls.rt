//! The calls on the session of a connection: it serves a frame, performs its commands, and loses commands to the
//! function of another session. A connection without a session does nothing.

ghost use Rattle.std.specs.Prelude.{◌≡◌, ◌++◌, ℕ, List, [], None, true, false, IfOk, OnErr};
ghost use Rattle.scsi_unit.specs.Units.{numbers_of};
ghost use Rattle.iscsi_login.specs.Values.{AreInRange};
ghost use Rattle.iscsi_session.specs.Comings.{TargetUnits};
ghost use Rattle.iscsi_session.specs.Runs.{output, Runs, Stops};
ghost use Rattle.iscsi_session.specs.Steps.{is_serving, served};
ghost use Rattle.iscsi_connection.specs.Arriving.{frame_of, MayServe};
ghost use Rattle.iscsi_world.specs.declared.phase.Phase.TheVariants.{FullFeature};
ghost use Rattle.iscsi_world.specs.Machine.{IsWithin, target_in};
ghost use Rattle.iscsi_world.specs.SessionCalls.{InSession, ServesSession, SettlesSession, LosesInSession};

use crate::arriving::Arrived;
use crate::connection::Connection;
use crate::losing::lose;
use iscsi_outbox::Outbox;
use iscsi_pdu::Header;
use iscsi_session::Session;
use iscsi_world::Phase;
use media_store::Store;
use scsi_unit::Units;
use std::alloc::Global;
use target_limits::Memory;

/// Serves a PDU in a session.
fn serve(
    session: &mut Session,
    arrived: Arrived,
    luns: &[u8],
    out: &mut Outbox,
    orders: &mut Vec<Header>,
) -> Result<bool, Memory>
    requires values { AreInRange session.old.params.values }
    requires serves { MayServe (FullFeature session.old) arrived }
    ensures ok { IfOk result (λ goes_on. (units : TargetUnits) → luns.now ≡ numbers_of units.states
        → Runs (λ fails place. served fails place (frame_of arrived)) None goes_on session.old session.new
        (output out.old.items orders.old.items) (output out.new.items orders.new.items) units units) }
    ensures err { OnErr result (Stops is_serving (λ failed. (units : TargetUnits) → luns.now ≡ numbers_of units.states
        → Runs (λ fails place. served fails place (frame_of arrived)) failed false session.old session.new
        (output out.old.items orders.old.items) (output out.new.items orders.new.items) units units)) }
    ensures grows { (more : List ℕ) × (out.new.items ≡ out.old.items ++ more) }
    ensures idle { IfOk result (λ goes_on. goes_on ≡ true → session.new.tasks.due ≡ []) }
    ensures params { session.new.params ≡ session.old.params }
{
    match arrived {
        Arrived::Whole(frame) => session.serve(frame, luns, out, orders),
        Arrived::Passed(passed) => session.serve_unread(passed.header(), luns, out, orders),
    }
}

impl Connection {
    /// Returns the target of the connection's session, if it has one.
    pub fn target(&self) -> Option<usize>
        ensures { result ≡ target_in self.now.phase }
    {
        match &self.phase {
            Phase::FullFeature(session) => session.params().target,
            _ => None,
        }
    }

    /// Serves a PDU in the connection's session, whose target has units with these numbers. Returns whether the session
    /// goes on. The Task Management Functions that acted are added to `orders`, for the target.
    pub fn serve(
        &mut self,
        arrived: Arrived,
        luns: &[u8],
        orders: &mut Vec<Header>,
    ) -> Result<bool, Memory>
        requires values { InSession self.old.phase (λ session. AreInRange session.params.values) }
        requires fresh { orders.old.items ≡ [] }
        requires alone { self.old.half ≡ [] }
        requires serves { MayServe self.old.phase arrived }
        ensures calls { ServesSession result (frame_of arrived) luns.now orders.new.items self.old self.new }
        ensures within { (count : ℕ) → IsWithin count self.old.phase → IsWithin count self.new.phase }
    {
        let Phase::FullFeature(session) = &mut self.phase else {
            return Ok(true);
        };
        serve(session, arrived, luns, &mut self.waiting, orders)
    }

    /// Performs and answers the commands that the connection's session has taken. Returns whether the session goes
    /// on: it does, unless an allocation fails.
    pub fn settle<S: Store>(&mut self, alloc: Global, units: &mut Units<S>) -> Result<bool, Memory>
        requires { InSession self.old.phase (λ session. AreInRange session.params.values) }
        ensures calls { SettlesSession result units.old units.new self.old self.new }
        ensures within { (count : ℕ) → IsWithin count self.old.phase → IsWithin count self.new.phase }
    {
        let Phase::FullFeature(session) = &mut self.phase else {
            return Ok(true);
        };
        match session.settle(alloc, &mut self.waiting, units) {
            Ok(()) => {}
            Err(Memory) => return Err(Memory),
        }
        Ok(true)
    }

    /// Removes the commands of the connection's session that the function of another session reaches. If it lost any
    /// to CLEAR TASK SET, its nexus gets the unit attention.
    pub fn lose<S: Store>(&mut self, units: &mut Units<S>, function: &Header)
        ensures calls { LosesInSession function.now units.old units.new self.old self.new }
        ensures within { (count : ℕ) → IsWithin count self.old.phase → IsWithin count self.new.phase }
    {
        let Phase::FullFeature(session) = &mut self.phase else {
            return;
        };
        lose(session, units, function);
    }
}
