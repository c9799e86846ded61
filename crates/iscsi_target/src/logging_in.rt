//! Logins: their requests are answered, and full feature phase begins.

ghost use Rattle.std.specs.Prelude.{◌≡◌, ◌<◌, true, length, IfSome, OnOk, OnErr};
ghost use Rattle.iscsi_login.specs.LoginState.{LoginState, IsTargetBelow};
ghost use Rattle.iscsi_login.specs.Values.{AreInRange};
ghost use Rattle.iscsi_world.specs.Machine.{link_at, closed, joined_session, shut_older, begun, logged_in, is_logging_in, is_reading};
ghost use Rattle.iscsi_world.specs.declared.phase.Phase.TheVariants.{Login};

use crate::target::Target;
use iscsi_connection::{named, older};
use iscsi_login::SessionParams;
use iscsi_pdu::{Answer, Frame};
use media_store::Store;
use target_limits::Memory;

impl<S: Store> Target<S> {
    /// Answers a Login request. If an allocation fails, the caller closes the connection.
    #[tactic(auto, unfolding(iscsi_world::specs::Machine::logged_in))]
    pub(crate) fn log_in(&mut self, c: usize, request: &Frame) -> Result<(), Memory>
        requires in_range { c < 64 }
        requires logs_in { is_logging_in (link_at self.old c).phase ≡ true }
        ensures ok { OnOk result ((login : LoginState) → (link_at self.old c).phase ≡ Login login → self.new ≡ logged_in self.old c login request.now) }
        ensures err { OnErr result (closed self.new c ≡ closed self.old c) }
        ensures count { length self.old.links ≡ 64 }
    {
        let named = named(self.connections.as_slice(), request.header.tsih())?;
        let connection = self.connections.at_mut(c);
        match connection.log_in(request, &self.directory, &named)? {
            Some((response, session)) => self.begin(c, session, &Answer::LoginResponse(response)),
            None => Ok(()),
        }
    }

    /// Begins full feature phase, and ends an older session of the same nexus with the same target. If an allocation
    /// fails, nothing changes.
    fn begin(&mut self, c: usize, session: SessionParams, answer: &Answer) -> Result<(), Memory>
        requires in_range { c < 64 }
        requires reads { is_reading (link_at self.old c).phase ≡ true }
        requires target { IsTargetBelow (length self.old.units) session.target }
        requires values { AreInRange session.values }
        ensures ok { OnOk result (self.new ≡ begun session answer.now c self.old) }
        ensures err { OnErr result (self.new ≡ self.old) }
    {
        let before = older(self.connections.as_slice(), &session);
        self.begin_session(c, session, answer)?;
        self.shut(before);
        Ok(())
    }

    /// Begins full feature phase, and joins the nexus to the units of its target, if it has one. If an allocation
    /// fails, nothing changes.
    #[tactic(auto, unfolding(iscsi_world::specs::World::changed_units))]
    fn begin_session(
        &mut self,
        c: usize,
        session: SessionParams,
        answer: &Answer,
    ) -> Result<(), Memory>
        requires in_range { c < 64 }
        requires reads { is_reading (link_at self.old c).phase ≡ true }
        requires target { IsTargetBelow (length self.old.units) session.target }
        requires values { AreInRange session.values }
        ensures ok { OnOk result (self.new ≡ joined_session session answer.now c self.old) }
        ensures err { OnErr result (self.new ≡ self.old) }
    {
        match session.target {
            Some(target) => {
                let units = &mut self.units[target];
                let connection = self.connections.at_mut(c);
                connection.begin(self.alloc, session, answer, units)
            }
            None => {
                let connection = self.connections.at_mut(c);
                connection.begin_discovery(self.alloc, session, answer)
            }
        }
    }

    /// Stops reading from this connection, if one is given.
    fn shut(&mut self, before: Option<usize>)
        requires { IfSome before (λ d. d < 64) }
        ensures { self.new ≡ shut_older before self.old }
    {
        if let Some(before) = before {
            let connection = self.connections.at_mut(before);
            connection.shut();
        }
    }
}
