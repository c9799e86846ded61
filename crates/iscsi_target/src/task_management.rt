//! The effect of a session's Task Management Functions on the rest of its target (RFC 7143 §11.5.1). The other
//! sessions lose the commands that they reach, and the units raise unit attentions. Nothing here allocates.

ghost use Rattle.std.specs.Prelude.{◌≡◌, ◌<◌, Some, None, length};
ghost use Rattle.std.specs.List.{fold};
ghost use Rattle.iscsi_pdu.specs.Header.{lun_field};
ghost use Rattle.scsi_unit.specs.Units.{numbers_of};
ghost use Rattle.iscsi_login.specs.LoginState.{IsTargetBelow};
ghost use Rattle.iscsi_world.specs.World.{units_at, changed_units, function_of, lose_one, reset_by, reset as reset_in, carry_out, carry_out_for};
ghost use Rattle.iscsi_world.specs.History.{connections};
ghost use Rattle.iscsi_world.specs.Machine.{link_at};
ghost use Rattle.iscsi_world.specs.Serving.{StaysWithin, CarriesOut};
ghost use Rattle.iscsi_world.specs.SessionCalls.{LosesInSession, ChangesOne};

use crate::target::Target;
use iscsi_pdu::{Header, TaskFunction};
use iscsi_session::is_for_all_sessions;
use media_store::Store;
use scsi_sense::Attention;
use scsi_unit::Units;
use target_limits::CONNECTIONS;

/// Returns the numbers of the units of a session's target. Without a target there are none.
pub(crate) fn luns_of<S: Store>(all: &[Units<S>], target: Option<usize>) -> &[u8]
    ensures { result.now ≡ numbers_of (units_at target all.now) }
{
    let Some(target) = target else {
        return &[];
    };
    match all.get(target) {
        Some(units) => units.luns(),
        None => &[],
    }
}

/// Raises the unit attention of a reset for every nexus.
fn reset<S: Store>(units: &mut Units<S>, function: &Header)
    ensures { units.new ≡ reset_by (function_of function.now) (lun_field function.now) units.old }
{
    let attention = Attention::BusDeviceResetFunctionOccurred;
    match function.task_function() {
        TaskFunction::LogicalUnitReset => units.raise_for_all(function.lun(), attention),
        TaskFunction::TargetWarmReset => units.raise_everywhere(attention),
        _ => {}
    }
}

impl<S: Store> Target<S> {
    /// Carries out the functions that acted in the session of connection c for the rest of its target, if it has one.
    pub(crate) fn carry_out_for(&mut self, c: usize, target: Option<usize>, functions: &[Header])
        requires { IsTargetBelow (length self.old.units) target }
        ensures carries { CarriesOut (carry_out_for c target functions.now) self.old self.new }
        ensures stays { StaysWithin target None self.old self.new }
    {
        match target {
            Some(target) => self.carry_out_all(c, target, functions),
            None => {}
        }
    }

    /// Carries out the functions in order.
    fn carry_out_all(&mut self, c: usize, target: usize, functions: &[Header])
        requires { target < length self.old.units }
        ensures carries { CarriesOut (λ w. fold (carry_out c target) w functions.now) self.old self.new }
        ensures stays { StaysWithin (Some target) None self.old self.new }
    {
        for function in functions {
            self.carry_out(c, target, function);
        }
    }

    /// Carries out a function: the other sessions of the target lose what it reaches, and a reset raises its unit
    /// attention.
    #[tactic(auto, unfolding(iscsi_world::specs::World::carry_out))]
    fn carry_out(&mut self, c: usize, target: usize, function: &Header)
        requires { target < length self.old.units }
        ensures carries { CarriesOut (λ w. carry_out c target w function.now) self.old self.new }
        ensures stays { StaysWithin (Some target) None self.old self.new }
    {
        if is_for_all_sessions(function) {
            self.lose_all(c, target, function);
            self.reset(target, function);
        }
    }

    /// Removes what the function reaches from each session of the target except that of connection c.
    fn lose_all(&mut self, c: usize, target: usize, function: &Header)
        requires { target < length self.old.units }
        ensures carries { CarriesOut (λ w. fold (lose_one function.now target c) w connections) self.old self.new }
        ensures stays { StaysWithin (Some target) None self.old self.new }
    {
        for d in 0..CONNECTIONS {
            self.lose_one(c, d, target, function);
        }
    }

    /// Removes what the function reaches from the session of connection d, if it is of this target and not that of
    /// connection c.
    fn lose_one(&mut self, c: usize, d: usize, target: usize, function: &Header)
        requires in_range { d < 64 }
        requires target { target < length self.old.units }
        ensures carries { CarriesOut (λ w. lose_one function.now target c w d) self.old self.new }
        ensures stays { StaysWithin (Some target) None self.old self.new }
    {
        if d == c {
            return;
        }
        if !self.is_with(d, target) {
            return;
        }
        self.lose_session(d, target, function);
    }

    /// Removes what the function reaches from the session of a connection.
    fn lose_session(&mut self, d: usize, target: usize, function: &Header)
        requires in_range { d < 64 }
        requires target { target < length self.old.units }
        ensures changes { ChangesOne d (Some target) self.old self.new }
        ensures calls { LosesInSession function.now (units_at (Some target) self.old.units) (units_at (Some target) self.new.units)
            (link_at self.old d) (link_at self.new d) }
        ensures count { length self.old.links ≡ 64 }
    {
        let units = &mut self.units[target];
        let connection = self.connections.at_mut(d);
        connection.lose(units, function);
    }

    /// Raises the unit attention of a reset for every nexus.
    fn reset(&mut self, target: usize, function: &Header)
        requires { target < length self.old.units }
        ensures carries { CarriesOut (reset_in function.now target) self.old self.new }
        ensures stays { StaysWithin (Some target) None self.old self.new }
    {
        self.reset_units(target, function);
    }

    /// Raises the unit attention of a reset for every nexus, at the units of a target.
    #[tactic(auto, unfolding(iscsi_world::specs::World::changed_units))]
    fn reset_units(&mut self, target: usize, function: &Header)
        requires { target < length self.old.units }
        ensures { self.new ≡ record self.old {
          units = changed_units (reset_by (function_of function.now) (lun_field function.now))
              (Some target) self.old.units;
        } }
    {
        let units = &mut self.units[target];
        reset(units, function);
    }
}
