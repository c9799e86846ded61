//! The sessions in full feature phase.

ghost use Rattle.std.specs.Prelude.{◌≡◌, ◌<◌, length, IfOk, IfSome};
ghost use Rattle.iscsi_login.specs.Session.{is_of as is_session_of, named_by, older as older_of};
ghost use Rattle.iscsi_world.specs.Machine.{session_in_phase, sessions};

use crate::connection::Connection;
use iscsi_login::SessionParams;
use iscsi_world::Phase;
use target_limits::Memory;

/// Returns whether the connection has a session of the same nexus with the same target.
fn is_of(connection: &Connection, session: &SessionParams) -> bool
    ensures { result ≡ is_session_of session.now.nexus session.now.target (session_in_phase connection.now.phase) }
{
    match &connection.phase {
        Phase::FullFeature(other) => other.params().is_of(&session.nexus, session.target),
        _ => false,
    }
}

/// Returns the connection of an older session of the same nexus with the same target.
#[tactic(auto, unfolding(iscsi_login::specs::Session::older))]
pub fn older(connections: &[Connection], session: &SessionParams) -> Option<usize>
    ensures value { result ≡ older_of session.now (sessions connections.now) }
    ensures bound { IfSome result (λ at. at < length connections.now) }
{
    connections
        .iter()
        .position(|connection| is_of(connection, session))
}

/// Returns a copy of the session of a connection, if it has one.
fn copy_of(connection: &Connection) -> Result<Option<SessionParams>, Memory>
    ensures { IfOk result (λ session. session ≡ session_in_phase connection.now.phase) }
{
    match &connection.phase {
        Phase::FullFeature(session) => Ok(Some(session.params().clone()?)),
        _ => Ok(None),
    }
}

/// Returns a copy of the session that a TSIH names: that of connection c has TSIH c + 1 (RFC 7143 §11.12.6).
pub fn named(connections: &[Connection], tsih: u16) -> Result<Option<SessionParams>, Memory>
    ensures { IfOk result (λ session. session ≡ named_by tsih (sessions connections.now)) }
{
    if tsih == 0 {
        return Ok(None);
    }
    match connections.get(usize::from(tsih) - 1) {
        Some(connection) => copy_of(connection),
        None => Ok(None),
    }
}
