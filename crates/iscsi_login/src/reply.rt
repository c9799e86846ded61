//! The reply to a Login request.

use crate::session_params::SessionParams;
use iscsi_pdu::LoginResponse;

/// The reply to a Login request.
#[derive(Drop)]
pub enum Reply {
    /// The login goes on with another request.
    GoOn(LoginResponse),
    /// Full feature phase begins.
    Full(LoginResponse, SessionParams),
    /// The login is over, and the connection is to be closed.
    Refused(LoginResponse),
}
