//! The parameters with which full feature phase begins.

ghost use Rattle.std.specs.Prelude.{◌≡◌, Some};

use crate::directory::Directory;
use crate::requested_session::is_same_target;
use crate::values::Values;
use scsi_sense::Nexus;
use std::alloc::AllocError;

/// The result of a login: the nexus of the session, its target, and the values in force.
#[derive(Drop)]
pub struct SessionParams {
    pub nexus: Nexus,
    /// The target, by its position among the targets. A discovery session has none.
    pub target: Option<usize>,
    /// The targets that SendTargets may list: all in a discovery session, otherwise the session's own.
    pub directory: Directory,
    /// CID of the first request (RFC 7143 §11.12.7)
    pub connection_id: u16,
    /// CmdSN of the first request, which the first command of the session has (RFC 7143 §11.12.8)
    pub first_cmd_sn: u32,
    /// StatSN of the next answer, after those of the login (RFC 7143 §4.2.2.2)
    pub next_stat_sn: u32,
    pub values: Values,
}

impl SessionParams {
    ghost use Rattle.iscsi_login.specs.Session.{is_of as is_session_of};

    /// Returns whether it is a session of this nexus with this target. A discovery session is with none.
    pub fn is_of(&self, nexus: &Nexus, target: Option<usize>) -> bool
        ensures { result ≡ is_session_of nexus.now target (Some self.now) }
    {
        self.nexus.is_same(nexus) && is_same_target(self.target, target)
    }
}

impl Clone for SessionParams {
    ghost is_clone = { λ params copy. copy ≡ params };

    fn clone(&self) -> Result<SessionParams, AllocError> {
        Ok(SessionParams {
            nexus: self.nexus.clone()?,
            target: self.target,
            directory: self.directory.clone()?,
            connection_id: self.connection_id,
            first_cmd_sn: self.first_cmd_sn,
            next_stat_sn: self.next_stat_sn,
            values: self.values,
        })
    }
}
