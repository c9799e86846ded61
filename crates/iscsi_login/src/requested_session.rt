//! The session that a login asks for.

ghost use Rattle.std.specs.Prelude.{◌≡◌};
ghost use Rattle.iscsi_login.specs.Session.{is_same_target as is_same};

use crate::directory::Directory;
use scsi_sense::Nexus;

/// The nexus of the session that is asked for, its target by position among the targets, and the targets that it may
/// learn of. A discovery session has no target.
#[derive(Drop)]
pub struct RequestedSession {
    pub nexus: Nexus,
    pub target: Option<usize>,
    pub directory: Directory,
}

/// Returns whether both sessions are with the same target. A discovery session is with none.
pub fn is_same_target(target: Option<usize>, other: Option<usize>) -> bool
    ensures { result ≡ is_same target other }
{
    match (target, other) {
        (Some(target), Some(other)) => target == other,
        _ => false,
    }
}
