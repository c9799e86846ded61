//! The nexus that sends a command.

ghost use Rattle.std.specs.Prelude.{◌≡◌};

use std::alloc::AllocError;
use std::marker::Model;

/// An I_T nexus: a session of an initiator with a target (RFC 7143 §4.4.2), for which unit attentions and reservations
/// are kept. It is identified by the initiator's name, and by the ISID, which distinguishes its sessions.
#[derive(Drop)]
pub struct Nexus {
    pub initiator_name: String,
    pub isid: [u8; 6],
}

impl Model for Nexus {
    ghost use Rattle.std.specs.Prelude.{string_bytes};
    ghost use Rattle.scsi_sense.specs.Nexus.{NexusName};

    ghost Value = { NexusName };

    ghost view = { λ nexus. record { initiator_name = string_bytes nexus.initiator_name; isid = nexus.isid } };
}

impl Nexus {
    ghost use Rattle.scsi_sense.specs.Nexus.{same_nexus};

    /// Returns whether both are the same nexus. Names and ISIDs are compared byte by byte; the ISIDs, six bytes, come
    /// first.
    pub fn is_same(&self, other: &Nexus) -> bool
        ensures { result ≡ same_nexus self.now other.now }
    {
        self.isid == other.isid && self.initiator_name == other.initiator_name
    }
}

impl Clone for Nexus {
    ghost is_clone = { λ nexus copy. copy ≡ nexus };

    fn clone(&self) -> Result<Nexus, AllocError> {
        Ok(Nexus {
            initiator_name: self.initiator_name.clone()?,
            isid: self.isid,
        })
    }
}
