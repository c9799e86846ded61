//! The targets that a session may learn of.

ghost use Rattle.std.specs.Prelude.{◌≡◌, map, string_bytes};

use std::alloc::AllocError;
use std::marker::Model;

/// Targets by name, and the address of their portal.
#[derive(Drop)]
pub struct Directory {
    /// The name of each target, in order (RFC 7143 §4.2.7).
    pub targets: Vec<String>,
    /// The portal's address as text (RFC 7143 §13.8).
    pub portal: String,
}

impl Model for Directory {
    ghost use Rattle.std.specs.Prelude.{map, string_bytes};
    ghost use Rattle.iscsi_login.specs.Directory.{KnownTargets};

    ghost Value = { KnownTargets };

    ghost view = { λ d. record { names = map string_bytes d.targets.items; portal = string_bytes d.portal } };
}

impl Clone for Directory {
    ghost is_clone = { λ directory copy. copy ≡ directory };

    fn clone(&self) -> Result<Directory, AllocError> {
        Ok(Directory {
            targets: self.targets.clone()?,
            portal: self.portal.clone()?,
        })
    }
}
