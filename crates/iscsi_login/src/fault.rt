//! Out of memory, and why a request is not taken.

ghost use Rattle.std.specs.Prelude.{◌≡◌};
ghost use Rattle.iscsi_login.specs.declared.fault.Fault.TheVariants as faults;

use iscsi_pdu::LoginRefusal;
use std::alloc::AllocError;
use target_limits::Memory;

/// The reason why a text is not taken.
#[derive(Clone, Copy)]
pub(crate) enum Fault {
    /// The login is refused.
    Refused(LoginRefusal),
    /// An allocation failed.
    Memory,
}

impl From<Memory> for Fault {
    ghost from_gives = { λ _ fault. fault ≡ faults.Memory };

    fn from(_error: Memory) -> Fault {
        Fault::Memory
    }
}

impl From<AllocError> for Fault {
    ghost from_gives = { λ _ fault. fault ≡ faults.Memory };

    fn from(_error: AllocError) -> Fault {
        Fault::Memory
    }
}
