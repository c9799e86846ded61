//! The reasons why a frame is not returned or an answer not written.

ghost use Rattle.std.specs.Prelude.{◌≡◌};
ghost use Rattle.iscsi_pdu.specs.declared.fault.PduFault.TheVariants.{Memory};

use std::alloc::{AllocError, AllocFailed};
use thiserror::Error;

/// The faults of this crate, each with its number.
#[derive(Clone, Copy, Debug, PartialEq, Eq, Error)]
pub enum PduFault {
    /// 1: a header names a data segment of more than 262144 bytes.
    #[error("a data segment of more than 262144 bytes")]
    TooLong = 1,
    /// 2: an allocation failed. The value that was called is unchanged.
    #[error("out of memory")]
    Memory = 2,
}

impl PduFault {
    ghost use Rattle.iscsi_pdu.specs.Fault.{fault_number};

    /// Returns the fault's number.
    pub fn number(&self) -> u8
        ensures { result ≡ fault_number self.now }
    {
        *self as u8
    }
}

impl From<AllocError> for PduFault {
    ghost from_gives = { λ _ e. e ≡ Memory };

    fn from(_error: AllocError) -> PduFault {
        PduFault::Memory
    }
}

impl<T: Drop> From<AllocFailed<T>> for PduFault {
    ghost from_gives = { λ _ e. e ≡ Memory };

    fn from(_error: AllocFailed<T>) -> PduFault {
        PduFault::Memory
    }
}
