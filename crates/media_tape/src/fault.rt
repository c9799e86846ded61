//! Why a store is not opened as a tape.

ghost use Rattle.std.specs.Prelude.{◌≡◌};
ghost use Rattle.media_tape.specs.Fault.{fault_number};
ghost use Rattle.media_tape.specs.declared.fault.TapeOpenFault.TheVariants.{OutOfMemory, Device};

use media_store::{Store, StoreFault};
use std::alloc::AllocError;
use thiserror::Error;

/// Why a store is not opened as a tape.
#[derive(Clone, Copy, Debug, PartialEq, Eq, Error)]
pub enum TapeOpenFault {
    /// No whole item begins at this offset in bytes, and bytes stand there.
    #[error("no whole item begins at byte {0}")]
    TornEnd(u64),
    /// The store failed.
    #[error("the device failed")]
    Device,
    /// The store is longer than the capacity.
    #[error("the tape is longer than its capacity")]
    TooLong,
    /// An allocation failed.
    #[error("out of memory")]
    OutOfMemory,
}

impl TapeOpenFault {
    /// Returns the number of the fault, 1 to 4.
    pub fn number(self) -> u8
        ensures { result ≡ fault_number self }
    {
        match self {
            TapeOpenFault::TornEnd(_) => 1,
            TapeOpenFault::Device => 2,
            TapeOpenFault::TooLong => 3,
            TapeOpenFault::OutOfMemory => 4,
        }
    }
}

impl From<StoreFault> for TapeOpenFault {
    ghost from_gives = { λ _ fault. fault ≡ Device };

    fn from(_fault: StoreFault) -> TapeOpenFault {
        TapeOpenFault::Device
    }
}

impl From<AllocError> for TapeOpenFault {
    ghost from_gives = { λ _ fault. fault ≡ OutOfMemory };

    fn from(_error: AllocError) -> TapeOpenFault {
        TapeOpenFault::OutOfMemory
    }
}

/// A store that was not opened, and why.
#[derive(Drop)]
pub struct NotOpened<S: Store> {
    pub fault: TapeOpenFault,
    pub store: S,
}
