//! Why a store is not opened as a disk.

ghost use Rattle.std.specs.Prelude.{◌≡◌};
ghost use Rattle.media_block.specs.Fault.{fault_number};

use media_store::Store;
use thiserror::Error;

/// Why a store is not opened as a disk.
#[derive(Clone, Copy, Debug, PartialEq, Eq, Error)]
pub enum DiskOpenFault {
    /// Its length is no positive multiple of 512 bytes.
    #[error("the length is no positive multiple of 512 bytes")]
    Length = 1,
    /// The store failed.
    #[error("the device failed")]
    Device = 2,
}

impl DiskOpenFault {
    /// Returns the number of the fault, 1 or 2.
    pub fn number(self) -> u8
        ensures { result ≡ fault_number self }
    {
        self as u8
    }
}

/// A store that was not opened, and why.
#[derive(Drop)]
pub struct NotOpened<S: Store> {
    pub fault: DiskOpenFault,
    pub store: S,
}
