//! The reasons why a text is not read or written.

ghost use Rattle.std.specs.Prelude.{◌≡◌};
ghost use Rattle.iscsi_text.specs.declared.fault.TextFault.TheVariants.{Memory};
ghost use Rattle.iscsi_text.specs.Fault.{fault_number};

use std::alloc::{AllocError, AllocFailed};
use thiserror::Error;

/// A fault of a text (RFC 7143 §6.1), or out of memory.
#[derive(Clone, Copy, Debug, PartialEq, Eq, Error)]
pub enum TextFault {
    /// A piece has no `=`, or nothing before it.
    #[error("a pair has no key")]
    NoKey = 1,
    /// A key is longer than 63 bytes.
    #[error("a key is longer than 63 bytes")]
    LongKey = 2,
    /// A value is longer than 255 bytes.
    #[error("a value is longer than 255 bytes")]
    LongValue = 3,
    /// The last pair is not ended by a zero byte.
    #[error("the last pair is not ended")]
    NotTerminated = 4,
    /// A pair is not UTF-8.
    #[error("a pair is not UTF-8")]
    NotUtf8 = 5,
    /// A key comes twice.
    #[error("a key comes twice")]
    KeyTwice = 6,
    /// The text is longer than 65536 bytes.
    #[error("the text is longer than 65536 bytes")]
    TooLong = 7,
    /// An allocation failed.
    #[error("out of memory")]
    Memory = 8,
}

impl TextFault {
    /// Returns the number of the fault, 1 to 8.
    pub fn number(&self) -> u8
        ensures { result ≡ fault_number self.now }
    {
        *self as u8
    }
}

impl From<AllocError> for TextFault {
    ghost from_gives = { λ _ fault. fault ≡ Memory };

    fn from(_error: AllocError) -> TextFault {
        TextFault::Memory
    }
}

impl<T: Drop> From<AllocFailed<T>> for TextFault {
    ghost from_gives = { λ _ fault. fault ≡ Memory };

    fn from(_error: AllocFailed<T>) -> TextFault {
        TextFault::Memory
    }
}
