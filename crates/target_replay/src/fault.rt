//! Why a replay ends before the end of its input.

ghost use Rattle.std.specs.Prelude.{◌≡◌};
ghost use Rattle.target_replay.specs.declared.fault.ReplayFault.TheVariants.{OutOfMemory};

use iscsi_target::Memory;
use std::alloc::AllocError;
use thiserror::Error;

/// Why a replay ended.
#[derive(Clone, Copy, Debug, PartialEq, Eq, Error)]
pub enum ReplayFault {
    /// A line of the input, counted from 1, has another form, or breaks a condition.
    #[error("line {line} refused")]
    Refused { line: u64 },
    /// The input failed, or had no end.
    #[error("the input failed")]
    Input,
    #[error("the output failed")]
    Output,
    /// An allocation failed.
    #[error("out of memory")]
    OutOfMemory,
}

impl From<AllocError> for ReplayFault {
    ghost from_gives = { λ _ fault. fault ≡ OutOfMemory };

    fn from(_error: AllocError) -> ReplayFault {
        ReplayFault::OutOfMemory
    }
}

impl From<Memory> for ReplayFault {
    ghost from_gives = { λ _ fault. fault ≡ OutOfMemory };

    fn from(_error: Memory) -> ReplayFault {
        ReplayFault::OutOfMemory
    }
}
