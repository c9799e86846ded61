//! The error that the target returns if memory runs out.

use target_limits::Memory;
use thiserror::Error;

/// A connection was closed: out of memory.
#[derive(Clone, Copy, Debug, PartialEq, Eq, Error)]
#[error("connection {connection} was closed: out of memory")]
pub struct Starved {
    /// The first connection that was closed.
    pub connection: usize,
}

impl From<Starved> for Memory {
    fn from(_e: Starved) -> Memory {
        Memory
    }
}
