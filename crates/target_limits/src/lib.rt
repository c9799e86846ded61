//! What the crates share: the number of connections of a target, and the error of an allocation that failed.
//!
//! ```text
//!   0   1   2  ..  63           connections that are open, each under a number of its own
//!   64                          one that is accepted while all others are open, and closed at once
//!
//!   out.reserve(length)?        AllocError ──> Memory           "out of memory"
//!   list.push(item)?            AllocFailed<T> ──> Memory       the item that was not taken is dropped
//! ```
//!
//! Promised: nothing but safety. Crates that do not depend on one another share [`CONNECTIONS`], and in clauses
//! `connections` (`specs/Numbers.antt`). A call that returns [`Memory`] itself promises what is unchanged then.
#![tactic(auto)]

use std::alloc::{AllocError, AllocFailed};
use thiserror::Error;

/// The most connections that may be open at a time.
pub const CONNECTIONS: usize = 64;

/// An allocation failed.
#[derive(Clone, Copy, Debug, PartialEq, Eq, Error)]
#[error("out of memory")]
pub struct Memory;

impl From<AllocError> for Memory {
    fn from(_error: AllocError) -> Memory {
        Memory
    }
}

impl<T: Drop> From<AllocFailed<T>> for Memory {
    fn from(_error: AllocFailed<T>) -> Memory {
        Memory
    }
}
