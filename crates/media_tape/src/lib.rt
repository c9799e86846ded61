//! A tape: records and filemarks in a store, and a position among them (SSC-4 "Tape model").
//!
//! ```text
//! 00000002 6162 00000002   00000000 00000000        a record of two bytes, and a filemark
//! |----------------------|-------------------|
//! 0                      10                  18     bytes of the store
//! ```
//!
//! The store holds one item after another. An item is its length in four bytes, its data, and its length again. A
//! filemark has no data, and a length above [`MOST_BYTES`] begins no item.
//!
//! [`Tape::open`] reads these lengths once, and reports the first offset at which no whole item begins. It keeps the
//! sizes of the items in an index (`tape_index`), in which all other calls find offsets.
//!
//! If the store did not fail in a call:
//!
//! - a read passes the item after the position, and returns its bytes if the store is honest after it;
//! - a record that is written replaces everything after the position. If the store is honest, nothing follows it there;
//! - a position is set after the given number of items.
//!
//! The position, the number of the items and their sizes are known without the store. If the store lied, only bytes are
//! others than those that were written.
//!
//! Positioning, and a read that returns nothing of a record, call no store: the index serves them.
//!
//! If a call fails:
//!
//! - a read leaves the tape as it was;
//! - a write or a cut leaves the items before the position;
//! - if an allocation failed, nothing changes.
//!
//! Between two calls of the store the tape is whole: what stands after the position is cut off before anything is
//! written there. The clauses `between` say so of a store whose failed calls change no byte (`atomic`). On it a write or
//! a cut that fails leaves whole items, whichever call failed.
//!
//! A call reports a fault only if the store's count of failures rose in it. No call of the store fails if it is honest
//! and steady, and has room for the capacity, as one in memory is.
#![tactic(auto)]

mod fault;
mod item;
pub mod laws;
mod outcome;
mod read;
mod reading;
mod tape;
mod walk;
mod window;
mod write;
mod writing;
mod zeros;

pub use fault::{NotOpened, TapeOpenFault};
pub use item::MOST_BYTES;
pub use outcome::{FixedWritten, Located, Passed, Written};
pub use tape::Tape;
pub use tape_index::{Direction, FixedEnd, FixedRead, Over, Spaced};
