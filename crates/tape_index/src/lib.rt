//! The index of a tape: the sizes of its items, without their bytes (SSC-4 "Tape model").
//!
//! ```text
//! a record of two bytes, two of five, a filemark     10, 13, 13, 8     sizes of the items
//!                                                    1 of 10, 2 of 13, 1 of 8     their runs
//! ```
//!
//! An item's size is that of its data and eight bytes more. An [`Index`] keeps runs of items of one size. A run takes 24
//! bytes, however many items it has. So the runs take at most 24 bytes for each item, if no two neighbours have the same
//! size. While their list grows they take up to twice that.
//!
//! Clauses see it as the list of the sizes. It tells where an item stands, how far SPACE and READ of blocks get, and what
//! ends them: in as many steps as there are runs on the way, and of a single item by bisection.
//!
//! If an allocation fails, nothing changes.
#![tactic(auto)]

mod index;
mod outcome;
mod run;
mod space;

pub use index::Index;
pub use outcome::{Direction, FixedEnd, FixedRead, Over, Spaced, passed_blocks};
pub use run::MARK_SIZE;
pub use space::Ended;
