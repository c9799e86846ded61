//! A list of numbers that takes four bytes for each.
//!
//! ```text
//!   all numbers below 2^32     |  7 |  9 | 12 |              four bytes each
//!   one of 2^32 or more        |    7    |    9    |   2^32   |    eight bytes each from then on
//! ```
//!
//! Promised:
//!
//! - Clauses see a [`NumberList`] as the list of its numbers, however wide they are stored.
//! - If an allocation fails, nothing changes.
#![tactic(auto)]

mod list;

pub use list::NumberList;
