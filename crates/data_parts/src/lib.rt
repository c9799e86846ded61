//! The data of a command, in the buffers in which it came. Large pieces are not copied before they are used.
//!
//! ```text
//! pieces that came:      | 70,000 |        | 8,192 |      | 300 | 200 |
//!
//! buffers of their own:  | 70,000 bytes |  | 8,192 bytes |
//! the tail, few bytes joined:                              | 500 bytes |
//! ```
//!
//! Promised:
//!
//! - Clauses see [`Parts`] and [`Data`] as the list of the bytes in the order in which they came, whatever buffers they
//!   lie in.
//! - If an allocation fails, nothing changes.
//! - [`Data::split_front`] returns the bytes slice by slice, none of them empty before the end.
//!
//! [`Parts::push`] moves a piece of 4,096 bytes or more in its buffer. For smaller pieces the room is at most doubled,
//! so that many small pieces take no more than twice their bytes.
#![tactic(auto)]

mod data;
mod parts;
mod spare_buffers;

pub use data::Data;
pub use parts::Parts;
pub use spare_buffers::SpareBuffers;
