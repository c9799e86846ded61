//! The text format of iSCSI (RFC 7143 §6.1): pairs KEY=VALUE, each ended by a zero byte.
//!
//! ```text
//! InitiatorName=a\0TargetName=t1\0   (InitiatorName, a), (TargetName, t1)
//! ```
//!
//! Promised, and proved:
//!
//! - [`pairs`] reads exactly the pairs of a text, or reports its first fault.
//! - [`text`] writes exactly the text of pairs, and [`put_pair`] appends one pair to a text.
//! - [`cut`] cuts a text at the multiples of a limit, piece after piece ([`laws::cut_is_piece_after_piece`]).
//! - If [`text`] writes what [`pairs`] read, [`pairs`] reads it again as the same pairs ([`laws::is_read_again`]).
#![tactic(auto)]

mod cutting;
mod fault;
pub mod laws;
mod list;
mod reading;
mod string_list;
mod writing;

pub use cutting::cut;
pub use fault::TextFault;
pub use list::Pairs;
pub use reading::{LONGEST_TEXT, pairs};
pub use writing::{put_pair, text};
