//! The answers to a command that is done: its data in SCSI Data-Ins (RFC 7143 §11.7), and its SCSI Response (§11.4).
//!
//! ```text
//! before it is done       make_room      room for all that is copied, and for the Response
//!                         piece_for      how its data is to lie
//! once it is done         put_answers    into the outbox, by how much data there is:
//!
//!     much, laid in pieces        the headers are put in front of them       | Data-In Data-In .. Response |
//!     much, in long pieces        from where it lies, cut as it is sent      | Data-In | Data-In | .. Response |
//!     one piece, nothing waits    the header is put in front of it           | Data-In Response |
//!     anything else               copied after what waits                    .. Data-In Data-In Response |
//! ```
//!
//! Promised, and proved:
//!
//! - [`put_answers`] appends the Data-Ins and the Response of the command, as `command_answers` defines them. It
//!   allocates no memory.
//! - [`make_room`] reserves `room_for` bytes, as many as these answers can take.
#![tactic(auto)]

mod answers;
mod data_ins;
mod making_room;

pub use answers::put_answers;
pub use making_room::{make_room, piece_for};
