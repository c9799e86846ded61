//! The bytes of a connection, cut into the frames that `iscsi_pdu` defines (RFC 7143 §11).
//!
//! ```text
//!   a piece ──> Framer::keep_part ──> nothing, as more of its PDU has to come
//!   a piece ──> Framer::take_frame ──> Frame { header, body }, and how much of the piece it took
//!   a piece ──> Framer::take ──> Part: a frame, or data lent from the piece, of which only the number is kept
//!   a piece ──> Framer::feed, next ──> Frame: the plain form, with which the others are compared
//! ```
//!
//! Promised, and proved:
//!
//! - A framer's frames are those of the bytes that it was fed, in whatever pieces these came
//!   ([`chunking`](iscsi_pdu::laws::chunking)).
//! - The parts that [`Framer::take`] gives, put together, are the same frames
//!   ([`parts_are_frames`](iscsi_pdu::laws::parts_are_frames)).
//! - A reader can be lent the buffer of a half-read PDU ([`Framer::lend_room`]). What it fills in belongs to the PDU
//!   ([`Framer::take_room`]); what was left in a buffer is never seen.
//! - A data segment longer than 262144 bytes is refused as soon as its header is whole and the frames before it were
//!   returned.
//! - Out of memory is an error everywhere, and leaves every value unchanged.
#![tactic(auto)]

mod byte_queue;
mod frame_buffer;
mod framer;
mod front;
mod pieces;

pub use frame_buffer::FrameRoom;
pub use framer::Framer;
pub use front::Front;
pub use pieces::names_more;
