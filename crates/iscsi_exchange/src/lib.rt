//! The exchange of texts in full feature phase (RFC 7143 §11.10, §11.11), with which an initiator asks for the targets
//! (SendTargets).
//!
//! ```text
//!   Text Request ──> Exchange::hear ──> Told { exchange, piece: Some(piece) }   a Text Response
//!                                       Told { exchange, piece: None }          a Reject, 09h
//!   Text Request ──> Exchange::go_on ─> Some(piece)     the same, if it only continues the exchange
//! ```
//!
//! Promised, and proved:
//!
//! - [`Exchange::hear`] returns what `hears` (`specs/Exchange.antt`) defines for the exchange so far.
//! - A text in parts is joined, a long answer is cut to what the initiator takes ([`laws::answers_are_cut`]), and each
//!   pair is answered as `specs/SendTargets.antt` says.
//! - [`Exchange::go_on`] does the same in place, for a request that only continues the exchange
//!   ([`Exchange::text_on`]).
#![tactic(auto)]

mod exchange;
pub mod laws;
mod send_targets;
mod told;

pub use exchange::Exchange;
pub use target_limits::Memory;
pub use told::{Piece, Told};
