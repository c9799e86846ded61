//! The loop that carries bytes between an iSCSI target and its connections, on one thread.
//!
//! ```text
//!   turn:  poll ──> accept ──> for each connection that may be ready:  read ──> Target::feed
//!                              for each with an answer that waits:     Target::out ──> write ──> Target::sent
//!                              for each that ended or is closing:      close ──> Target::gone
//! ```
//!
//! A [`turn`] asks the [`Ports`](iscsi_ports::Ports) which connections may be ready, and does what is due. [`turns`]
//! makes many turns.
//!
//! Large data is read into the buffer of its half-read PDU, which the target lends for it; other bytes are fed.
//!
//! Promised, and proved, as long as the log of the ports is complete (`Ports::tells`), whatever is in it:
//!
//! - `turned`, for every target: what was done, and what the target is after it.
//! - `served`, for a sound target: what was written on a connection is what the machine of `iscsi_target` answers
//!   there, without what still waits.
//! - `came`, for every target: the same, by how its commands came out.
#![tactic(auto)]

mod ending;
mod fault;
pub mod laws;
mod named;
mod reading;
mod serving;

pub use fault::ServeFault;
pub use serving::{turn, turns};
