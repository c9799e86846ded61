//! What waits to be sent on a connection: small answers, joined, and the data of commands in SCSI Data-Ins
//! (RFC 7143 §11.7), which is sent from where the command put it.
//!
//! If data lies in the pieces in which it is sent, each after room for its header, all headers are written at once, and
//! the answer lies ready:
//!
//! ```text
//! | header 0 | data 0 .. | header 1 | data 1 .. | header 2 | data 2 .. | padding | SCSI Response |
//! ```
//!
//! If it lies together, it is cut as it is sent. Here the second of three pieces is being sent:
//!
//! ```text
//! | header 0 | data 0 ..  | header 1 | data 1 ..  | data 2 .. | padding | SCSI Response |
//!                            ^ at                 ^ 48 + offset
//! |----- was sent ---------->|---- front ---------|---- is left, without header 2 -----|
//! ```
//!
//! The header of a piece is then written over the last 48 bytes of the piece before it, which were sent by then. With
//! the last piece, all that ends the answer lies together. In neither case is a byte of data moved.
//!
//! Promised, and proved:
//!
//! - A new [`DataIns`] has to send the command's Data-Ins, as RFC 7143 spells them, and the PDU after them.
//! - An [`Outbox`] holds all that waits in the order in which it was put. [`Outbox::front`] is a prefix of it that ends
//!   where a PDU does, empty only if nothing waits; it is all, if no data of a command waits. Sending allocates no
//!   memory.
#![tactic(auto)]

mod cursor;
mod data_ins;
mod headers;
mod limits;
mod outbox;
mod put;
mod run;
mod shared;
mod unsent;

pub use data_ins::DataIns;
pub use limits::Limits;
pub use outbox::Outbox;
pub use shared::SharedFields;
