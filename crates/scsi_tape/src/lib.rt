//! The tape of a logical unit: what each command does to the medium, and which status, sense data and data it returns
//! (SSC-4 "Command descriptions").
//!
//! ```text
//! TapeCommand, data --> TapeUnit::carry_out --> Done: status, sense, data
//!                           |
//!                           +--> Tape: records and filemarks, a position
//! ```
//!
//! A command leaves the tape as `tape_left` defines and returns what `tape_outcome` defines, a line for each command.
//! This holds if the command does not touch its medium, and in two cases more:
//!
//! - after the command the store is honest and none of its calls failed;
//! - before the command the store is honest, and steady with room for the capacity (`is_steady`), as one in memory is.
//!
//! Otherwise there are three more outcomes (`TapeCame`), each possible only for a command that touches its medium
//! accordingly (`tape_touch`):
//!
//! - The store is not honest: the command does and returns what is defined, but the bytes that a READ returns may be
//!   others, and after a write the bytes of the items. They are as many as defined. Positioning, READ POSITION and a
//!   write that is refused come out as defined.
//! - A read failed: the command reports UNRECOVERED READ ERROR, and the tape does not change. Only a READ that begins
//!   with a record that it returns can come out so, as the index serves all other commands that read or move.
//! - A write, a cut or a sync failed: the command reports WRITE ERROR. The items before the position remain. The unit
//!   does not work until it is opened again ([`TapeUnit::not_ready`]).
//!
//! After WRITE FILEMARKS with GOOD status or the early warning the store is synced, whether it is honest or not.
//!
//! Commands that return data take a buffer from the caller and reserve the room that they need in it. A record lies in
//! it as it is sent. If an allocation fails, nothing changes.
#![tactic(auto)]

mod positioning;
mod reading;
mod sense;
mod tape_unit;
mod writing;

pub use tape_unit::{TapeUnit, bytes_needed};
