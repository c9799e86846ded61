//! The requests of a session that are not finished, and the data of its SCSI Commands (RFC 7143 §4.2).
//!
//! - [`RequestQueue`] has the requests in three lines: those that are held after a missing number, those that are due, and
//!   the SCSI Commands that are queued.
//! - [`Transfers`] has the data of the SCSI Commands, judges each Data-Out, asks for data by R2Ts, and drains the data of
//!   commands that a Task Management function removed.
//! - [`Reach`] says which of them a Task Management function reaches.
//!
//! What a session remembers is defined on its past (`specs/Requests.antt`, `specs/State.antt`): a few plain lists, in which
//! a request is named by its place among those that came.
#![tactic(auto)]

mod abort_scope;
mod aborted;
mod command;
mod drained_transfers;
mod placeholders;
mod r2ts;
mod request_queue;
mod transfers;
mod verdict;

pub use abort_scope::{Reach, Scope, attention_of, is_for_all_sessions};
pub use aborted::Aborted;
pub use command::is_command;
pub use r2ts::ROOM_TO_ASK;
pub use request_queue::RequestQueue;
pub use transfers::{Transfer, Transfers};
pub use verdict::Verdict;
