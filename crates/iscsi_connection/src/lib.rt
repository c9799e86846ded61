//! The connections of an iSCSI target: their bytes, their phases, and the answers that wait to be sent.
//!
//! ```text
//!   take(piece)   ┌──────────────── Connection ────────────────┐   out, skip_front
//!   ------------> │ arriving   phase                  outbox   │ ---------------->
//!   a PDU         │ half a PDU Login, FullFeature ..  answers  │
//!   <------------ └──┬─────────────────────────────────────────┘
//!                    └ log_in, begin, serve, settle, lose: what a frame, or another session, does to it
//! ```
//!
//! [`Connections`] holds 64 of them. Most are idle at most times, and those are passed over.
//!
//! Promised, and proved:
//!
//! - Clauses see a [`Connection`] as a `LinkState` of `iscsi_world`, and say which one each call leaves.
//! - Of a half-read Data-Out that no unfinished command takes, only the header and the number of bytes are kept
//!   ([`Connection::forget`]). That changes nothing that clauses see, since they see the bytes that are not kept too. No
//!   command can take it later, and so it is served by its header alone.
//! - If an allocation fails, what waited to be sent still waits.
//! - No connection with commands that can be done is passed over ([`Connections::next_unsettled`]), and none with bytes
//!   to send or that is closing ([`Connections::next_busy`]).
//! - [`named`] and [`older`] find the session that a Login request names, and the one that a new session ends.
#![tactic(auto)]

mod arriving;
mod connection;
mod connections;
mod forgetting;
mod losing;
mod number_set;
mod passed;
mod session_calls;
mod sessions;

pub use arriving::{Arrived, Taken};
pub use connection::{Connection, MOST_ROOM_KEPT};
pub use connections::Connections;
pub use passed::PassedDataOut;
pub use sessions::{named, older};
