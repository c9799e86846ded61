//! An iSCSI target (RFC 7143) as one value. Connections bring bytes and carry answers; logical units (SAM-5, SPC-4)
//! perform the commands.
//!
//! ```text
//!                  ┌───────────────────── Target ─────────────────────┐
//!   open(c)        │  connection 0   logging in                       │   out(c)
//!   feed(c, bytes) │  connection 1   full feature ──┬──> units of t1  │   sent(c, n)
//!   gone(c)     ───┤  connection 2   full feature ──┘                 ├──>
//!                  │  ..                                              │
//!                  │  connection 63  full feature ─────> units of t2  │
//!                  └──────────────────────────────────────────────────┘
//! ```
//!
//! One connection from its opening to its end. These lines are proved, as those of `example.rt` in `two_initiators`:
//!
//! ```rust
//! // A failed allocation closes one connection; the others go on.
//! target.open(c)?;
//! target.feed(c, arrived)?;
//! // The front ends where a PDU does. A socket may take fewer bytes.
//! let front = target.out(c);
//! written.extend_from_slice(front)?;
//! let count = front.len();
//! target.sent(c, count);
//! target.gone(c);
//! ```
//!
//! Promised, and proved:
//!
//! - A [`Target`] answers what a plainly defined machine answers, the World of `iscsi_world` (clauses `stands`,
//!   `always`). This holds for every list of openings, pieces of bytes and closings on up to 64 connections. It holds
//!   as long as the stores of its units are honest and no call of one has failed.
//! - If allocations fail, each connection for which one failed closes between two steps. Each request was done and
//!   answered whole or did nothing, and the other connections go on (`starved`).
//! - If no allocation fails, and the stores of a target's units are sound, other connections change neither the answers
//!   of the connections that name it, nor its units ([`laws::targets_are_isolated`]).
//! - On each connection, the bytes that wait and 1,310,720 for each request held or unfinished are at most 67,108,864,
//!   if no more is fed than is wanted ([`laws::calls_keep_bounded`]). The keys of a login are not counted.
#![tactic(auto)]

mod config;
mod event;
mod history;
mod incoming;
pub mod laws;
mod logging_in;
mod run;
mod sending;
mod serve;
mod target;
mod task_management;

pub use config::Config;
pub use event::Event;
pub use history::well_formed;
pub use iscsi_framer::FrameRoom;
pub use iscsi_world::Starved;
pub use run::Outputs;
pub use scsi_unit::{Serial, Unit, Units};
pub use target::Target;
pub use target_limits::{CONNECTIONS, Memory};
