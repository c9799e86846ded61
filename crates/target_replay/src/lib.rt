//! A replay of lines of input at an iSCSI target over any store.
//!
//! A line of the input opens a connection, brings bytes on it, or says that it has ended. After each line the answers
//! of the target are printed:
//!
//! ```text
//! open 0             connection 0 opens
//! bytes 0 43870000   the next bytes come on it
//! gone 0             it has ended
//!
//! 0 23870000         bytes of the target's answer on connection 0
//! 0 closed           the target has closed it
//! ```
//!
//! [`replay`] carries out the lines of a reader, with an [`Engine`] that holds the target. Its output is a function:
//!
//! - of how the target was made and of the lines, as long as the target is sound (the clauses `done` and `fails`);
//! - for any target, of these and of how commands came out, line by line. The commands of each target that is sound
//!   came out as defined (`came` and `stops`).
#![tactic(auto)]

mod engine;
mod fault;
mod line;
mod printing;
mod replaying;
mod reply;

pub use engine::Engine;
pub use fault::ReplayFault;
pub use printing::print_all;
pub use replaying::replay;
