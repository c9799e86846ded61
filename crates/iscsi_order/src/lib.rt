//! The sequence numbers of a session (RFC 7143 §4.2.2), as a target counts them: the order of commands, how many more
//! may come, and how answers are numbered.
//!
//! ```text
//!   CmdSN     5     6     7     8     9 ..   37    38
//!             taken taken -     held  -      -     outside
//!                         │                  │
//!                         ExpCmdSN           MaxCmdSN, as long as none is finished
//! ```
//!
//! Promised, and proved, with numbers compared serially modulo 2^32:
//!
//! - A number is new if it is inside ExpCmdSN to MaxCmdSN and has not come before. Every other number is ignored
//!   ([`Window::arrive`]).
//! - A number is taken once it and all before it have come. Each number taken is handed over once, in order, by the key
//!   that it came with ([`Window::take`]).
//! - ExpCmdSN counts the numbers taken, MaxCmdSN those finished ([`Window::numbers`]).
//! - The meaning of these words does not depend on how their definitions are written ([`laws`]).
//! - StatSN counts the answers that bear status ([`Stat`]).
//!
//! Nothing here allocates memory.
#![tactic(auto)]

mod comparing;
pub mod laws;
mod stat;
mod window;

pub use comparing::is_before;
pub use stat::Stat;
pub use window::{Arrival, CommandNumbers, Window};
