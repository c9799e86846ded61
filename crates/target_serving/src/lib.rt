//! Serving with a log, and how a run of the program ends.
//!
//! [`serve_logged`] opens the log that is configured, prints the line that says where the target listens, and serves. If
//! the log cannot be opened, nothing is printed or served. The log changes nothing of what is served: the same is promised
//! of the loop as without one.
//!
//! [`Fault`] says why a run did not reach the end of its input or of its turns; [`status_of`] gives its exit status.
#![tactic(auto)]

mod fault;
mod logging;
mod serve;

pub use fault::{Fault, status_of};
pub use logging::serve_logged;
