//! A log of who logs in, who is refused and why, and what fails: an observer of the loop's ports that changes nothing.
//!
//! [`ObservedPorts`] are ports whose calls an [`Observer`] sees. They return what the ports below them return, so what is
//! proved of a loop over ports is proved of one that is observed, whatever the observer does.
//!
//! [`SessionLog`] is the observer that writes lines. It reads the headers of the PDUs that pass, and of data segments no
//! more than the text of logins and the front of sense data. By these it reports the rule that a PDU broke that closed
//! its connection, if that is certain. Only the escaping of names is proved of its lines: what an initiator sends makes no
//! line of its own. [`tell_start_fault`] writes the one line of a start that failed.
#![tactic(auto)]

mod answer;
mod connection;
mod escape;
mod judging;
pub mod laws;
mod limit;
mod lines;
mod log_file;
mod login_names;
mod login_values;
mod observed;
mod operation;
mod pairs;
mod pdu_stream;
mod sense;
mod session_log;
mod start_fault;
mod tasks;
mod transfer;
mod violation;

pub use log_file::LogFile;
pub use observed::{ObservedPorts, Observer};
pub use session_log::SessionLog;
pub use start_fault::tell_start_fault;
