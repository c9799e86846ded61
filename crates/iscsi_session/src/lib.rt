//! One iSCSI session in full feature phase (RFC 7143 §4.2): its requests, from the frames that bring them to their
//! answers.
//!
//! ```text
//!   frame   judged   held in the window      executed      queue      done, once its data is whole,
//!   ----->  --------> after a missing   ---> when due ---> SCSI  ---> on the units,
//!           rejected  number                 │             Commands   and answered
//!                │                           └ NOP-Out, Text, Logout, Task Management: answered at once
//!                └ Data-Out: the data of its command grows; if more is wanted, an R2T asks for it
//! ```
//!
//! - [`Session::serve`] checks a frame, executes the requests that became ready, and sends any R2T that became due. A
//!   Task Management function removes commands that are held, due or queued. An ABORT TASK may plug the number of a
//!   command that has not come.
//! - [`Session::serve_unread`] does the same for a Data-Out of which only the header was kept, since no command that is not
//!   finished takes its data.
//! - [`Session::settle`] performs the commands in the queue, up to the first whose data is not whole.
//!
//! What each call does is defined on the session's past (`iscsi_requests`). A past is a few plain lists, in which
//! a request is named by its place among those that came. A call takes a session from one past to another, by steps
//! (`specs/Steps.antt`): all of them, or those before an allocation that failed. [`laws`] has what holds of every past.
#![tactic(auto)]

mod act;
mod acting;
mod answering;
mod draining;
mod judging;
pub mod laws;
mod rejecting;
mod serving;
mod session;
mod task_management;
mod texts;

pub use iscsi_requests::{Reach, attention_of, is_for_all_sessions};
pub use session::Session;
pub use target_limits::Memory;
