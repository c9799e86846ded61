//! The login phase of iSCSI (RFC 7143 §6.3, §11.12, §11.13), on the side of the target.
//!
//! In a dialogue of Login Requests and Login Responses the initiator names itself and a target, and both settle the
//! values of the session.
//!
//! ```text
//!   Login Request ──> Login::take ──> Reply::GoOn(answer)           the login goes on
//!                                     Reply::Full(answer, params)   full feature phase begins
//!                                     Reply::Refused(answer)        the connection is to be closed
//! ```
//!
//! Promised, and proved:
//!
//! - [`Login::take`] answers what `reply_of` (`specs/Login.antt`) says of all requests of the login so far. The first
//!   rule that is broken refuses a request. Otherwise the answer has the results of its keys in order, in pieces if
//!   they are long ([`laws::answers_are_cut`]).
//! - [`settle_key`] answers an offer by the table of keys in `specs/Keys.antt`, as a login does.
//! - If an allocation fails, the login is unchanged.
#![tactic(auto)]

mod answer;
mod directory;
mod earlier;
mod fault;
mod key_tree;
mod keys;
pub mod laws;
mod login;
mod names;
mod number;
mod opening;
mod reply;
mod request;
mod requested_session;
mod session_params;
mod text;
mod values;

pub use directory::Directory;
pub use keys::{is_known, is_passed_over, settle_key};
pub use login::Login;
pub use names::position;
pub use reply::Reply;
pub use requested_session::{RequestedSession, is_same_target};
pub use session_params::SessionParams;
pub use target_limits::Memory;
pub use values::Values;
