//! The protocol data units (PDUs) of iSCSI (RFC 7143 §11), as a target uses them:
//!
//! - the frames of a connection's bytes, which `iscsi_framer` cuts
//! - the fields of a frame's header
//! - the bytes of each answer
//!
//! ```text
//!   bytes in ──> iscsi_framer ──────────────> Frame { header, body } ──> the target
//!   bytes out <── BytesMut <── Answer::write <── Answer <──────────────── the target
//! ```
//!
//! Promised, and proved:
//!
//! - The frames are the same however the bytes are cut into pieces ([`laws::chunking`]). They are the only ones whose
//!   spellings, joined, are the front of the bytes ([`laws::frames_are_the_spellings`], [`laws::only_these_frames`]).
//! - The parts that a framer gives, put together, are the same frames ([`laws::parts_are_frames`]).
//! - An answer is written whole, padding included, or the buffer keeps its bytes. If the buffer has room for the
//!   answer, it is written, and uses exactly its length of that room.
//! - Out of memory is an error everywhere, and leaves every value unchanged.
#![tactic(auto)]

mod answer;
mod data_in;
mod data_out;
mod fault;
mod frame;
mod header;
pub mod laws;
mod login_request;
mod login_response;
mod logout_request;
mod logout_response;
mod nop_in;
mod part;
mod r2t;
mod reject;
mod result_header;
mod scsi_command;
mod scsi_response;
mod segment;
mod stage;
mod stamp;
mod task_management;
mod task_management_response;
mod text_response;

pub use answer::Answer;
pub use data_in::DataIn;
pub use fault::PduFault;
pub use frame::Frame;
pub use header::{HEADER_LENGTH, Header, Opcode, RESERVED_TAG};
pub use login_response::{LoginAccepted, LoginRefusal, LoginReply, LoginResponse, LoginStep};
pub use logout_response::{LogoutResponse, LogoutResult};
pub use nop_in::NopIn;
pub use part::Part;
pub use r2t::R2t;
pub use reject::{Reject, RejectReason};
pub use scsi_response::{Residual, ScsiResponse};
pub use segment::{MOST_DATA, padded, padding};
pub use stage::Stage;
pub use stamp::Stamp;
pub use task_management::TaskFunction;
pub use task_management_response::{TaskManagementResponse, TaskResult};
pub use text_response::{EXCHANGE_TAG, TextResponse, TextStep};
