//! The parameters of MODE SENSE and MODE SELECT (SPC-4 "Mode parameters", SBC-3 "Mode parameters for direct access
//! block devices", SSC-4 "Mode parameters for sequential-access devices").
//!
//! ```text
//! header            4 bytes, or 8 for the commands of 10 bytes
//! block descriptor  8 bytes, or none: the length of a block, which of a tape can be set
//! pages             08h  disk        Caching: the write cache is on
//!                   0Ah  disk  tape  Control: SWP, the software write protection of a disk
//! ```
//!
//! - [`sense`] returns exactly these bytes, or that there is no such page.
//! - [`select`] judges a parameter list part by part, and the first fault counts. If there is none, it returns the new
//!   SWP and the new block length of a tape.
//!
//! No data is truncated to an allocation length here.
#![tactic(auto)]

mod data;
mod descriptor;
mod list;
mod list_fault;
mod page;
mod parameters;
mod put;

pub use data::{Data, sense};
pub use list::select;
pub use list_fault::ListFault;
pub use page::ModePage;
pub use parameters::Parameters;
