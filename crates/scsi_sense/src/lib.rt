//! The outcome of a SCSI command: its status, its sense data, and the data that it returned. Also the unit attention
//! conditions that a unit has pending for each initiator.
//!
//! Sense data is in the fixed format (SPC-4 "Fixed format sense data"), 18 bytes:
//!
//! ```text
//! byte  0      70h, or F0h where the information counts (VALID)
//! byte  2      FILEMARK 80h, EOM 40h, ILI 20h, sense key 0Fh
//! byte  3-6    information
//! byte  7      0Ah: ten bytes follow
//! byte 12-13   additional sense code and its qualifier
//! ```
//!
//! - [`Sense::bytes`] is exactly that layout, and each number is that of SPC-4's tables.
//! - A [`Condition`] has its sense key, so no code stands under another.
//! - [`Attentions`] keeps the conditions in the order in which they were established, and none twice.
//! - The data that a command returns lies in its buffer after room for a header, and before room for what ends the
//!   command ([`Given`]). Clauses see the data alone.
#![tactic(auto)]

mod attentions;
mod condition;
mod done;
mod given;
mod nexus;
mod sense;

pub use attentions::Attentions;
pub use condition::{Attention, Condition};
pub use done::{Done, Status};
pub use given::{Given, HEADROOM, TAILROOM};
pub use nexus::Nexus;
pub use sense::Sense;
