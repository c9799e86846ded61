//! The opened units of a configuration: disks and tapes in memory, or in files of the system.
//!
//! ```text
//!   lun = 0  kind = "disk"  blocks = 8          a disk of eight blocks of zeros, in memory
//!   lun = 1  kind = "disk"  file = "d"          the disk that the file holds
//!   lun = 2  kind = "tape"  capacity, early     an empty tape, in memory
//!   lun = 3  kind = "tape"  .., file = "t"      the records and filemarks that the file holds
//! ```
//!
//! Promised, and proved: [`open`] returns the targets of a configuration with these units, each free of initiators.
//! Otherwise it returns a fault that names a unit in a file, or an allocation failed. What is left of this file says
//! which call of the system failed, or which rule of its medium it breaks ([`Refused`]). What each file holds when it is
//! opened is a parameter of the contracts (`Start`).
#![tactic(auto)]

mod cause;
mod fault;
mod opening;
mod refused;
mod store;

pub use cause::DeviceCause;
pub use fault::OpenFault;
pub use opening::{OpenedTargets, open};
pub use refused::Refused;
pub use store::{MediumStore, SystemStore};
