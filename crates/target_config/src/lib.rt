//! The configuration of a target: a TOML document, its fields, and the limits that they must keep.
//!
//! ```text
//! listen = "127.0.0.1:3260"
//!
//! [[target]]
//! name = "iqn.2001-04.com.example:disks"
//!
//! [[target.unit]]
//! lun = 0
//! kind = "disk"
//! serial = "D0"
//! blocks = 8
//! ```
//!
//! A unit is a disk in memory (`blocks`) or in a file (`file`), or a tape (`kind = "tape"`, with `capacity` and
//! `early`) in memory or in a file.
//!
//! These are proved:
//!
//! - [`file_config`] returns exactly the configuration that the contents of a file describe, which keeps every limit.
//! - Otherwise it returns the first fault of the contents, in the order of [`ConfigFault`].
//! - Otherwise an allocation failed.
//!
//! [`load`] reads the file and records what the system returned for it.
#![tactic(auto)]

mod block_count;
mod config_file;
mod configuration;
mod distinct;
mod fault;
mod fields;
mod limits;
mod loading;

pub use block_count::BlockCount;
pub use config_file::{MOST_BYTES, config, file_config};
pub use configuration::{
    Configuration, MediumConfiguration, TargetConfiguration, UnitConfiguration,
};
pub use fault::ConfigFault;
pub use loading::load;
