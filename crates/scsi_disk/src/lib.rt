//! Disks as logical units: what a SCSI command does to a disk, and what it returns (SBC-3).
//!
//! [`DiskDevice::carry_out`] executes a command whose blocks the disk has. It does exactly what `IsDiskDone` defines, by
//! how the command came out: as defined, with a store that is not honest, or with a read or a write that failed. A fault
//! is reported only if the store's count of failures rose.
//!
//! The store is synced after SYNCHRONIZE CACHE with GOOD, and after WRITE or COMPARE AND WRITE with GOOD that wrote a
//! block with FUA. The data of a WRITE goes to `media_block` as it lies, which joins short slices for a file. If an allocation
//! fails, nothing changes.
//!
//! [`Buffers`] are those in which data was read, kept for reuse.
#![tactic(auto)]

mod buffers;
mod disk_commands;
mod disk_device;
mod disk_writes;
mod given;

pub use buffers::{Buffers, give_back, take_like};
pub use disk_device::{DiskDevice, range_named};
pub use given::done_with_front;
