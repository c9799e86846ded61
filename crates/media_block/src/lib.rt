//! A disk: logical blocks of 512 bytes over a store.
//!
//! ```text
//! block 0   block 1   block 2   ..        a list of blocks of 512 bytes
//! |---------|---------|---------|
//! 0         512       1024      1536      bytes of the store
//! ```
//!
//! This is promised of a disk whose store is honest after a call and did not fail in it. A read returns a slice of the
//! blocks, and a write replaces a slice by other blocks. A comparison returns the least index at which bytes differ,
//! and after [`Disk::sync`] the store is synced.
//!
//! If the store failed, a write has touched no block outside its range, and any other call none. A fault is reported
//! only if the store's count of failures rose in that call. Over a steady and honest store, such as one in memory, no
//! call fails, and the store stays honest.
//!
//! The blocks joined are the content of the store ([`laws::blocks_are_the_content`]).
#![tactic(auto)]

mod data;
mod difference;
mod disk;
mod fault;
mod filling;
pub mod laws;
mod part;

pub use disk::{BLOCK_LENGTH, Disk};
pub use fault::{DiskOpenFault, NotOpened};
