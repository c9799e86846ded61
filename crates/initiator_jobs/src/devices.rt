//! Targets in memory.

use crate::fault::Fault;
use iscsi_target::{Config, Serial, Target, Unit, Units};
use media_block::{BLOCK_LENGTH, Disk};
use media_store::MemStore;
use media_tape::Tape;
use std::alloc::Global;

/// The targets of the jobs.
pub type Targets = Target<MemStore>;

/// The names of the targets.
const NAMES: [&str; 4] = [
    "iqn.2024-01.com.example:t0",
    "iqn.2024-01.com.example:t1",
    "iqn.2024-01.com.example:t2",
    "iqn.2024-01.com.example:t3",
];

/// Returns the name of a target.
pub fn name_of(number: usize) -> &'static str {
    NAMES[number % 4]
}

/// Returns a unit alone in its target.
fn alone(alloc: Global, unit: Unit<MemStore>) -> Result<Units<MemStore>, Fault> {
    let mut units = Vec::new(alloc);
    units.push(unit)?;
    Ok(Units::new(alloc, units)?)
}

/// Returns a disk of `blocks` blocks, which has LUN 0.
fn disk(alloc: Global, blocks: usize) -> Result<Units<MemStore>, Fault> {
    let length = blocks.min(1 << 24) * BLOCK_LENGTH;
    let disk = Disk::open(MemStore::new(alloc, length, length)?)?;
    let serial = Serial::new(String::from_str(alloc, "DISK")?);
    alone(alloc, Unit::disk(alloc, 0, serial, disk))
}

/// Returns a tape of `capacity` bytes, which has LUN 0.
fn tape(alloc: Global, capacity: usize) -> Result<Units<MemStore>, Fault> {
    let store = MemStore::new(alloc, 0, capacity)?;
    let tape = Tape::open(alloc, store, capacity as u64, capacity as u64)?;
    let serial = Serial::new(String::from_str(alloc, "TAPE")?);
    alone(alloc, Unit::tape(alloc, 0, serial, tape))
}

/// Returns the names of the first `count` targets.
fn names(alloc: Global, count: usize) -> Result<Vec<String>, Fault> {
    let mut names = Vec::new(alloc);
    for number in 0..count {
        names.push(String::from_str(alloc, name_of(number))?)?;
    }
    Ok(names)
}

/// Returns targets with these units.
fn targets(alloc: Global, units: Vec<Units<MemStore>>) -> Result<Targets, Fault> {
    let config = Config {
        listen: String::from_str(alloc, "192.0.2.1:3260")?,
        targets: names(alloc, units.len())?,
    };
    if config.targets.len() != units.len() {
        return Err(Fault::Unopened);
    }
    Ok(Target::new(alloc, config, units)?)
}

/// Returns `count` targets, each with a disk of `blocks` blocks.
pub fn disks(alloc: Global, count: usize, blocks: usize) -> Result<Targets, Fault> {
    let mut all = Vec::new(alloc);
    for _ in 0..count {
        all.push(disk(alloc, blocks)?)?;
    }
    targets(alloc, all)
}

/// Returns a target with a tape of `capacity` bytes.
pub fn one_tape(alloc: Global, capacity: usize) -> Result<Targets, Fault> {
    let mut all = Vec::new(alloc);
    all.push(tape(alloc, capacity)?)?;
    targets(alloc, all)
}
