//! Disks that are copied, restored, backed up and checked: long WRITEs, READs and VERIFYs one after the other, and
//! WRITE SAME.

use crate::devices::disks;
use crate::fault::Fault;
use crate::host::Host;
use crate::line::{Line, Way};
use crate::outcome::Outcome;
use crate::random::Random;
use crate::requests::{Command, READY, cdb_10, transfer};
use std::alloc::Global;

/// The number of blocks of the disk: 128 MiB.
const BLOCKS: usize = 262_144;

/// The number of blocks that WRITE SAME sets: 8 MiB.
const SAME: usize = 16_384;

/// The number of places at which a stream may begin.
const PLACES: usize = 1_048_576;

/// The lengths of the pieces in which bytes arrive, from serving_checks and over a slow connection.
const CUTS: [usize; 2] = [65_536, 1_448];

/// The lengths of the segments of Data-Outs.
const SEGMENTS: [usize; 3] = [8_192, 65_536, 262_144];

/// The disk, and the hosts that copy.
#[derive(Drop)]
struct Copying {
    line: Line,
    /// Takes Data-Ins of 8 KiB.
    first: Host,
    /// Takes Data-Ins of 256 KiB.
    second: Host,
    /// Where the next data lies on the wire.
    from: usize,
    /// The block that is written next.
    at: usize,
}

impl Copying {
    /// Makes a disk and two hosts.
    fn new(alloc: Global, seed: u64) -> Result<Copying, Fault> {
        let way = Way {
            places: PLACES,
            segment: 8_192,
            cut: CUTS[0],
        };
        let target = disks(alloc, 1, BLOCKS)?;
        let mut line = Line::new(alloc, target, Random::new(seed), 3 * PLACES, way)?;
        let first = Host::new(alloc, 0, 0, &mut line.random);
        let second = Host::new(alloc, 1, 1, &mut line.random);
        Ok(Copying {
            line,
            first,
            second,
            from: 0,
            at: 0,
        })
    }

    /// Logs both hosts in, and takes the reports of the power on.
    fn begin(&mut self) -> Result<(), Fault> {
        self.line.log_in(&mut self.first, 0, 8_192)?;
        self.line.log_in(&mut self.second, 0, 262_144)?;
        self.get(false, &Command::reading(READY, 0))?;
        self.get(true, &Command::reading(READY, 0))
    }

    /// Sends a command of the first or the second host in a stream that begins at a place of the wire.
    fn send(&mut self, second: bool, at: usize, command: &Command) -> Result<(), Fault> {
        if second {
            self.line.send_at(&mut self.second, at, command)
        } else {
            self.line.send_at(&mut self.first, at, command)
        }
    }

    /// Sends a command that gives data to the target.
    fn give(&mut self, second: bool, command: &Command) -> Result<(), Fault> {
        self.send(second, self.from, command)
    }

    /// Sends a command that takes data from the target.
    fn get(&mut self, second: bool, command: &Command) -> Result<(), Fault> {
        self.send(second, 0, command)
    }

    /// Decides how the next data is sent.
    fn turn(&mut self) {
        self.from = self.line.random.below(PLACES);
        self.line.way.segment = SEGMENTS[self.line.random.below(3) % 3];
        self.line.way.cut = CUTS[self.line.random.below(2) % 2];
    }

    /// Writes the next part of the disk, checks it now and then, and reads it.
    fn copy(&mut self, blocks: usize) -> Result<(), Fault> {
        let at = self.at;
        self.turn();
        self.give(false, &transfer(true, at, blocks))?;
        if blocks == 512 && self.line.random.once_in(2) {
            let verify = Command::writing(cdb_10(0x2f, 2, at, 512), 262_144);
            self.give(true, &verify)?;
        }
        let second = self.line.random.below(2) == 1;
        self.get(second, &transfer(false, at, blocks))?;
        self.at = at.saturating_add(blocks);
        Ok(())
    }

    /// Sets the next eight MiB to one block, and reads the first 4 KiB of them.
    fn erase(&mut self) -> Result<(), Fault> {
        self.turn();
        let same = Command::writing(cdb_10(0x41, 0, self.at, SAME), 512);
        self.give(false, &same)?;
        self.get(true, &transfer(false, self.at, 8))
    }

    /// Copies 16 parts, and erases what comes next.
    fn round(&mut self) -> Result<(), Fault> {
        for part in 0..16 {
            let blocks = if part % 2 == 0 { 512 } else { 2_048 };
            if self.at >= BLOCKS - SAME {
                self.at = 0;
            }
            self.copy(blocks)?;
        }
        self.erase()
    }

    /// Runs `rounds` rounds.
    fn run(&mut self, rounds: usize) -> Result<(), Fault> {
        self.begin()?;
        for _ in 0..rounds {
            self.round()?;
        }
        Ok(())
    }
}

/// Runs `rounds` rounds, each of 16 parts.
pub fn copies(alloc: Global, seed: u64, rounds: usize) -> Result<Outcome, Fault> {
    let mut copying = Copying::new(alloc, seed)?;
    copying.run(rounds)?;
    let mut outcome = Outcome::new();
    outcome.add(&copying.first.answers);
    outcome.add(&copying.second.answers);
    Ok(outcome)
}
