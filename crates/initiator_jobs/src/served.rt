//! Initiators that the loop serves: the disks of virtual machines, and many hosts at once.

use crate::devices::{disks, name_of};
use crate::fault::Fault;
use crate::host::Host;
use crate::outcome::Outcome;
use crate::peer::{Peer, Work};
use crate::peers::Peers;
use crate::random::Random;
use crate::wire::Wire;
use iscsi_serve::turns;
use std::alloc::Global;

/// The initiators that are served, and their targets.
#[derive(Drop)]
struct Crowd {
    hosts: usize,
    targets: usize,
    /// The number of blocks of each target's disk.
    blocks: usize,
    /// The number of bytes from which an initiator takes what it sends.
    wire: usize,
    work: Work,
}

/// Makes these initiators.
fn peers(alloc: Global, crowd: &Crowd, seed: u64, rounds: usize) -> Result<Vec<Peer>, Fault> {
    let mut peers = Vec::new(alloc);
    for number in 0..crowd.hosts {
        let mut random = Random::new(seed).stream(number);
        let wire = Wire::new(alloc, &mut random, crowd.wire)?;
        let host = Host::new(alloc, number, number, &mut random);
        let name = name_of(number % crowd.targets.max(1));
        let target = (name, crowd.blocks);
        peers.push(Peer::new(host, wire, random, crowd.work, rounds, target)?)?;
    }
    Ok(peers)
}

/// Serves them until they have done their work.
fn serve(alloc: Global, crowd: &Crowd, seed: u64, rounds: usize) -> Result<Outcome, Fault> {
    let mut peers = Peers::new(peers(alloc, crowd, seed, rounds)?);
    let mut target = disks(alloc, crowd.targets, crowd.blocks)?;
    for _ in 0..u64::MAX {
        turns(&mut peers, &mut target, 256)?;
        if peers.are_done() {
            break;
        }
    }
    peers.outcome()
}

/// Serves the disks of virtual machines: one host with a disk of 128 MiB, in rounds of 1, 8 or 32 commands.
pub fn machines(alloc: Global, seed: u64, rounds: usize) -> Result<Outcome, Fault> {
    let crowd = Crowd {
        hosts: 1,
        targets: 1,
        blocks: 262_144,
        wire: 4_194_304,
        work: Work::Machine,
    };
    serve(alloc, &crowd, seed, rounds)
}

/// Serves 64 hosts on four targets, each with a disk of 32 MiB, in rounds of eight short commands, or of long ones.
pub fn crowds(alloc: Global, seed: u64, rounds: usize) -> Result<Outcome, Fault> {
    let crowd = Crowd {
        hosts: 64,
        targets: 4,
        blocks: 65_536,
        wire: 786_432,
        work: Work::Mixed,
    };
    serve(alloc, &crowd, seed, rounds)
}
