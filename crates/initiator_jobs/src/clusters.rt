//! Hosts that start, and share a disk: discovery, logins, what initiators ask first, registrations and reservations.

use crate::devices::disks;
use crate::exchange::open;
use crate::fault::Fault;
use crate::host::Host;
use crate::line::{Line, Way};
use crate::outcome::Outcome;
use crate::random::Random;
use crate::requests::{Cdb, Command, READY, cdb_10, cdb_16};
use std::alloc::Global;

/// The number of hosts.
const HOSTS: usize = 64;

/// What an initiator asks a disk that it has found, and how many bytes it takes: TEST UNIT READY, REPORT LUNS, INQUIRY,
/// MODE SENSE, REQUEST SENSE, READ CAPACITY (10 and 16) and READ.
const QUESTIONS: [(Cdb, usize); 16] = [
    (READY, 0),
    (READY, 0),
    ([0xa0, 0, 0, 0, 0, 0, 0, 0, 16, 0, 0, 0, 0, 0, 0, 0], 4_096),
    ([0x12, 0, 0, 0, 36, 0, 0, 0, 0, 0, 0, 0, 0, 0, 0, 0], 36),
    ([0x12, 1, 0, 0, 255, 0, 0, 0, 0, 0, 0, 0, 0, 0, 0, 0], 255),
    (
        [0x12, 1, 0x80, 0, 255, 0, 0, 0, 0, 0, 0, 0, 0, 0, 0, 0],
        255,
    ),
    (
        [0x12, 1, 0x83, 0, 255, 0, 0, 0, 0, 0, 0, 0, 0, 0, 0, 0],
        255,
    ),
    ([0x12, 1, 0xb0, 0, 64, 0, 0, 0, 0, 0, 0, 0, 0, 0, 0, 0], 64),
    ([0x12, 1, 0xb1, 0, 64, 0, 0, 0, 0, 0, 0, 0, 0, 0, 0, 0], 64),
    (
        [0x1a, 0, 0x3f, 0, 255, 0, 0, 0, 0, 0, 0, 0, 0, 0, 0, 0],
        255,
    ),
    (
        [0x1a, 8, 0x08, 0, 192, 0, 0, 0, 0, 0, 0, 0, 0, 0, 0, 0],
        192,
    ),
    ([0x1a, 0, 0x0a, 0, 24, 0, 0, 0, 0, 0, 0, 0, 0, 0, 0, 0], 24),
    ([0x03, 0, 0, 0, 252, 0, 0, 0, 0, 0, 0, 0, 0, 0, 0, 0], 252),
    ([0x25, 0, 0, 0, 0, 0, 0, 0, 0, 0, 0, 0, 0, 0, 0, 0], 8),
    ([0x9e, 0x10, 0, 0, 0, 0, 0, 0, 0, 0, 0, 0, 0, 32, 0, 0], 32),
    ([0x28, 0, 0, 0, 0, 0, 0, 0, 8, 0, 0, 0, 0, 0, 0, 0], 4_096),
];

/// Asks for `expected` bytes by a command.
fn ask(line: &mut Line, host: &mut Host, cdb: Cdb, expected: usize) -> Result<(), Fault> {
    line.send_at(host, 0, &Command::reading(cdb, expected))
}

/// Opens a discovery session, asks for all targets, and logs out.
fn discover(line: &mut Line, host: &mut Host) -> Result<(), Fault> {
    open(&mut line.target, host.c)?;
    line.wire.begin(0);
    host.lay_discovery(&mut line.wire)?;
    line.exchange(host)?;
    line.wire.begin(0);
    host.lay_send_targets(&mut line.wire);
    line.exchange(host)?;
    line.log_out(host)
}

/// Asks what an initiator asks first.
fn look(line: &mut Line, host: &mut Host) -> Result<(), Fault> {
    for (cdb, expected) in QUESTIONS.iter() {
        ask(line, host, *cdb, *expected)?;
    }
    Ok(())
}

/// Registers a host with a key of its own, and tries to reserve.
fn join(line: &mut Line, host: &mut Host) -> Result<(), Fault> {
    let key = line.random.number();
    line.reserve(host, 6, 0, [0, key])?;
    ask(line, host, cdb_10(0x5e, 0, 0, 1_024), 1_024)?;
    line.reserve(host, 1, 5, [key, 0])?;
    ask(line, host, cdb_10(0x5e, 1, 0, 24), 24)?;
    ask(line, host, READY, 0)?;
    lock(line, host)?;
    if line.random.once_in(4) {
        return line.reserve(host, 2, 5, [key, 0]);
    }
    Ok(())
}

/// Writes a block, and exchanges it for another twice by COMPARE AND WRITE.
fn lock(line: &mut Line, host: &mut Host) -> Result<(), Fault> {
    let at = line.random.below(1_024);
    let from = line.random.below(65_536);
    let exchange = Command::writing(cdb_16(0x89, 0, at, 1), 1_024);
    line.send_at(host, from, &Command::writing(cdb_10(0x2a, 0, at, 1), 512))?;
    line.send_at(host, from, &exchange)?;
    line.send_at(host, from + 512, &exchange)
}

/// Starts a host: it discovers the targets, logs in, asks its first questions, and registers.
fn start(line: &mut Line, host: &mut Host) -> Result<(), Fault> {
    discover(line, host)?;
    line.log_in(host, host.number % 2, 262_144)?;
    look(line, host)?;
    join(line, host)
}

/// Makes all hosts.
fn hosts(alloc: Global, random: &mut Random) -> Result<Vec<Host>, Fault> {
    let mut hosts = Vec::new(alloc);
    for number in 0..HOSTS {
        hosts.push(Host::new(alloc, number, number, random))?;
    }
    Ok(hosts)
}

/// Starts all hosts one after the other, beginning with a random one.
fn start_all(line: &mut Line, hosts: &mut [Host]) -> Result<(), Fault> {
    let first = line.random.below(HOSTS);
    for place in 0..HOSTS {
        let number = (first + place) % HOSTS;
        if number < hosts.len() {
            start(line, &mut hosts[number])?;
        }
    }
    Ok(())
}

/// Logs all hosts out.
fn log_all_out(line: &mut Line, hosts: &mut [Host]) -> Result<(), Fault> {
    for host in hosts.iter_mut() {
        line.log_out(host)?;
    }
    Ok(())
}

/// Starts all hosts `rounds` times.
fn run(line: &mut Line, hosts: &mut [Host], rounds: usize) -> Result<(), Fault> {
    for _ in 0..rounds {
        start_all(line, hosts)?;
        log_all_out(line, hosts)?;
    }
    Ok(())
}

/// Returns what the hosts were answered.
fn outcome_of(hosts: &[Host]) -> Outcome {
    let mut outcome = Outcome::new();
    for host in hosts {
        outcome.add(&host.answers);
    }
    outcome
}

/// Starts all hosts `rounds` times, on this line.
fn run_on(line: &mut Line, alloc: Global, rounds: usize) -> Result<Outcome, Fault> {
    let mut hosts = hosts(alloc, &mut line.random)?;
    run(line, hosts.as_mut_slice(), rounds)?;
    Ok(outcome_of(hosts.as_slice()))
}

/// Starts all hosts `rounds` times, on two targets.
pub fn clusters(alloc: Global, seed: u64, rounds: usize) -> Result<Outcome, Fault> {
    let way = Way {
        places: 65_536,
        segment: 8_192,
        cut: 65_536,
    };
    let target = disks(alloc, 2, 65_536)?;
    let mut line = Line::new(alloc, target, Random::new(seed), 131_072, way)?;
    run_on(&mut line, alloc, rounds)
}
