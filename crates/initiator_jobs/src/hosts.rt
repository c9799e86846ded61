//! Hosts that log in as libiscsi and open-iscsi do, most of them with one ISID. They share a disk, and write archives
//! to a tape.

use crate::archives::Archives;
use crate::devices::{disks, name_of};
use crate::fault::Fault;
use crate::host::Host;
use crate::line::{Line, Way};
use crate::logins::{CUT, Initiator, SEGMENT};
use crate::outcome::Outcome;
use crate::random::Random;
use crate::requests::{Cdb, Command, READY, cdb_10, transfer};
use std::alloc::Global;

/// The number of hosts.
const HOSTS: usize = 64;

/// The number of blocks of the disk: 32 MiB.
const BLOCKS: usize = 65_536;

/// The number of blocks of a long WRITE: 256 KiB.
const LONG: usize = 512;

/// The number of blocks of a short READ or WRITE.
const SHORT: usize = 8;

/// The length of the part of the wire in which a stream may begin.
const BEGINNINGS: usize = 524_288;

/// What a host asks the disk, and how many bytes it takes: TEST UNIT READY twice, and INQUIRY.
const QUESTIONS: [(Cdb, usize); 3] = [
    (READY, 0),
    (READY, 0),
    ([0x12, 0, 0, 0, 64, 0, 0, 0, 0, 0, 0, 0, 0, 0, 0, 0], 64),
];

/// Starts a host: it logs in, takes the report of the power on, looks at the disk, and registers with its key.
fn start(line: &mut Line, initiator: &mut Initiator) -> Result<(), Fault> {
    initiator.log_in(line)?;
    let host = &mut initiator.host;
    for (cdb, expected) in QUESTIONS.iter() {
        line.send(host, &Command::reading(*cdb, *expected))?;
    }
    line.reserve(host, 6, 0, [0, key_of(host)])
}

/// Writes blocks, and reads the first of them.
fn copy(line: &mut Line, host: &mut Host, blocks: usize) -> Result<(), Fault> {
    let at = line.random.below(BLOCKS - LONG);
    line.send(host, &transfer(true, at, blocks))?;
    line.send(host, &transfer(false, at, SHORT))
}

/// Writes and reads, and asks who holds the disk.
fn work(line: &mut Line, host: &mut Host) -> Result<(), Fault> {
    copy(line, host, SHORT)?;
    copy(line, host, SHORT)?;
    line.send(host, &Command::reading(cdb_10(0x5e, 1, 0, 24), 24))
}

/// Returns a host's reservation key.
fn key_of(host: &Host) -> u64 {
    0x1_0000 | host.number as u64
}

/// Makes all hosts.
fn initiators(alloc: Global, random: &mut Random) -> Result<Vec<Initiator>, Fault> {
    let mut all = Vec::new(alloc);
    for number in 0..HOSTS {
        all.push(Initiator::new(alloc, number, name_of(0), random)?)?;
    }
    Ok(all)
}

/// Starts all hosts.
fn start_all(line: &mut Line, all: &mut [Initiator]) -> Result<(), Fault> {
    for initiator in all.iter_mut() {
        start(line, initiator)?;
    }
    Ok(())
}

/// Sends a PERSISTENT RESERVE OUT with this service action from one host. The type is write exclusive, registrants
/// only.
fn hold(line: &mut Line, all: &mut [Initiator], number: usize, action: u8) -> Result<(), Fault> {
    if number >= all.len() {
        return Ok(());
    }
    let host = &mut all[number].host;
    let key = key_of(host);
    line.reserve(host, action, 5, [key, 0])
}

/// Lets all hosts work. Eight of them, each with a different way to log in, also write 256 KiB, and eight send a text.
fn work_all(line: &mut Line, all: &mut [Initiator]) -> Result<(), Fault> {
    let writing = line.random.below(8);
    let asking = line.random.below(8);
    for initiator in all.iter_mut() {
        work(line, &mut initiator.host)?;
        if initiator.host.number / 8 == writing {
            copy(line, &mut initiator.host, LONG)?;
        }
        if initiator.host.number / 8 == asking {
            initiator.ask(line)?;
        }
    }
    Ok(())
}

/// Logs all hosts out.
fn log_all_out(line: &mut Line, all: &mut [Initiator]) -> Result<(), Fault> {
    for initiator in all.iter_mut() {
        line.log_out(&mut initiator.host)?;
    }
    Ok(())
}

/// Starts all hosts, lets them work while one of them holds the disk, and logs them out.
fn round(line: &mut Line, all: &mut [Initiator]) -> Result<(), Fault> {
    let holder = line.random.below(HOSTS);
    start_all(line, all)?;
    hold(line, all, holder, 1)?;
    work_all(line, all)?;
    hold(line, all, holder, 2)?;
    log_all_out(line, all)
}

/// Runs `rounds` rounds, each of them followed by one of the archives.
fn run(
    line: &mut Line,
    all: &mut [Initiator],
    archives: &mut Archives,
    rounds: usize,
) -> Result<(), Fault> {
    archives.begin()?;
    for _ in 0..rounds {
        round(line, all)?;
        archives.round()?;
    }
    Ok(())
}

/// Returns what the hosts and the archives were answered.
fn outcome_of(all: &[Initiator], archives: &Archives) -> Outcome {
    let mut outcome = Outcome::new();
    for initiator in all {
        outcome.add(&initiator.host.answers);
    }
    outcome.add(archives.answers());
    outcome
}

/// Runs `rounds` rounds on this line.
fn run_on(
    line: &mut Line,
    alloc: Global,
    archives: &mut Archives,
    rounds: usize,
) -> Result<Outcome, Fault> {
    let mut all = initiators(alloc, &mut line.random)?;
    run(line, all.as_mut_slice(), archives, rounds)?;
    Ok(outcome_of(all.as_slice(), archives))
}

/// Makes the disk, and runs `rounds` rounds on it.
fn run_beside(
    alloc: Global,
    random: Random,
    archives: &mut Archives,
    rounds: usize,
) -> Result<Outcome, Fault> {
    let way = Way {
        places: BEGINNINGS,
        segment: SEGMENT,
        cut: CUT,
    };
    let mut line = Line::new(alloc, disks(alloc, 1, BLOCKS)?, random, 2 * BEGINNINGS, way)?;
    run_on(&mut line, alloc, archives, rounds)
}

/// Runs `rounds` rounds.
pub fn hosts(alloc: Global, seed: u64, rounds: usize) -> Result<Outcome, Fault> {
    let random = Random::new(seed);
    let mut archives = Archives::new(alloc, random.stream(1), rounds)?;
    run_beside(alloc, random, &mut archives, rounds)
}
