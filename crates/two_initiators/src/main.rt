//! Initiators on one target while memory runs short: the answers to each of them.
//!
//! Each line of standard input names a connection, 0 or 1, and bytes that come on it, in hexadecimal digits. They
//! reach a target `t1` with a disk, LUN 0, and a tape, LUN 1, in memory. The program prints, line by line:
//!
//! ```text
//! 0 23870000     bytes of the target's answer on connection 0: of a large answer a line for each SCSI Data-In
//! 0 starved      the target closed connection 0, since an allocation failed
//! ```
//!
//! It prints an empty line after each line that was read. A test lets one allocation fail after the other, and looks
//! at the answers to the other initiator. If the program itself is out of memory, it ends with status 3.
#![tactic(auto)]

mod example;

use hex::FromHexError;
use iscsi_target::{Config, Memory, Serial, Starved, Target, Unit, Units};
use media_block::{BLOCK_LENGTH, Disk};
use media_store::MemStore;
use media_tape::{Tape, TapeOpenFault};
use std::alloc::{AllocError, AllocFailed, Global};
use std::io::{self, ErrorKind, Input};
use std::process::ExitCode;

/// The reason why the program ends before its input does.
enum Fault {
    OutOfMemory,
    Unopened,
    Line,
    Stream,
}

impl From<Memory> for Fault {
    fn from(_e: Memory) -> Fault {
        Fault::OutOfMemory
    }
}

impl From<media_block::NotOpened<MemStore>> for Fault {
    fn from(_e: media_block::NotOpened<MemStore>) -> Fault {
        Fault::Unopened
    }
}

impl From<media_tape::NotOpened<MemStore>> for Fault {
    fn from(e: media_tape::NotOpened<MemStore>) -> Fault {
        match e.fault {
            TapeOpenFault::OutOfMemory => Fault::OutOfMemory,
            _ => Fault::Unopened,
        }
    }
}

impl From<AllocError> for Fault {
    fn from(_e: AllocError) -> Fault {
        Fault::OutOfMemory
    }
}

impl<T: Drop> From<AllocFailed<T>> for Fault {
    fn from(_e: AllocFailed<T>) -> Fault {
        Fault::OutOfMemory
    }
}

impl From<io::Error> for Fault {
    fn from(e: io::Error) -> Fault {
        match e.kind() {
            ErrorKind::OutOfMemory => Fault::OutOfMemory,
            _ => Fault::Stream,
        }
    }
}

/// The blocks of the disk.
const BLOCKS: usize = 4096;

/// The capacity of the tape in bytes, and its early-warning position.
const CAPACITY: usize = 100_000;

const EARLY: u64 = 90_000;

fn disk(alloc: Global) -> Result<Unit<MemStore>, Fault> {
    let store = MemStore::new(alloc, BLOCKS * BLOCK_LENGTH, BLOCKS * BLOCK_LENGTH)?;
    let serial = Serial::new(String::from_str(alloc, "D0")?);
    Ok(Unit::disk(alloc, 0, serial, Disk::open(store)?))
}

fn tape(alloc: Global) -> Result<Unit<MemStore>, Fault> {
    let store = MemStore::new(alloc, 0, CAPACITY)?;
    let serial = Serial::new(String::from_str(alloc, "T1")?);
    let tape = Tape::open(alloc, store, CAPACITY as u64, EARLY)?;
    Ok(Unit::tape(alloc, 1, serial, tape))
}

/// Returns a target `t1` with a disk and a tape.
fn target(alloc: Global) -> Result<Target<MemStore>, Fault> {
    let mut names = Vec::new(alloc);
    names.push(String::from_str(alloc, "t1")?)?;
    let mut both = Vec::new(alloc);
    both.push(disk(alloc)?)?;
    both.push(tape(alloc)?)?;
    let mut units = Vec::new(alloc);
    units.push(Units::new(alloc, both)?)?;
    let config = Config {
        listen: String::new(alloc),
        targets: names,
    };
    Ok(Target::new(alloc, config, units)?)
}

/// Prints the next bytes of the target's answer on a connection and marks them as sent. Returns whether there were
/// any.
fn print_front(rt: &HostRuntime, target: &mut Target<MemStore>, c: usize) -> Result<bool, Fault> {
    if c >= 64 || !target.is_open(c) {
        return Ok(false);
    }
    let front = target.out(c);
    if front.is_empty() {
        return Ok(false);
    }
    let digits = hex::encode(rt.alloc(), front)?;
    println!(rt; "{c} {digits}")?;
    let count = front.len();
    target.sent(c, count);
    Ok(true)
}

/// Prints all of the target's answer on a connection and marks it as sent.
fn print_answer(rt: &HostRuntime, target: &mut Target<MemStore>, c: usize) -> Result<(), Fault> {
    for _ in 0..u64::MAX {
        if !print_front(rt, target, c)? {
            break;
        }
    }
    Ok(())
}

/// Feeds a piece to the target, and prints the answers on both connections.
fn bring(
    rt: &HostRuntime,
    target: &mut Target<MemStore>,
    c: usize,
    digits: &str,
) -> Result<(), Fault> {
    let piece = match hex::decode(rt.alloc(), digits) {
        Ok(piece) => piece,
        Err(FromHexError::OutOfMemory) => return Err(Fault::OutOfMemory),
        Err(_) => return Err(Fault::Line),
    };
    if c < 64 && target.is_open(c) {
        if let Err(Starved { connection }) = target.feed(c, piece.as_slice()) {
            println!(rt; "{connection} starved")?;
        }
    }
    print_answer(rt, target, 0)?;
    print_answer(rt, target, 1)?;
    println!(rt; "")?;
    Ok(())
}

/// Feeds the lines of standard input to one target.
fn run(rt: &HostRuntime) -> Result<(), Fault> {
    let mut target = target(rt.alloc())?;
    for c in 0..2 {
        if !target.is_open(c) {
            let _ = target.open(c);
        }
    }
    for line in rt.lines(rt.alloc()) {
        let line = line?;
        match line.as_str().split_once(' ') {
            Some(("0", digits)) => bring(rt, &mut target, 0, digits)?,
            Some(("1", digits)) => bring(rt, &mut target, 1, digits)?,
            _ => return Err(Fault::Line),
        }
    }
    Ok(())
}

fn main(rt: HostRuntime) -> ExitCode {
    match run(&rt) {
        Ok(()) => ExitCode::from(0),
        Err(Fault::OutOfMemory) => ExitCode::from(3),
        Err(Fault::Unopened | Fault::Line | Fault::Stream) => ExitCode::from(1),
    }
}
