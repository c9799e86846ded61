//! What unusual initiators and slow connections send: single bytes, small segments and commands out of order. Tasks are
//! aborted with half of their data, and long texts come in pieces.

use crate::answers::Asked;
use crate::devices::disks;
use crate::exchange::{bring, drain, feed};
use crate::fault::Fault;
use crate::host::Host;
use crate::line::{Line, Way};
use crate::outcome::Outcome;
use crate::random::Random;
use crate::requests::{
    Command, Header, READY, abort_task, data_out, ping, scsi_command, text, transfer,
};
use std::alloc::{AllocError, Global};

/// The number of blocks of the disk: 64 MiB.
const BLOCKS: usize = 131_072;

/// The length of the segments of Data-Ins and Data-Outs, which is the smallest allowed.
const SEGMENT: usize = 512;

/// The number of commands in a window.
const WINDOW: usize = 32;

/// The number of places at which a stream may begin.
const PLACES: usize = 262_144;

/// The most bytes that the loop reads at a time.
const CUT: usize = 65_536;

/// The disk, and a host that puts it to the test.
#[derive(Drop)]
struct Trial {
    line: Line,
    host: Host,
    alloc: Global,
}

impl Trial {
    /// Makes a disk and a host.
    fn new(alloc: Global, seed: u64) -> Result<Trial, Fault> {
        let way = Way {
            places: PLACES,
            segment: SEGMENT,
            cut: CUT,
        };
        let target = disks(alloc, 1, BLOCKS)?;
        let mut line = Line::new(alloc, target, Random::new(seed), 4 * PLACES, way)?;
        let host = Host::new(alloc, 0, 0, &mut line.random);
        Ok(Trial { line, host, alloc })
    }

    /// Returns a WRITE or a READ of blocks at a random place of the disk.
    fn command(&mut self, writes: bool, blocks: usize) -> Command {
        let at = self.line.random.below(BLOCKS.saturating_sub(blocks));
        transfer(writes, at, blocks)
    }

    /// Lays a PDU next, with `data` bytes of data, and expects its answer.
    fn lay(&mut self, header: &Header, data: usize) {
        self.line.wire.lay(header, data);
        self.host.expect();
    }

    /// Brings the stream in pieces of `cut` bytes, and takes the answers.
    fn exchange(&mut self, cut: usize) -> Result<(), Fault> {
        self.line.way.cut = cut;
        self.line.exchange(&mut self.host)
    }

    /// Sends a WRITE of 1 KiB, a READ and a NOP-Out byte by byte.
    fn by_bytes(&mut self) -> Result<(), Fault> {
        self.line.begin();
        let write = self.command(true, 2);
        let read = self.command(false, 1);
        self.host.lay(&mut self.line.wire, &write, 1_024);
        self.host.lay(&mut self.line.wire, &read, 0);
        let (tag, cmd_sn) = (self.host.next_tag(), self.host.next_cmd_sn());
        self.lay(&ping(tag, cmd_sn, 100), 100);
        self.exchange(1)
    }

    /// Sends a WRITE and a READ of 128 KiB in the smallest segments.
    fn in_small_segments(&mut self) -> Result<(), Fault> {
        self.line.begin();
        let write = self.command(true, 256);
        let read = self.command(false, 256);
        self.host.lay(&mut self.line.wire, &write, SEGMENT);
        self.host.lay(&mut self.line.wire, &read, 0);
        self.exchange(1_448)
    }

    /// Lays a full window of READs and WRITEs of one block, with the last command first.
    fn lay_window(&mut self) {
        let first = self.host.cmd_sn();
        for place in 0..WINDOW {
            let ahead = (WINDOW - 1 - place) as u32;
            let command = self.command(place % 2 == 0, 1);
            let data = command.immediate();
            let (tag, _) = (self.host.next_tag(), self.host.next_cmd_sn());
            let header = scsi_command(&command, tag, first.wrapping_add(ahead), data);
            self.lay(&header, data);
        }
    }

    /// Sends a full window of READs and WRITEs out of order, as one piece.
    fn out_of_order(&mut self) -> Result<(), Fault> {
        self.line.begin();
        self.lay_window();
        feed(&mut self.line.target, self.host.c, self.line.wire.stream())?;
        drain(&mut self.line.target, &mut self.host)
    }

    /// Lays half of the data that was requested, in small segments.
    fn lay_half(&mut self, tag: u32, part: Asked) {
        for number in 0..64u32 {
            let offset = part.offset.wrapping_add(512 * number);
            let header = data_out(tag, part.transfer, number, offset, SEGMENT, false);
            self.line.wire.lay(&header, SEGMENT);
        }
    }

    /// Sends half of the data that was requested, in small segments, and then aborts the task.
    fn aborted(&mut self) -> Result<(), Fault> {
        self.line.begin();
        let command = self.command(true, 256);
        let cmd_sn = self.host.cmd_sn();
        let tag = self.host.lay(&mut self.line.wire, &command, 65_536);
        bring(
            &mut self.line.target,
            self.host.c,
            self.line.wire.stream(),
            CUT,
        )?;
        drain(&mut self.line.target, &mut self.host)?;
        self.line.wire.go_on();
        if let Some(part) = self.host.answers.asked.pop() {
            self.lay_half(tag, part);
        }
        let function = abort_task(self.host.next_tag(), tag, cmd_sn, self.host.cmd_sn());
        self.line.wire.lay(&function, 0);
        self.exchange(CUT)
    }

    /// Returns a text of about `length` bytes, with unknown keys.
    fn long_text(&mut self, length: usize) -> Result<String, AllocError> {
        let mut all = String::with_capacity(self.alloc, length)?;
        for number in 0..length / 64 {
            let value = self.line.random.number();
            write!(all, "X-com.example.key{number}={value:016x}{value:016x}\0")?;
        }
        Ok(all)
    }

    /// Sends a text in pieces of 512 bytes.
    fn send_pieces(&mut self, all: &[u8]) -> Result<(), Fault> {
        let mut transfer = 0xffff_ffff;
        let mut rest = all;
        for _ in 0..all.len() {
            let (front, behind) = rest.split_at(SEGMENT.min(rest.len()));
            rest = behind;
            let flags = if rest.is_empty() { 0x80 } else { 0x40 };
            self.ask(flags, transfer, front)?;
            transfer = self.host.answers.transfer;
            if rest.is_empty() {
                break;
            }
        }
        Ok(())
    }

    /// Sends a text of 64 KiB in pieces of 512 bytes, and requests its answer piece by piece.
    fn text_in_pieces(&mut self) -> Result<(), Fault> {
        let all = self.long_text(65_000)?;
        self.send_pieces(all.as_bytes())?;
        for _ in 0..all.len() {
            if self.host.answers.flags & 0x40 == 0 {
                break;
            }
            self.ask(0x80, self.host.answers.transfer, &[])?;
        }
        Ok(())
    }

    /// Sends a Text Request, and takes its answer.
    fn ask(&mut self, flags: u8, transfer: u32, piece: &[u8]) -> Result<(), Fault> {
        let (tag, cmd_sn) = (self.host.next_tag(), self.host.next_cmd_sn());
        let header = text(flags, tag, transfer, cmd_sn, piece.len());
        self.line.wire.begin(0);
        self.line.wire.lay_text(&header, piece);
        self.host.expect();
        self.exchange(CUT)
    }

    /// Sends the commands of each kind four times, and then the long text.
    fn round(&mut self) -> Result<(), Fault> {
        for _ in 0..4 {
            self.by_bytes()?;
            self.in_small_segments()?;
            self.out_of_order()?;
            self.aborted()?;
        }
        self.text_in_pieces()
    }

    /// Logs in, takes the report of the power on, and runs `rounds` rounds.
    fn run(&mut self, rounds: usize) -> Result<(), Fault> {
        self.line.log_in(&mut self.host, 0, SEGMENT)?;
        self.line
            .send_at(&mut self.host, 0, &Command::reading(READY, 0))?;
        for _ in 0..rounds {
            self.round()?;
        }
        Ok(())
    }
}

/// Runs `rounds` rounds.
pub fn awkward(alloc: Global, seed: u64, rounds: usize) -> Result<Outcome, Fault> {
    let mut trial = Trial::new(alloc, seed)?;
    trial.run(rounds)?;
    let mut outcome = Outcome::new();
    outcome.add(&trial.host.answers);
    Ok(outcome)
}
