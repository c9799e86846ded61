//! An initiator with work of its own, which sends what is due and takes the answers.

use crate::answers::Answers;
use crate::fault::Fault;
use crate::host::Host;
use crate::random::Random;
use crate::requests::{Command, READY, transfer};
use crate::wire::{HEADER_LENGTH, Wire};

/// While a header is still to be sent, an answer shorter than this is put off, as the ports over sockets do.
const LONG_ANSWER: usize = 262_144;

/// The length of the segments of Data-Outs.
const SEGMENT: usize = 65_536;

/// The work that an initiator repeats.
#[derive(Clone, Copy)]
pub enum Work {
    /// The disk of a virtual machine: short READs and WRITEs, 1, 8 or 32 at a time.
    Machine,
    /// The same, eight at a time, and now and then long ones.
    Mixed,
}

/// An initiator with its work.
#[derive(Drop)]
pub struct Peer {
    host: Host,
    wire: Wire,
    random: Random,
    work: Work,
    /// The number of rounds left to do.
    left: usize,
    /// The number of blocks of its disk.
    blocks: usize,
    /// The number of bytes of the stream that were read.
    sent: usize,
    /// Whether any were read since the last poll.
    has_sent: bool,
}

impl Peer {
    /// Returns an initiator that will log in to a target, and do `rounds` rounds of its work there.
    pub fn new(
        mut host: Host,
        mut wire: Wire,
        random: Random,
        work: Work,
        rounds: usize,
        target: (&str, usize),
    ) -> Result<Peer, Fault> {
        wire.begin(0);
        host.lay_login(&mut wire, target.0, 262_144)?;
        Ok(Peer {
            host,
            wire,
            random,
            work,
            left: rounds.saturating_add(1),
            blocks: target.1,
            sent: 0,
            has_sent: false,
        })
    }

    /// Returns whether it has done all its work.
    pub fn is_done(&self) -> bool {
        self.left == 0 && self.ahead() == 0 && self.host.has_all()
    }

    /// Returns the answers that it took.
    pub fn answers(&self) -> &Answers {
        &self.host.answers
    }

    /// Returns the number of bytes of the stream that are left.
    fn ahead(&self) -> usize {
        self.wire.stream().len().saturating_sub(self.sent)
    }

    /// Returns whether it has something to send. If nothing is left of the stream, first lays what is due.
    pub fn is_ready(&mut self) -> bool {
        self.has_sent = false;
        if self.ahead() == 0 {
            self.go_on();
        }
        self.ahead() > 0
    }

    /// Sends what comes next, as far as there is room, and returns the number of bytes.
    pub fn read(&mut self, buffer: &mut [u8]) -> usize {
        let stream = self.wire.stream();
        let from = self.sent.min(stream.len());
        let count = buffer.len().min(stream.len() - from);
        buffer[..count].copy_from_slice(&stream[from..from + count]);
        self.sent = from + count;
        self.has_sent = count > 0;
        count
    }

    /// Takes an answer, or puts it off, and returns the number of bytes taken.
    pub fn write(&mut self, bytes: &[u8]) -> Result<usize, Fault> {
        if self.has_sent && self.ahead() >= HEADER_LENGTH && bytes.len() < LONG_ANSWER {
            return Ok(0);
        }
        self.host.answers.take(bytes)?;
        Ok(bytes.len())
    }

    /// Lays what comes next after everything was sent: the requested data, or, after everything is answered, the next
    /// round.
    fn go_on(&mut self) {
        if !self.host.answers.asked.is_empty() {
            self.wire.go_on();
            self.sent = 0;
            self.host.lay_asked(&mut self.wire, SEGMENT);
            return;
        }
        if self.left == 0 || !self.host.has_all() {
            return;
        }
        self.left -= 1;
        self.sent = 0;
        self.wire.begin(self.random.below(196_608));
        self.begin_round();
    }

    /// Lays the commands of a round next. The first of a session is TEST UNIT READY, which reports the power on.
    fn begin_round(&mut self) {
        if self.host.answers.ended == 1 {
            let ready = Command::reading(READY, 0);
            self.host.lay(&mut self.wire, &ready, 0);
            return;
        }
        match self.work {
            Work::Machine => {
                let depth = [1, 8, 32][self.random.below(3) % 3];
                self.lay_short(depth);
            }
            Work::Mixed => match self.random.below(8) {
                0 => self.lay_long(true, 512),
                1 => self.lay_long(false, 2_048),
                2 => {
                    self.lay_long(false, 512);
                    self.lay_long(false, 512);
                }
                _ => self.lay_short(8),
            },
        }
    }

    /// Lays `depth` short READs and WRITEs next: seven READs for three WRITEs, most of them of 4 KiB.
    fn lay_short(&mut self, depth: usize) {
        for _ in 0..depth {
            let blocks = if self.random.once_in(16) {
                16 * (1 + self.random.below(8))
            } else {
                8
            };
            let writes = self.random.below(10) < 3;
            let data = if writes { 512 * blocks.min(128) } else { 0 };
            if !self.wire.has_room(data) {
                break;
            }
            let at = self.random.below(self.blocks / 8) / 2 * 16;
            let command = transfer(writes, at.min(self.blocks.saturating_sub(128)), blocks);
            self.host.lay(&mut self.wire, &command, data);
        }
    }

    /// Lays a long READ or WRITE next, if there is room.
    fn lay_long(&mut self, writes: bool, blocks: usize) {
        if !self.wire.has_room(512 * blocks.min(2_048)) {
            return;
        }
        let at = self.random.below(self.blocks.saturating_sub(blocks));
        let command = transfer(writes, at, blocks);
        self.host.lay(&mut self.wire, &command, command.immediate());
    }
}
