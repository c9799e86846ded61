//! A target, and the bytes that initiators send to it.

use crate::devices::{Targets, name_of};
use crate::exchange::{bring, close, drain, open};
use crate::fault::Fault;
use crate::host::Host;
use crate::random::Random;
use crate::requests::{Command, cdb_10};
use crate::wire::Wire;
use std::alloc::Global;

/// The number of exchanges that is enough for any command.
const MOST_EXCHANGES: usize = 64;

/// How bytes are sent.
#[derive(Clone, Copy)]
pub struct Way {
    /// The number of places at which a stream may begin.
    pub places: usize,
    /// The length of the segments of Data-Outs.
    pub segment: usize,
    /// The length of the pieces in which bytes arrive.
    pub cut: usize,
}

/// A target, the bytes that are sent to it, and the numbers that decide them.
#[derive(Drop)]
pub struct Line {
    pub target: Targets,
    pub wire: Wire,
    pub random: Random,
    pub way: Way,
}

impl Line {
    /// Returns a line to a target, with a wire of `length` random bytes.
    pub fn new(
        alloc: Global,
        target: Targets,
        mut random: Random,
        length: usize,
        way: Way,
    ) -> Result<Line, Fault> {
        let wire = Wire::new(alloc, &mut random, length)?;
        Ok(Line {
            target,
            wire,
            random,
            way,
        })
    }

    /// Begins a stream at a random place.
    pub fn begin(&mut self) {
        self.wire.begin(self.random.below(self.way.places));
    }

    /// Brings the stream and the data that is requested, until everything is answered.
    pub fn exchange(&mut self, host: &mut Host) -> Result<(), Fault> {
        for _ in 0..MOST_EXCHANGES {
            bring(&mut self.target, host.c, self.wire.stream(), self.way.cut)?;
            drain(&mut self.target, host)?;
            if host.answers.asked.is_empty() {
                break;
            }
            self.wire.go_on();
            host.lay_asked(&mut self.wire, self.way.segment);
        }
        if host.has_all() {
            Ok(())
        } else {
            Err(Fault::Unanswered)
        }
    }

    /// Sends a command in a stream that begins at this place, and waits for its answer.
    pub fn send_at(&mut self, host: &mut Host, at: usize, command: &Command) -> Result<(), Fault> {
        self.wire.begin(at);
        host.lay(&mut self.wire, command, command.immediate());
        self.exchange(host)
    }

    /// Sends a command in a stream that begins at a random place, and waits for its answer.
    pub fn send(&mut self, host: &mut Host, command: &Command) -> Result<(), Fault> {
        let at = self.random.below(self.way.places);
        self.send_at(host, at, command)
    }

    /// Sends a PERSISTENT RESERVE OUT with a service action, a type and keys.
    pub fn reserve(
        &mut self,
        host: &mut Host,
        action: u8,
        kind: usize,
        keys: [u64; 2],
    ) -> Result<(), Fault> {
        let mut list = [0; 24];
        list[..8].copy_from_slice(&keys[0].to_be_bytes());
        list[8..16].copy_from_slice(&keys[1].to_be_bytes());
        let command = Command::writing(cdb_10(0x5f, action, kind << 24, 24), 24);
        self.wire.begin(0);
        host.lay_data(&mut self.wire, &command, &list);
        self.exchange(host)
    }

    /// Opens a connection and logs in to the target with this number, for Data-Ins of `segment` bytes.
    pub fn log_in(&mut self, host: &mut Host, number: usize, segment: usize) -> Result<(), Fault> {
        open(&mut self.target, host.c)?;
        self.wire.begin(0);
        host.lay_login(&mut self.wire, name_of(number), segment)?;
        self.exchange(host)
    }

    /// Ends a session, and its connection.
    pub fn log_out(&mut self, host: &mut Host) -> Result<(), Fault> {
        self.wire.begin(0);
        host.lay_logout(&mut self.wire);
        self.exchange(host)?;
        close(&mut self.target, host.c)
    }
}
