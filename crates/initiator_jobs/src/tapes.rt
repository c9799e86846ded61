//! Backups that are written to a tape, read back, and searched for places.

use crate::devices::one_tape;
use crate::fault::Fault;
use crate::host::Host;
use crate::line::{Line, Way};
use crate::outcome::Outcome;
use crate::random::Random;
use crate::requests::{Command, READY, cdb_6, cdb_10, cdb_locate};
use std::alloc::Global;

/// The number of items written in a round: records, and filemarks between them.
const ITEMS: usize = 1_000;

/// The most commands in flight.
const DEPTH: usize = 16;

/// The most bytes of a record.
const LONGEST: usize = 65_536;

/// The number of places at which a stream may begin.
const PLACES: usize = 524_288;

/// The records of a backup.
#[derive(Clone, Copy)]
enum Records {
    Long,
    Short,
    OfAnySize,
    /// 128 blocks of 512 bytes per command.
    Blocks,
}

/// The tape, and the host that writes it.
#[derive(Drop)]
struct Backup {
    line: Line,
    host: Host,
    /// The number of commands that wait to be sent.
    laid: usize,
    /// The number of items written.
    items: usize,
}

/// Returns a command without data: its operation code, byte 1, and bytes 2 to 4 as one number.
fn plain(code: u8, flags: u8, number: usize) -> Command {
    Command::reading(cdb_6(code, flags, number), 0)
}

/// Returns a READ of a record of any length.
fn read() -> Command {
    Command::reading(cdb_6(0x08, 2, LONGEST), LONGEST)
}

impl Backup {
    /// Makes an empty tape with room for this number of rounds.
    fn new(alloc: Global, seed: u64, rounds: usize) -> Result<Backup, Fault> {
        let way = Way {
            places: PLACES,
            segment: 8_192,
            cut: LONGEST,
        };
        let target = one_tape(alloc, rounds.min(1 << 20) << 22)?;
        let mut line = Line::new(alloc, target, Random::new(seed), 4 * PLACES, way)?;
        let host = Host::new(alloc, 0, 0, &mut line.random);
        Ok(Backup {
            line,
            host,
            laid: 0,
            items: 0,
        })
    }

    /// Sends everything that was laid, and takes the answers.
    fn flush(&mut self) -> Result<(), Fault> {
        self.line.exchange(&mut self.host)?;
        self.line.begin();
        self.laid = 0;
        Ok(())
    }

    /// Lays a command next. If there are enough commands, sends them.
    fn lay(&mut self, command: &Command) -> Result<(), Fault> {
        self.host
            .lay(&mut self.line.wire, command, command.immediate());
        self.laid = self.laid.saturating_add(1);
        if self.laid >= DEPTH {
            self.flush()?;
        }
        Ok(())
    }

    /// Sets the block length to 512 bytes if `length` is 2. If `length` is 0, there are no fixed blocks.
    fn set_blocks(&mut self, length: u8) -> Result<(), Fault> {
        self.flush()?;
        let list = [0, 0, 0x10, 8, 0, 0, 0, 0, 0, 0, length, 0];
        let command = Command::writing(cdb_6(0x15, 0x10, 12), 12);
        self.host.lay_data(&mut self.line.wire, &command, &list);
        self.flush()
    }

    /// Returns the command that writes the next record, or the next blocks.
    fn write(&mut self, records: Records) -> Command {
        let length = match records {
            Records::Long => LONGEST,
            Records::Short => 512,
            Records::OfAnySize => 1 + self.line.random.below(4_096),
            Records::Blocks => {
                self.items = self.items.saturating_add(127);
                return Command::writing(cdb_6(0x0a, 1, 128), LONGEST);
            }
        };
        Command::writing(cdb_6(0x0a, 0, length), length)
    }

    /// Writes a backup: records, and a filemark every few hundred and at the end.
    fn back_up(&mut self, records: Records, count: usize) -> Result<(), Fault> {
        let filemark = plain(0x10, 0, 1);
        for number in 0..count {
            self.items = self.items.saturating_add(1);
            let command = if number % 300 == 299 {
                filemark
            } else {
                self.write(records)
            };
            self.lay(&command)?;
        }
        self.items = self.items.saturating_add(1);
        self.lay(&filemark)?;
        self.flush()
    }

    /// Writes a round of backups: short records, some long ones, some of any size, and blocks.
    fn write_round(&mut self) -> Result<(), Fault> {
        self.back_up(Records::Short, ITEMS / 2)?;
        self.back_up(Records::Long, 16)?;
        self.back_up(Records::OfAnySize, ITEMS / 4)?;
        self.set_blocks(2)?;
        self.back_up(Records::Blocks, 2)?;
        self.set_blocks(0)
    }

    /// Reads the tape from its beginning.
    fn read_back(&mut self) -> Result<(), Fault> {
        self.lay(&plain(0x01, 0, 0))?;
        for _ in 0..self.items {
            self.lay(&read())?;
        }
        self.flush()
    }

    /// Looks for a place by its number, then by records and filemarks forward and backward, and asks for the position.
    fn look_up(&mut self) -> Result<(), Fault> {
        let at = self.line.random.below(self.items);
        let by = 1 + self.line.random.below(200);
        let marks = 1 + self.line.random.below(4);
        for command in [
            Command::reading(cdb_locate(at), 0),
            plain(0x11, 0, by),
            plain(0x11, 1, marks),
            read(),
            plain(0x11, 1, 0x100_0000 - marks - 1),
            plain(0x11, 0, 0x100_0000 - by),
            Command::reading(cdb_10(0x34, 0, 0, 0), 20),
        ] {
            self.lay(&command)?;
        }
        Ok(())
    }

    /// Logs in, and takes the report of the power on.
    fn begin(&mut self) -> Result<(), Fault> {
        self.line.log_in(&mut self.host, 0, 262_144)?;
        self.line.wire.begin(0);
        self.lay(&Command::reading(READY, 0))
    }

    /// Writes this number of rounds.
    fn write_rounds(&mut self, rounds: usize) -> Result<(), Fault> {
        for _ in 0..rounds {
            self.write_round()?;
        }
        Ok(())
    }

    /// Looks for this number of places.
    fn look_up_places(&mut self, places: usize) -> Result<(), Fault> {
        for _ in 0..places {
            self.look_up()?;
        }
        self.flush()
    }

    /// Writes rounds, reads them back, and looks for places among them.
    fn run(&mut self, rounds: usize) -> Result<(), Fault> {
        self.begin()?;
        self.write_rounds(rounds)?;
        self.read_back()?;
        self.look_up_places(rounds.saturating_mul(100))
    }
}

/// Writes `rounds` rounds of 1,000 items and more, reads them back, and looks for places among them.
pub fn tapes(alloc: Global, seed: u64, rounds: usize) -> Result<Outcome, Fault> {
    let mut backup = Backup::new(alloc, seed, rounds)?;
    backup.run(rounds)?;
    let mut outcome = Outcome::new();
    outcome.add(&backup.host.answers);
    Ok(outcome)
}
