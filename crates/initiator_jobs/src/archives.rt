//! Archives that are written to a tape as tar does, read back, and searched for places.

use crate::answers::Answers;
use crate::devices::{name_of, one_tape};
use crate::fault::Fault;
use crate::line::{Line, Way};
use crate::logins::{CUT, Initiator, SEGMENT};
use crate::random::Random;
use crate::requests::{Command, READY, cdb_6};
use std::alloc::Global;

/// The length of tar's records in bytes.
const RECORD: usize = 10_240;

/// The number of files that a round adds.
const FILES: usize = 4;

/// The number of records of the longest file.
const LONGEST: usize = 8;

/// The number of places that a round looks for.
const PLACES: usize = 8;

/// The number of filemarks that are spaced over one by one.
const STEPS: usize = 3;

/// The length of the part of the wire in which a stream may begin.
const BEGINNINGS: usize = 65_536;

/// The tape, and the host that writes it.
#[derive(Drop)]
pub struct Archives {
    line: Line,
    initiator: Initiator,
    /// The number of files on the tape.
    files: usize,
}

/// Returns a REWIND.
fn rewind() -> Command {
    Command::reading(cdb_6(0x01, 0, 0), 0)
}

/// Returns a SPACE forward over filemarks.
fn space_on(marks: usize) -> Command {
    Command::reading(cdb_6(0x11, 1, marks), 0)
}

/// Returns a SPACE backward over filemarks.
fn space_back(marks: usize) -> Command {
    space_on(0x100_0000usize.saturating_sub(marks))
}

/// Returns a READ of a record.
fn read() -> Command {
    Command::reading(cdb_6(0x08, 0, RECORD), RECORD)
}

impl Archives {
    /// Makes an empty tape with room for this number of rounds.
    pub fn new(alloc: Global, random: Random, rounds: usize) -> Result<Archives, Fault> {
        let way = Way {
            places: BEGINNINGS,
            segment: SEGMENT,
            cut: CUT,
        };
        let target = one_tape(alloc, rounds.min(1 << 20) << 19)?;
        let mut line = Line::new(alloc, target, random, 2 * BEGINNINGS, way)?;
        let initiator = Initiator::new(alloc, 1, name_of(0), &mut line.random)?;
        Ok(Archives {
            line,
            initiator,
            files: 0,
        })
    }

    /// Logs in to the tape, and takes the report of the power on.
    pub fn begin(&mut self) -> Result<(), Fault> {
        self.initiator.log_in(&mut self.line)?;
        self.give(&Command::reading(READY, 0))
    }

    /// Returns what the target answered.
    pub fn answers(&self) -> &Answers {
        &self.initiator.host.answers
    }

    /// Sends a command, and waits for its answer.
    fn give(&mut self, command: &Command) -> Result<(), Fault> {
        self.line.send(&mut self.initiator.host, command)
    }

    /// Writes a file, and the filemark after it.
    fn write_file(&mut self) -> Result<(), Fault> {
        let record = Command::writing(cdb_6(0x0a, 0, RECORD), RECORD);
        let records = 1 + self.line.random.below(LONGEST);
        for _ in 0..records {
            self.give(&record)?;
        }
        self.files = self.files.saturating_add(1);
        self.give(&Command::reading(cdb_6(0x10, 0, 1), 0))
    }

    /// Reads a file up to the filemark after it, at which a READ is not GOOD.
    fn read_file(&mut self) -> Result<(), Fault> {
        for _ in 0..LONGEST + 1 {
            let before = self.answers().good;
            self.give(&read())?;
            if self.answers().good == before {
                break;
            }
        }
        Ok(())
    }

    /// Looks for a file over many filemarks at once, then one by one. From there looks for the second file of the tape.
    fn look_up(&mut self) -> Result<(), Fault> {
        let marks = self.line.random.below(self.files.saturating_sub(STEPS));
        let on = space_on(1);
        let back = space_back(1);
        let to_second = space_back(marks.saturating_add(1));
        for command in [
            rewind(),
            space_on(marks),
            on,
            on,
            on,
            read(),
            back,
            back,
            to_second,
            on,
            read(),
        ] {
            self.give(&command)?;
        }
        Ok(())
    }

    /// Adds files at the end of the tape, reads them back, and looks for others.
    pub fn round(&mut self) -> Result<(), Fault> {
        let before = self.files;
        self.write_files()?;
        self.give(&rewind())?;
        self.give(&space_on(before))?;
        self.read_files()?;
        for _ in 0..PLACES {
            self.look_up()?;
        }
        Ok(())
    }

    /// Adds the files of a round at the end of the tape.
    fn write_files(&mut self) -> Result<(), Fault> {
        self.give(&Command::reading(cdb_6(0x11, 3, 0), 0))?;
        for _ in 0..FILES {
            self.write_file()?;
        }
        Ok(())
    }

    /// Reads the files of a round.
    fn read_files(&mut self) -> Result<(), Fault> {
        for _ in 0..FILES {
            self.read_file()?;
        }
        Ok(())
    }
}
