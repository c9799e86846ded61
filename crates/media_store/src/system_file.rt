//! The calls on a file of the operating system. Each method makes one call of the kit and then notes it with its
//! answer. A write of several slices is two: the first puts the place of the file at the offset, and has no note of its
//! own. The kit makes an open, a cut and a sync again that a signal interrupts, without a note. The clauses pin the
//! notes to the answers; that the call made is the one that is noted, a reader has to see here.

ghost use Rattle.std.specs.Prelude.{◌≡◌, ◌≤◌, ◌∷◌, [], length, IfOk, IfErr};
ghost use Rattle.media_store.specs.Calls.{Opened, Locked, calls_of};
ghost use Rattle.media_store.specs.Opening.{IsRefused};

use crate::file_calls::FileCalls;
use crate::interruption::is_interrupted;
use crate::slices::Slices;
use crate::unwritten::Unwritten;
use call_record::Record;
use std::fs::{File, OpenOptions};
use std::io::{self, IoSlice, Seek, SeekFrom};
use std::marker::Model;
use std::os::unix::fs::FileExt;
use std::rt::Files;

/// The kinds of call, as they are noted.
const END: u64 = 0;

const READ: u64 = 1;

const WRITE: u64 = 2;

const RESIZE: u64 = 3;

const SYNC: u64 = 4;

const OPEN: u64 = 5;

const GIVE_UP: u64 = 6;

const LOCK: u64 = 7;

const REFUSE_SYNC: u64 = 8;

/// A file that was not opened, or not locked.
#[derive(Drop)]
pub struct UnopenedFile {
    /// The error of the call that failed.
    pub error: io::Error,
    /// The calls for it.
    pub noted: Record,
}

/// An open file, or a block device. It is seen as the list of the calls on it, the newest first, from its
/// opening on.
#[derive(Drop)]
pub struct SystemFile {
    file: File,
    noted: Record,
    /// Whether a sync has failed.
    sync_failed: bool,
}

impl Model for SystemFile {
    ghost use Rattle.std.specs.Prelude.{◌≡◌, List};
    ghost use Rattle.media_store.specs.Calls.{FileCall, calls_of};
    ghost use Rattle.media_store.specs.Replay.{sync_has_failed};

    ghost Value = { List FileCall };

    ghost view = { λ opened. calls_of opened.noted.calls };

    ghost invariant = { λ opened. opened.sync_failed ≡ sync_has_failed (calls_of opened.noted.calls) };
}

impl SystemFile {
    /// Opens the file at a path for reading and writing, and locks it (flock(2)) for as long as it is open. It is not
    /// created.
    ///
    /// Fails also if another open of this program or another has locked the file, by whatever path. The note of the
    /// call that failed is returned with its error.
    pub fn open(rt: &impl Files<File = File>, path: &str) -> Result<SystemFile, UnopenedFile>
        ensures opened { IfOk result (λ opened. opened ≡ Locked ∷ Opened path.now ∷ []) }
        ensures refused { IfErr result (λ unopened. IsRefused path.now (calls_of unopened.noted.calls)) }
    {
        let mut noted = Record::new();
        let file = match OpenOptions::new().read(true).write(true).open(rt, path) {
            Ok(file) => file,
            Err(error) => {
                noted.note(&[OPEN], path.as_bytes(), &[false]);
                return Err(UnopenedFile { error, noted });
            }
        };
        noted.note(&[OPEN], path.as_bytes(), &[true]);
        match file.try_lock() {
            Ok(()) => {
                noted.note(&[LOCK], &[], &[true]);
                Ok(SystemFile {
                    file,
                    noted,
                    sync_failed: false,
                })
            }
            Err(error) => {
                noted.note(&[LOCK], &[], &[false]);
                let error = error.into();
                Err(UnopenedFile { error, noted })
            }
        }
    }
}

/// Writes a front of the bytes of some slices at an offset.
fn write_slices(file: &mut File, at: u64, slices: &Slices) -> io::Result<usize>
    ensures { IfOk result (λ count. count ≤ length slices.now) }
{
    let (first, second, third, fourth) = slices.parts();
    if second.is_empty() {
        return file.write_at(first, at);
    }
    // The kit writes several slices at the place of the file alone.
    file.seek(SeekFrom::Start(at))?;
    file.write_vectored(&[
        IoSlice::new(first),
        IoSlice::new(second),
        IoSlice::new(third),
        IoSlice::new(fourth),
    ])
}

impl FileCalls for SystemFile {
    ghost calls = { λ opened. opened };

    fn end(&mut self) -> io::Result<u64> {
        // The end, and not the length that the file system tells: a block device tells none.
        let answer = self.file.seek(SeekFrom::End(0));
        match &answer {
            Ok(end) => self.noted.note(&[END, *end], &[], &[true]),
            Err(error) => self
                .noted
                .note(&[END], &[], &[false, is_interrupted(error)]),
        }
        answer
    }

    fn read_some(&mut self, at: u64, buf: &mut [u8]) -> io::Result<usize> {
        let answer = self.file.read_at(buf, at);
        let asked = buf.len() as u64;
        match &answer {
            Ok(count) => self.noted.note(&[READ, at, asked], &buf[..*count], &[true]),
            Err(error) => self
                .noted
                .note(&[READ, at, asked], &[], &[false, is_interrupted(error)]),
        }
        answer
    }

    fn write_some(&mut self, at: u64, bytes: &Unwritten) -> io::Result<usize> {
        let slices = bytes.slices();
        let answer = write_slices(&mut self.file, at, &slices);
        let asked = [WRITE, at, bytes.len() as u64];
        match &answer {
            Ok(count) => {
                let (first, second, third, fourth) = slices.front(*count).parts();
                let noted = &mut self.noted;
                noted.note_joined(&asked, first, second, third, fourth, &[true]);
            }
            Err(error) => self
                .noted
                .note(&asked, &[], &[false, is_interrupted(error)]),
        }
        answer
    }

    fn set_len(&mut self, len: u64) -> io::Result<()> {
        let answer = self.file.set_len(len);
        match &answer {
            Ok(()) => self.noted.note(&[RESIZE, len], &[], &[true]),
            Err(error) => self
                .noted
                .note(&[RESIZE, len], &[], &[false, is_interrupted(error)]),
        }
        answer
    }

    fn sync(&mut self) -> io::Result<()> {
        let answer = self.file.sync_data();
        match &answer {
            Ok(()) => self.noted.note(&[SYNC], &[], &[true]),
            Err(error) => {
                let interrupted = is_interrupted(error);
                self.noted.note(&[SYNC], &[], &[false, interrupted]);
                self.sync_failed |= !interrupted;
            }
        }
        answer
    }

    fn give_up(&mut self) {
        self.noted.note(&[GIVE_UP], &[], &[false]);
    }

    fn sync_has_failed(&self) -> bool {
        self.sync_failed
    }

    fn refuse_sync(&mut self) {
        self.noted.note(&[REFUSE_SYNC], &[], &[false]);
    }
}
