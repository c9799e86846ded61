//! Where lines go: a file that is appended to, or standard error.
//!
//! No clause says what the system does with a line.

use crate::lines;
use libc::{STDERR_FILENO, write};
use mio::unix::SourceFd;
use mio::{Events, Interest, Poll, Token};
use std::alloc::Global;
use std::fs::{self, File, OpenOptions, TryLockError};
use std::io::{self, ErrorKind};
use std::net::Net;
use std::os::fd::{AsRawFd, RawFd};
use std::os::unix::fs::MetadataExt;
use std::rt::{Clock, Files};
use std::time::Duration;

/// The text that stands for standard error.
const STANDARD_ERROR: &str = "-";

/// The identity of a file: its device, and its number there.
#[derive(Clone, Copy, PartialEq, Eq)]
struct Identity {
    device: u64,
    inode: u64,
}

/// An open file and its identity.
#[derive(Drop)]
struct Opened {
    file: File,
    identity: Identity,
    /// It was empty.
    was_empty: bool,
}

/// A file of lines. A write to it never waits for a reader.
#[derive(Drop)]
pub struct LogFile<'r, R: Files<File = File> + Clock> {
    rt: &'r R,
    path: String,
    /// `None`: standard error, or the file could not be opened at the last line.
    opened: Option<Opened>,
    /// The poll that tells whether a descriptor takes a line.
    poll: Poll,
    events: Events,
    /// The file that was open last. `None`: none yet, or standard error.
    last: Option<Identity>,
    /// Only a front of the last line in it was taken.
    is_torn: bool,
}

/// Opens the file at a path for appending, and creates it if there is none. A FIFO is opened without a reader. A file
/// that is locked, as those of units are, is refused.
fn open_file(rt: &impl Files<File = File>, path: &str) -> io::Result<Opened> {
    let file = OpenOptions::new()
        .read(true)
        .append(true)
        .create(true)
        .open(rt, path)?;
    if let Err(TryLockError::WouldBlock) = file.try_lock_shared() {
        return Err(ErrorKind::WouldBlock.into());
    }
    let metadata = file.metadata()?;
    let identity = Identity {
        device: metadata.dev(),
        inode: metadata.ino(),
    };
    let was_empty = metadata.len() == 0;
    Ok(Opened {
        file,
        identity,
        was_empty,
    })
}

impl<'r, R: Files<File = File> + Clock> LogFile<'r, R> {
    /// Opens the file at a path, or standard error for `-`.
    pub fn open(
        rt: &'r R,
        net: &impl Net,
        alloc: Global,
        path: String,
    ) -> io::Result<LogFile<'r, R>> {
        let opened = if path.as_str() == STANDARD_ERROR {
            None
        } else {
            Some(open_file(rt, path.as_str())?)
        };
        let last = match &opened {
            Some(opened) => Some(opened.identity),
            None => None,
        };
        Ok(LogFile {
            rt,
            path,
            opened,
            poll: Poll::new(net)?,
            events: Events::with_capacity(alloc, 1)?,
            last,
            is_torn: false,
        })
    }

    /// Returns the seconds since the beginning of 1970, in UTC, or 0 if the clock cannot be read.
    pub(crate) fn seconds(&self) -> u64 {
        match self.rt.since_1970() {
            Ok(time) => time.as_secs(),
            Err(_) => 0,
        }
    }

    /// Writes a line, if it is taken at once. Ends the line before first, if only a front of that was taken. Returns
    /// whether the line was taken whole.
    fn put(&mut self, line: &str) -> bool {
        let Some(descriptor) = self.descriptor() else {
            return false;
        };
        if !self.takes(descriptor) {
            return false;
        }
        if self.is_torn && write(descriptor, b"\n") != 1 {
            self.opened = None;
            return false;
        }
        self.is_torn = false;
        let Ok(count) = usize::try_from(write(descriptor, line.as_bytes())) else {
            self.opened = None;
            return false;
        };
        self.is_torn = 0 < count && count < line.len();
        count == line.len()
    }

    /// Writes a line with this time, if it is taken at once. Returns whether it was taken whole.
    pub(crate) fn put_timed(&mut self, alloc: Global, second: u64, text: &str) -> bool {
        match lines::timed(alloc, second, text) {
            Some(line) => self.put(line.as_str()),
            None => false,
        }
    }

    /// Returns the descriptor to write to. Closes a file that the path no longer names, and opens the path again.
    fn descriptor(&mut self) -> Option<RawFd> {
        if self.path.as_str() == STANDARD_ERROR {
            return Some(STDERR_FILENO);
        }
        if !self.is_named() {
            self.opened = open_file(self.rt, self.path.as_str()).ok();
            let opened = self.opened.as_ref()?;
            let identity = Some(opened.identity);
            // A new file may have the inode of one that was removed.
            self.is_torn = self.is_torn && self.last == identity && !opened.was_empty;
            self.last = identity;
        }
        let opened = self.opened.as_ref()?;
        Some(opened.file.as_raw_fd())
    }

    /// Returns whether the path names the file that is open.
    fn is_named(&self) -> bool {
        match (&self.opened, fs::metadata(self.rt, self.path.as_str())) {
            (Some(opened), Ok(named)) => {
                opened.identity.device == named.dev() && opened.identity.inode == named.ino()
            }
            _ => false,
        }
    }

    /// Returns whether a write to a descriptor returns at once. A write to a regular file does, and epoll(7) does not
    /// watch such files.
    fn takes(&mut self, descriptor: RawFd) -> bool {
        let mut source = SourceFd(&descriptor);
        let registry = self.poll.registry();
        if let Err(error) = registry.register(&mut source, Token(0), Interest::WRITABLE) {
            return error.kind() == ErrorKind::PermissionDenied;
        }
        let polled = self.poll.poll(&mut self.events, Some(Duration::ZERO));
        let _ = self.poll.registry().deregister(&mut source);
        polled.is_ok() && !self.events.is_empty()
    }
}
