//! Why the program ends before its jobs do.

use iscsi_serve::ServeFault;
use iscsi_target::{Memory, Starved};
use media_store::MemStore;
use std::alloc::{AllocError, AllocFailed};
use std::io::{self, ErrorKind};

/// Why the program ends before its jobs do.
#[derive(Drop)]
pub enum Fault {
    /// The words are not a job, a seed and a number of rounds.
    Usage,
    OutOfMemory,
    /// A unit cannot be opened.
    Unopened,
    /// The target closed a connection, or did not answer a request.
    Unanswered,
    /// Standard output failed.
    Stream,
}

impl From<Memory> for Fault {
    fn from(_e: Memory) -> Fault {
        Fault::OutOfMemory
    }
}

impl From<Starved> for Fault {
    fn from(_e: Starved) -> Fault {
        Fault::OutOfMemory
    }
}

impl From<AllocError> for Fault {
    fn from(_e: AllocError) -> Fault {
        Fault::OutOfMemory
    }
}

impl<T: Drop> From<AllocFailed<T>> for Fault {
    fn from(_e: AllocFailed<T>) -> Fault {
        Fault::OutOfMemory
    }
}

impl From<ServeFault> for Fault {
    fn from(_e: ServeFault) -> Fault {
        Fault::Unanswered
    }
}

impl From<media_block::NotOpened<MemStore>> for Fault {
    fn from(_e: media_block::NotOpened<MemStore>) -> Fault {
        Fault::Unopened
    }
}

impl From<media_tape::NotOpened<MemStore>> for Fault {
    fn from(_e: media_tape::NotOpened<MemStore>) -> Fault {
        Fault::Unopened
    }
}

impl From<io::Error> for Fault {
    fn from(e: io::Error) -> Fault {
        match e.kind() {
            ErrorKind::OutOfMemory => Fault::OutOfMemory,
            _ => Fault::Stream,
        }
    }
}
