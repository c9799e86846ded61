//! The front of sense data in a SCSI Response (RFC 7143 §11.4.7; SPC-4 "Fixed format sense data").

use crate::tasks::Command;
use arrayvec::ArrayVec;
use byteorder::{BigEndian, ByteOrder};

/// SenseLength, and the sense data up to the qualifier of its code.
const FRONT: usize = 16;

/// How a command ended.
#[derive(Clone, Copy)]
pub(crate) struct Sensed {
    pub(crate) command: Command,
    pub(crate) key: u8,
    pub(crate) code: u16,
}

/// Sense data as it passes.
#[derive(Drop)]
pub(crate) struct SenseFront {
    /// The command of the sense data. `None`: no sense data passes, or its front was seen.
    command: Option<Command>,
    bytes: ArrayVec<u8, FRONT>,
}

impl SenseFront {
    /// Returns the state before any sense data.
    pub(crate) fn new() -> SenseFront {
        SenseFront {
            command: None,
            bytes: ArrayVec::new(),
        }
    }

    /// Begins the sense data of this command.
    pub(crate) fn begin(&mut self, command: Command) {
        self.command = Some(command);
        self.bytes.clear();
    }

    /// Ends the sense data: the data after it belongs to something else.
    pub(crate) fn end(&mut self) {
        self.command = None;
    }

    /// Sees the next data. Returns what it says, once its front has passed.
    pub(crate) fn see(&mut self, data: &[u8]) -> Option<Sensed> {
        let command = self.command?;
        for byte in data {
            let _ = self.bytes.try_push(*byte);
        }
        let bytes = self.bytes.as_slice();
        if bytes.len() < FRONT {
            return None;
        }
        self.command = None;
        Some(Sensed {
            command,
            key: bytes[4] & 0x0F,
            code: BigEndian::read_u16(&bytes[14..]),
        })
    }
}
