//! What is wrong with the file of a unit.

ghost use Rattle.target_units.specs.Unopened.{IsErrorOf};

use std::io::{self, ErrorKind};

/// What is wrong with the file of a unit that is not opened.
#[derive(Clone, Copy, Debug, PartialEq, Eq)]
pub enum DeviceCause {
    /// The system does not open it for reading and writing. The error has this number (errno(3)), if it has one.
    Unopened { code: Option<i32> },
    /// Another open of it holds its lock.
    Locked,
    /// Its length or its items cannot be read.
    Unread,
    /// The unit is a disk, and the length of its file is no positive multiple of 512 bytes.
    Length,
    /// The unit is a tape, and the last item of its file, which begins at this byte, is torn.
    Torn { at: u64 },
    /// The unit is a tape, and its file is longer than its capacity.
    TooLong,
}

impl DeviceCause {
    /// Returns the cause for an error that the system reports when the file is opened.
    pub(crate) fn of_error(error: &io::Error) -> DeviceCause
        ensures { IsErrorOf error.now result }
    {
        match error.kind() {
            ErrorKind::WouldBlock => DeviceCause::Locked,
            _ => DeviceCause::Unopened {
                code: error.raw_os_error(),
            },
        }
    }
}
