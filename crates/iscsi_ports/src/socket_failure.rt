//! What an error of a socket means.

ghost use Rattle.std.specs.Prelude.{◌≡◌};
ghost use Rattle.std.specs.IoError.{error_kind, raw_os_error};
ghost use Rattle.iscsi_ports.specs.Calls as calls;
ghost use Rattle.iscsi_ports.specs.Calls.{failure_of, failure_number};

use std::io;
use std::io::ErrorKind;

// errno(3), the numbers of Linux.
const EBADF: i32 = 9;

const EINVAL: i32 = 22;

const ENOTSOCK: i32 = 88;

/// Why a call of a socket did nothing.
#[derive(Clone, Copy, PartialEq, Eq)]
pub enum SocketFailure {
    /// It would have waited.
    WouldWait = 1,
    /// A signal came between.
    Interrupted = 2,
    /// A connection ended before it was accepted, or its network was away. An accept may go on.
    Passing = 3,
    /// The system cannot do it now, as for want of descriptors or memory. It says nothing of the socket.
    Refused = 4,
    /// What was called is no socket that can do it.
    Broken = 5,
}

impl SocketFailure {
    /// Returns its number in a record of calls, which has 0 for a call that succeeded.
    pub(crate) fn number(self) -> u64
        ensures { result ≡ failure_number self }
    {
        self as u64
    }
}

/// Returns whether an error of this number says that what was called is no socket that can do it (accept(2)).
fn is_broken(code: Option<i32>) -> bool
    ensures { result ≡ calls.is_broken code }
{
    match code {
        Some(code) => code == EBADF || code == EINVAL || code == ENOTSOCK,
        None => false,
    }
}

/// Returns what an error of the system means.
pub(crate) fn socket_failure(error: &io::Error) -> SocketFailure
    ensures { result ≡ failure_of (error_kind error.now) (raw_os_error error.now) }
{
    match error.kind() {
        ErrorKind::WouldBlock => SocketFailure::WouldWait,
        ErrorKind::Interrupted => SocketFailure::Interrupted,
        ErrorKind::ConnectionAborted => SocketFailure::Passing,
        ErrorKind::ConnectionReset => SocketFailure::Passing,
        ErrorKind::HostUnreachable => SocketFailure::Passing,
        ErrorKind::NetworkUnreachable => SocketFailure::Passing,
        ErrorKind::NetworkDown => SocketFailure::Passing,
        _ if is_broken(error.raw_os_error()) => SocketFailure::Broken,
        _ => SocketFailure::Refused,
    }
}
