//! A read of the system.

ghost use Rattle.std.specs.Prelude.{◌≡◌, length};
ghost use Rattle.std.specs.Io.{WritesAtMost};

use crate::socket_failure::{SocketFailure, socket_failure};
use mio::net::TcpStream;
use std::io::Read;

/// A read of the system: for how many bytes it was offered room, and what it answered. Only where the call is made is one
/// made, so that nothing can take less for all that there was.
#[derive(Clone, Copy)]
pub(crate) struct SystemRead {
    offered: usize,
    answer: Result<usize, SocketFailure>,
}

impl SystemRead {
    /// Reads a piece of a connection.
    pub(crate) fn of(stream: &mut TcpStream, buffer: &mut [u8]) -> SystemRead
        ensures offered { result.offered ≡ length buffer.new }
        ensures answer { WritesAtMost result.answer buffer.new }
    {
        let answer = match stream.read(buffer) {
            Ok(count) => Ok(count),
            Err(error) => Err(socket_failure(&error)),
        };
        SystemRead {
            offered: buffer.len(),
            answer,
        }
    }

    /// Returns what the read of a connection that is not there would answer.
    pub(crate) fn broken(offered: usize) -> SystemRead
        ensures offered { result.offered ≡ offered }
        ensures answer { result.answer ≡ Err SocketFailure.Broken }
    {
        SystemRead {
            offered,
            answer: Err(SocketFailure::Broken),
        }
    }

    /// Returns for how many bytes it was offered room.
    pub(crate) fn offered(&self) -> usize
        ensures { result ≡ self.now.offered }
    {
        self.offered
    }

    /// Returns what the system answered.
    pub(crate) fn answer(&self) -> Result<usize, SocketFailure>
        ensures { result ≡ self.now.answer }
    {
        self.answer
    }
}
