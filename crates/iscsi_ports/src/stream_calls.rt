//! The reads and writes of a connection, if it is there.

ghost use Rattle.std.specs.Prelude.{◌≡◌, ◌≤◌, length, IfOk};
ghost use Rattle.std.specs.Io.{WritesAtMost};

use crate::read_buffer::{MOST_AHEAD, WholeBuffer};
use crate::socket_failure::{SocketFailure, socket_failure};
use crate::system_read::SystemRead;
use mio::net::TcpStream;
use std::io::Write;

/// Reads into a buffer of the ports.
pub(crate) fn fill_from(place: &mut Option<TcpStream>, whole: &mut WholeBuffer) -> SystemRead
    ensures offered { result.offered ≡ 65584 }
    ensures answer { IfOk result.answer (λ count. count ≤ 65584) }
{
    match place {
        Some(stream) => whole.fill(stream),
        None => SystemRead::broken(MOST_AHEAD),
    }
}

/// Reads into the reader's buffer.
pub(crate) fn read_from(place: &mut Option<TcpStream>, buffer: &mut [u8]) -> SystemRead
    ensures offered { result.offered ≡ length buffer.new }
    ensures answer { WritesAtMost result.answer buffer.new }
{
    match place {
        Some(stream) => SystemRead::of(stream, buffer),
        None => SystemRead::broken(buffer.len()),
    }
}

/// Writes a front of these bytes.
pub(crate) fn write_to(place: &mut Option<TcpStream>, bytes: &[u8]) -> Result<usize, SocketFailure>
    ensures { WritesAtMost result bytes.now }
{
    match place {
        Some(stream) => match stream.write(bytes) {
            Ok(count) => Ok(count),
            Err(error) => Err(socket_failure(&error)),
        },
        None => Err(SocketFailure::Broken),
    }
}
