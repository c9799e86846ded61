//! A listener and its connections, each a port that may be ready.

ghost use Rattle.std.specs.Prelude.{◌≡◌, ◌<◌, ◌≤◌, ◌++◌, ◌∷◌, List, [], Bool, true, false, length};
ghost use Rattle.iscsi_ports.specs.Log.{Bytes, Entry, Read, Wrote, Close};
ghost use Rattle.iscsi_ports.specs.Results.{carried_by, carried_read, count_of, read_count, poll_entry, accept_entry, LendsSome};

use crate::read_buffer::ReadBuffer;
use crate::results::{Accepted, IoResult, Named, PortFault, ReadResult};

/// A listener and the connections that it accepted, each under a number that the caller chose: 0 to
/// 63, and 64 for one that is closed at once.
///
/// `log` is what they told, call by call. It says so where `tells` holds after the call; where it
/// does not hold, it does not hold again.
pub trait Ports {
    ghost log: { Self → List Entry };

    ghost tells: { Self → Bool };

    /// Waits until a port may be ready, or for as long as the ports wait, and names some of those that
    /// may be.
    fn poll(&mut self) -> Result<Named, PortFault>
        ensures log { tells self.new ≡ true → log self.new ≡ log self.old ++ poll_entry result ∷ [] }
        ensures back { tells self.new ≡ true → tells self.old ≡ true };

    /// Accepts a connection that waits, under this number.
    fn accept(&mut self, c: usize) -> Result<Accepted, PortFault>
        requires { c ≤ 64 }
        ensures log { tells self.new ≡ true → log self.new ≡ log self.old ++ accept_entry c result ∷ [] }
        ensures back { tells self.new ≡ true → tells self.old ≡ true };

    /// Reads what has come on a connection into the front of the buffer.
    fn read(&mut self, c: usize, buffer: &mut [u8]) -> IoResult
        requires { c < 64 }
        ensures count { count_of result ≤ length buffer.new }
        ensures log { tells self.new ≡ true → log self.new ≡ log self.old ++ Read c (length buffer.new) (carried_by result buffer.new) ∷ [] }
        ensures back { tells self.new ≡ true → tells self.old ≡ true };

    /// Reads like [`read`](Ports::read), at most `room` bytes: into the front of the buffer, of which ports may use the rest for
    /// bytes that the next reads return, or into a buffer that they lend until [`take_back`](Ports::take_back).
    fn read_front(&mut self, c: usize, room: usize, buffer: &mut [u8]) -> ReadResult
        requires in_range { c < 64 }
        requires room { room ≤ length buffer.old }
        ensures count { read_count result ≤ room }
        ensures some { LendsSome result }
        ensures long { length buffer.new ≡ length buffer.old }
        ensures log { tells self.new ≡ true → log self.new ≡ log self.old ++ Read c room (carried_read result buffer.new) ∷ [] }
        ensures back { tells self.new ≡ true → tells self.old ≡ true }
    {
        ReadResult::of(self.read(c, &mut buffer[..room]))
    }

    /// Takes back a buffer that was lent. Does nothing else.
    fn take_back(&mut self, _lent: ReadBuffer)
        ensures log { log self.new ≡ log self.old }
        ensures tells { tells self.new ≡ tells self.old }
    {}

    /// Writes a front of these bytes to a connection.
    fn write(&mut self, c: usize, bytes: &[u8]) -> IoResult
        requires { c < 64 }
        ensures count { count_of result ≤ length bytes.now }
        ensures log { tells self.new ≡ true → log self.new ≡ log self.old ++ Wrote c (length bytes.now) (carried_by result bytes.now) ∷ [] }
        ensures back { tells self.new ≡ true → tells self.old ≡ true };

    /// Puts off a write of these bytes if the connection is known to take none now. Returns whether it did; if not, nothing
    /// changes, and [`write`](Ports::write) is to be called.
    fn puts_off(&mut self, c: usize, bytes: &[u8]) -> bool
        requires { c < 64 }
        ensures log { result ≡ true → tells self.new ≡ true → log self.new ≡ log self.old ++ Wrote c (length bytes.now) (Bytes []) ∷ [] }
        ensures back { tells self.new ≡ true → tells self.old ≡ true }
        ensures same { result ≡ false → self.new ≡ self.old }
    {
        false
    }

    /// Learns that the target closes a connection since an allocation failed. Does nothing else.
    fn starved(&mut self, _c: usize)
        ensures log { log self.new ≡ log self.old }
        ensures tells { tells self.new ≡ tells self.old }
    {}

    /// Closes a connection.
    fn close(&mut self, c: usize)
        requires { c ≤ 64 }
        ensures log { tells self.new ≡ true → log self.new ≡ log self.old ++ Close c ∷ [] }
        ensures back { tells self.new ≡ true → tells self.old ≡ true };
}
