//! The calls of the system on a listener and its connections.

ghost use Rattle.std.specs.Prelude.{◌≡◌, ◌<◌, ◌≤◌, ◌++◌, ◌∷◌, ℕ, List, [], Bool, true, length, Option, None, option_map, Ok, IfSome, IfOk, OnOk, OnErr};
ghost use Rattle.std.specs.Duration.{as_nanos};
ghost use Rattle.std.specs.Io.{WritesAtMost};
ghost use Rattle.iscsi_ports.specs.Log.{Read};
ghost use Rattle.iscsi_ports.specs.Calls.{Call, Polling, Naming, Accepting, Handing, Writing, PuttingOff, Closing, named_by, moved, read_carried, log_by, token_after};
ghost use Rattle.iscsi_ports.specs.ReadBuffer.{given, handed, AreDropped};
ghost use Rattle.iscsi_ports.specs.Polls.{IsNoLonger, unasked_in};
ghost use Rattle.iscsi_ports.specs.Readiness.{after_write, IsReadBy};
ghost use Rattle.iscsi_ports.specs.Events.{IsNamed};
ghost use Rattle.mio.specs.declared.event.event.Event.{Event};

use crate::read_buffer::ReadBuffer;
use crate::readiness::Readiness;
use crate::results::Named;
use crate::socket_failure::SocketFailure;
use std::time::Duration;

/// The plain calls on sockets, and what each answered: `calls` has them all, the newest first. What the
/// ports tell without a call is noted among them.
///
/// A connection is kept under the number under which it was accepted, 64 among them. A read may take more
/// from the system than there is room for: the rest is `ahead`, and later reads get it first, with no call.
/// `events` are those of the last poll. Where the sockets are at `rest`, nothing but its caller bounds how long a poll waits.
pub trait SocketCalls {
    ghost calls: { Self → List Call };

    ghost ahead: { Self → ℕ → List ℕ };

    ghost events: { Self → List Event };

    ghost rest: { Self → Bool };

    /// Waits for an event, no longer than this if a time is given, and as long at rest. Makes known who is ready, and names
    /// those whose turn it is.
    fn poll(
        &mut self,
        readiness: &mut Readiness,
        wait: Option<Duration>,
    ) -> Result<(), SocketFailure>
        ensures turn { OnOk result (IsNamed (events self.new) readiness.old readiness.new) }
        ensures unseen { OnErr result (readiness.new ≡ readiness.old) }
        ensures noted { (handed : Option ℕ) × IsNoLonger handed (option_map as_nanos wait)
            × (rest self.old ≡ true → handed ≡ option_map as_nanos wait)
            × (calls self.new ≡ Polling handed (named_by result readiness.new.named) ∷ calls self.old) };

    /// Notes that a poll names these of those that are known to be ready.
    fn note_named(&mut self, named: &Named)
        ensures { calls self.new ≡ Naming named.now ∷ calls self.old };

    /// Accepts a connection under this number, by which the system watches it. Returns whether it is kept:
    /// one that the system does not watch is dropped at once.
    fn accept(&mut self, c: usize) -> Result<bool, SocketFailure>
        requires { c ≤ 64 }
        ensures { calls self.new ≡ Accepting c (token_after c result) result ∷ calls self.old };

    /// Counts the bytes that are ahead of a connection.
    fn count_ahead(&self, c: usize) -> usize
        requires { c < 64 }
        ensures { result ≡ length (ahead self.now c) };

    /// Lends the buffer with what is ahead to a reader with this room, with no call, if there is room for all of it and it is too
    /// much to be copied. `None`: nothing changes, and [`read`](SocketCalls::read) is to be called.
    fn lend(&mut self, readiness: &mut Readiness, c: usize, room: usize) -> Option<ReadBuffer>
        requires { c < 64 }
        ensures some { IfSome result (λ lent. 0 < length lent) }
        ensures count { IfSome result (λ lent. length lent ≤ room) }
        ensures handed { IfSome result (λ lent. calls self.new ≡ Handing c room lent ∷ calls self.old) }
        ensures readiness { IfSome result (λ lent. IsReadBy c room (length (ahead self.old c)) (length (ahead self.new c))
            (Ok (length lent)) readiness.old readiness.new) }
        ensures same { result ≡ None → self.new ≡ self.old }
        ensures unread { result ≡ None → readiness.new ≡ readiness.old };

    /// Takes back a buffer that was lent.
    fn take_back(&mut self, lent: ReadBuffer)
        ensures calls { calls self.new ≡ calls self.old }
        ensures ahead { (c : ℕ) → ahead self.new c ≡ ahead self.old c }
        ensures events { events self.new ≡ events self.old };

    /// Reads into the first `room` bytes of the buffer: what is ahead, or else what the system gives, for which all of the
    /// buffer may be used.
    fn read(
        &mut self,
        readiness: &mut Readiness,
        c: usize,
        room: usize,
        buffer: &mut [u8],
    ) -> Result<usize, SocketFailure>
        requires in_range { c < 64 }
        requires room { room ≤ length buffer.old }
        ensures count { IfOk result (λ count. count ≤ room) }
        ensures long { length buffer.new ≡ length buffer.old }
        ensures told { log_by (calls self.new) ≡ log_by (calls self.old)
            ++ Read c room (read_carried (moved result buffer.new)) ∷ [] }
        ensures unasked { unasked_in (calls self.new) ≡ unasked_in (calls self.old) }
        ensures readiness { IsReadBy c room (length (ahead self.old c)) (length (ahead self.new c)) result
            readiness.old readiness.new };

    /// Writes a front of these bytes.
    fn write(
        &mut self,
        readiness: &mut Readiness,
        c: usize,
        bytes: &[u8],
    ) -> Result<usize, SocketFailure>
        requires { c < 64 }
        ensures count { WritesAtMost result bytes.now }
        ensures call { calls self.new ≡ Writing c (length bytes.now) (moved result bytes.now) ∷ calls self.old }
        ensures readiness { readiness.new ≡ after_write c result readiness.old };

    /// Notes that a write of this number of bytes is put off.
    fn note_put_off(&mut self, c: usize, offered: usize)
        requires { c < 64 }
        ensures { calls self.new ≡ PuttingOff c offered ∷ calls self.old };

    /// Closes a connection, if there is one under this number. What is ahead of it is dropped, and noted.
    fn close(&mut self, c: usize)
        requires { c ≤ 64 }
        ensures { calls self.new ≡ Closing c (ahead self.old c) ∷ calls self.old };

    /// Each byte that the system gave was handed on or is ahead, in the order in which they were given.
    ghost accounted: { (sockets : Self) (c : ℕ) → c ≤ 64 → given c (calls sockets) ≡ handed c (calls sockets) ++ ahead sockets c };

    /// At each close, what was given and not handed on is dropped.
    ghost dropped: { (sockets : Self) → AreDropped (calls sockets) };
}
