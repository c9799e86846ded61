//! Which ports may be ready, as far as it is known.
//!
//! The system tells a change once (EPOLLET of epoll(7)). So a connection stays readable until a read of
//! it would wait or gave less than it had room for. A read ends at the mark of urgent data, whatever follows
//! it (tcp(7)), so one to which such data came stays readable until a read would wait. Where its peer has ended,
//! or it failed, no further event tells of it, and it stays readable until a read says so. One whose write would
//! have waited takes nothing until an event says that it can. Of those that are ready a poll names all but the ones
//! whose turn it is not ([`Turns`]).

ghost use Rattle.std.specs.Prelude.{◌≡◌, ◌<◌};
ghost use Rattle.iscsi_ports.specs.Readiness.{nothing_ready, may_give, may_take, still_readable, with_event, after_taking, ready_again, filled, forgotten};
ghost use Rattle.iscsi_ports.specs.Readiness as ready;
ghost use Rattle.iscsi_ports.specs.Flags.{flags_with, flag_of};
ghost use Rattle.iscsi_ports.specs.Turns.{after_offer, after_carrying, Names};

use crate::results::Named;
use crate::socket_failure::SocketFailure;
use crate::system_read::SystemRead;
use crate::turns::Turns;
use target_limits::CONNECTIONS;

/// What the system told in an event of a connection.
#[derive(Clone, Copy)]
pub(crate) struct ReadyEvent {
    pub(crate) is_readable: bool,
    pub(crate) is_writable: bool,
    /// Its peer has ended, or it failed.
    pub(crate) has_ended: bool,
    /// Urgent data has come.
    pub(crate) is_urgent: bool,
}

/// The ports that may be ready.
#[derive(Clone, Copy)]
pub struct Readiness {
    /// Those whom the last poll named.
    pub named: Named,
    /// Those whom a poll may name: the listener, and the connections of which the system or what is ahead may
    /// give bytes.
    pub(crate) ready: Named,
    /// Those of which the system may give bytes.
    readable: [bool; CONNECTIONS],
    /// Those whose peers have ended, and those that failed.
    ended: [bool; CONNECTIONS],
    /// Those to which urgent data came, and of which no read would have waited since.
    urgent: [bool; CONNECTIONS],
    /// Those whose last write would have waited.
    full: [bool; CONNECTIONS],
    /// Whose turn it is to be named.
    turns: Turns,
}

impl ReadyEvent {
    /// Returns whether the system may give bytes, or tell that there are no more.
    fn may_give(self) -> bool
        ensures { result ≡ may_give self }
    {
        self.is_readable || self.has_ended
    }

    /// Returns whether a write may be taken, or tell that none is.
    fn may_take(self) -> bool
        ensures { result ≡ may_take self }
    {
        self.is_writable || self.has_ended
    }
}

/// Returns whether a read or a write would have waited.
fn would_wait(answer: Result<usize, SocketFailure>) -> bool
    ensures { result ≡ ready.would_wait answer }
{
    answer == Err(SocketFailure::WouldWait)
}

/// Returns whether a read into this room took all that the system had.
fn took_all(answer: Result<usize, SocketFailure>, room: usize, is_urgent: bool) -> bool
    ensures { result ≡ ready.took_all answer room is_urgent }
{
    match answer {
        Ok(count) => count < room && !is_urgent,
        Err(failure) => failure == SocketFailure::WouldWait,
    }
}

/// Returns whether the system may still give bytes of a connection after a read of it, which took all that there was.
fn stays_readable(is_readable: bool, took_all: bool, has_ended: bool) -> bool
    ensures { result ≡ still_readable is_readable took_all has_ended }
{
    is_readable && (!took_all || has_ended)
}

/// Gives a connection this flag, if something says so.
pub(crate) fn set_where(says: bool, flags: &mut [bool; CONNECTIONS], c: usize, flag: bool)
    requires { c < 64 }
    ensures { flags.new ≡ flags_with says c flag flags.old }
{
    if says {
        flags[c] = flag;
    }
}

impl Readiness {
    /// Returns that of none anything is known.
    pub(crate) fn new() -> Readiness
        ensures { result ≡ nothing_ready }
    {
        let nobody = Named {
            listener: false,
            connections: [false; CONNECTIONS],
        };
        Readiness {
            named: nobody,
            ready: nobody,
            readable: [false; CONNECTIONS],
            ended: [false; CONNECTIONS],
            urgent: [false; CONNECTIONS],
            full: [false; CONNECTIONS],
            turns: Turns::new(),
        }
    }

    /// Takes note of an event of a connection.
    pub(crate) fn see(&mut self, c: usize, event: ReadyEvent)
        requires { c < 64 }
        ensures { self.new ≡ with_event c event self.old }
    {
        set_where(event.may_give(), &mut self.readable, c, true);
        set_where(event.may_give(), &mut self.ready.connections, c, true);
        set_where(event.has_ended, &mut self.ended, c, true);
        set_where(event.is_urgent, &mut self.urgent, c, true);
        set_where(event.may_take(), &mut self.full, c, false);
    }

    /// Takes note of a read of the system.
    pub(crate) fn took(&mut self, c: usize, read: &SystemRead)
        requires { c < 64 }
        ensures { self.new ≡ after_taking c read.now.answer read.now.offered self.old }
    {
        let answer = read.answer();
        let took_all = took_all(answer, read.offered(), self.urgent[c]);
        self.readable[c] = stays_readable(self.readable[c], took_all, self.ended[c]);
        set_where(would_wait(answer), &mut self.urgent, c, false);
    }

    /// Makes a connection ready after a read, if the system or what is ahead may give more bytes of it.
    pub(crate) fn ready_again(&mut self, c: usize, is_ahead: bool)
        requires { c < 64 }
        ensures { self.new ≡ ready_again c is_ahead self.old }
    {
        self.ready.connections[c] = self.readable[c] || is_ahead;
    }

    /// Names those that are ready, but for the connections whose turn it is not, in a poll that asked the system or not.
    pub(crate) fn name(&mut self, asked: bool)
        ensures { Names asked self.old self.new }
    {
        self.named.listener = self.ready.listener;
        self.named.connections = self.turns.take(&self.ready.connections, asked);
    }

    /// Returns whether the last poll left out a connection that is ready: the next is not to wait.
    pub(crate) fn left_out(&self) -> bool
        ensures { result ≡ self.now.turns.left_out }
    {
        self.turns.left_out()
    }

    /// Takes note of whether something was carried since the last poll.
    pub(crate) fn note_carried(&mut self, carried: bool)
        ensures { self.new ≡ record self.old { turns = after_carrying carried self.old.turns } }
    {
        self.turns.note_carried(carried);
    }

    /// Takes note of how many bytes a write of a connection is offered, of which bytes may have been read since the
    /// last poll.
    pub(crate) fn offer(&mut self, c: usize, offered: usize, has_read: bool)
        requires { c < 64 }
        ensures { self.new ≡ record self.old { turns = after_offer c offered has_read self.old.turns } }
    {
        self.turns.offer(c, offered, has_read);
    }

    /// Takes note that a write would have waited.
    pub(crate) fn fill(&mut self, c: usize)
        requires { c < 64 }
        ensures { self.new ≡ filled c self.old }
    {
        self.full[c] = true;
    }

    /// Returns whether a connection takes nothing, as far as it is known.
    pub(crate) fn is_full(&self, c: usize) -> bool
        requires { c < 64 }
        ensures { result ≡ flag_of c self.now.full }
    {
        self.full[c]
    }

    /// Forgets what is known of a connection, if this is the number of one: it has just come, or was closed.
    pub(crate) fn forget(&mut self, c: usize)
        ensures { self.new ≡ forgotten c self.old }
    {
        if c < CONNECTIONS {
            self.turns.forget(c);
            self.ready.connections[c] = false;
            self.readable[c] = false;
            self.ended[c] = false;
            self.urgent[c] = false;
            self.full[c] = false;
        }
    }
}
