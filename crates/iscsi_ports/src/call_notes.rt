//! The calls on sockets, as they are noted.
//!
//! The first number of a note says which call it is of, and the second is 0 or the number of the failure
//! (`call_by`).

ghost use Rattle.std.specs.Prelude.{◌≡◌, ◌==◌, ◌∷◌, [], None, Ok, Err, option_map};
ghost use Rattle.std.specs.Duration.{as_nanos};
ghost use Rattle.std.specs.Net.Socket.{socket_ip, socket_port};
ghost use Rattle.iscsi_ports.specs.Calls.{Listening, Located, Polling, Naming, Accepting, Reading, Handing, Writing, PuttingOff, Closing, ip_octets, time_of, token_of};

use crate::results::Named;
use crate::socket_failure::SocketFailure;
use call_record::Record;
use std::marker::Model;
use std::net::{IpAddr, SocketAddr};
use std::time::Duration;

/// Which call a note is of.
#[derive(Clone, Copy)]
pub(crate) enum CallKind {
    Listening = 0,
    Polling = 1,
    Naming = 2,
    Accepting = 3,
    Reading = 4,
    Handing = 5,
    Writing = 6,
    PuttingOff = 7,
    Closing = 8,
    Located = 9,
}

/// In place of the number of a failure: the call succeeded.
const DONE: u64 = 0;

/// What was called. It is seen as the list of the calls, the newest first, and has no bytes.
#[derive(Drop)]
pub(crate) struct CallNotes {
    record: Record,
}

impl Model for CallNotes {
    ghost use Rattle.std.specs.Prelude.{List};
    ghost use Rattle.iscsi_ports.specs.Calls.{Call, calls_of};

    ghost Value = { List Call };

    ghost view = { λ notes. calls_of notes.record.calls };
}

/// Returns a flag as a number of a note.
fn bit(flag: bool) -> u64
    ensures { (result == 1) ≡ flag }
{
    if flag { 1 } else { 0 }
}

/// Returns a time as numbers of a note: whether there is one, its seconds, and the nanoseconds that are more.
fn wait_numbers(wait: Option<Duration>) -> (u64, u64, u64)
    ensures { time_of result.0 result.1 result.2 ≡ option_map as_nanos wait }
{
    match wait {
        Some(time) => (1, time.as_secs(), u64::from(time.subsec_nanos())),
        None => (0, 0, 0),
    }
}

/// Returns a token as a flag and a number of a note: whether there is one, and which.
fn token_numbers(token: Option<usize>) -> (bool, u64)
    ensures { token_of result.0 result.1 ≡ token }
{
    match token {
        Some(token) => (true, token as u64),
        None => (false, 0),
    }
}

impl CallNotes {
    /// Returns notes of no call.
    pub(crate) fn new() -> CallNotes
        ensures { result ≡ [] }
    {
        CallNotes {
            record: Record::new(),
        }
    }

    /// Notes that a listener was made at the address that this text spells.
    pub(crate) fn listening(&mut self, address: &str)
        ensures { self.new ≡ Listening address.now ∷ self.old }
    {
        self.record
            .note(&[CallKind::Listening as u64], address.as_bytes(), &[]);
    }

    /// Notes the address that is listened on, as the system told it.
    pub(crate) fn located(&mut self, address: SocketAddr)
        ensures { self.new ≡ Located (ip_octets (socket_ip address)) (socket_port address) ∷ self.old }
    {
        let numbers = [CallKind::Located as u64, DONE, u64::from(address.port())];
        match address.ip() {
            IpAddr::V4(ip) => self.record.note(&numbers, &ip.octets(), &[]),
            IpAddr::V6(ip) => self.record.note(&numbers, &ip.octets(), &[]),
        }
    }

    /// Notes that a poll which waited for as long as this made known who may be ready.
    pub(crate) fn polled(&mut self, wait: Option<Duration>, named: &Named)
        ensures { self.new ≡ Polling (option_map as_nanos wait) (Ok named.now) ∷ self.old }
    {
        let (is_limited, seconds, nanoseconds) = wait_numbers(wait);
        let listener = bit(named.listener);
        let numbers = [
            CallKind::Polling as u64,
            DONE,
            listener,
            is_limited,
            seconds,
            nanoseconds,
        ];
        self.record.note(&numbers, &[], &named.connections);
    }

    /// Notes that a poll failed.
    pub(crate) fn poll_failed(&mut self, wait: Option<Duration>, failure: SocketFailure)
        ensures { self.new ≡ Polling (option_map as_nanos wait) (Err failure) ∷ self.old }
    {
        let (is_limited, seconds, nanoseconds) = wait_numbers(wait);
        let numbers = [
            CallKind::Polling as u64,
            failure.number(),
            0,
            is_limited,
            seconds,
            nanoseconds,
        ];
        self.record.note(&numbers, &[], &[]);
    }

    /// Notes whom a poll names that did not ask the system.
    pub(crate) fn named(&mut self, named: &Named)
        ensures { self.new ≡ Naming named.now ∷ self.old }
    {
        let numbers = [CallKind::Naming as u64, DONE, bit(named.listener)];
        self.record.note(&numbers, &[], &named.connections);
    }

    /// Notes that a connection was accepted under a number, with the token by which the system watches it, if it does,
    /// and whether it is kept.
    pub(crate) fn accepted(&mut self, c: usize, token: Option<usize>, is_kept: bool)
        ensures { self.new ≡ Accepting c token (Ok is_kept) ∷ self.old }
    {
        let (is_watched, token) = token_numbers(token);
        let numbers = [CallKind::Accepting as u64, DONE, c as u64, token];
        self.record.note(&numbers, &[], &[is_kept, is_watched]);
    }

    /// Notes that an accept failed.
    pub(crate) fn accept_failed(&mut self, c: usize, failure: SocketFailure)
        ensures { self.new ≡ Accepting c None (Err failure) ∷ self.old }
    {
        let numbers = [CallKind::Accepting as u64, failure.number(), c as u64];
        self.record.note(&numbers, &[], &[]);
    }

    /// Notes that a read for one who has this room gave these bytes.
    pub(crate) fn read(&mut self, c: usize, room: usize, piece: &[u8])
        ensures { self.new ≡ Reading c room (Ok piece.now) ∷ self.old }
    {
        let numbers = [CallKind::Reading as u64, DONE, c as u64, room as u64];
        self.record.note(&numbers, piece, &[]);
    }

    /// Notes that a read failed.
    pub(crate) fn read_failed(&mut self, c: usize, room: usize, failure: SocketFailure)
        ensures { self.new ≡ Reading c room (Err failure) ∷ self.old }
    {
        let kind = CallKind::Reading as u64;
        let numbers = [kind, failure.number(), c as u64, room as u64];
        self.record.note(&numbers, &[], &[]);
    }

    /// Notes that these bytes, which were ahead, are handed on to one who has this room.
    pub(crate) fn handed(&mut self, c: usize, room: usize, piece: &[u8])
        ensures { self.new ≡ Handing c room piece.now ∷ self.old }
    {
        let numbers = [CallKind::Handing as u64, DONE, c as u64, room as u64];
        self.record.note(&numbers, piece, &[]);
    }

    /// Notes that a write which was offered this number of bytes took these.
    pub(crate) fn wrote(&mut self, c: usize, offered: usize, piece: &[u8])
        ensures { self.new ≡ Writing c offered (Ok piece.now) ∷ self.old }
    {
        let numbers = [CallKind::Writing as u64, DONE, c as u64, offered as u64];
        self.record.note(&numbers, piece, &[]);
    }

    /// Notes that a write failed.
    pub(crate) fn write_failed(&mut self, c: usize, offered: usize, failure: SocketFailure)
        ensures { self.new ≡ Writing c offered (Err failure) ∷ self.old }
    {
        let kind = CallKind::Writing as u64;
        let numbers = [kind, failure.number(), c as u64, offered as u64];
        self.record.note(&numbers, &[], &[]);
    }

    /// Notes that a write of this number of bytes is put off.
    pub(crate) fn put_off(&mut self, c: usize, offered: usize)
        ensures { self.new ≡ PuttingOff c offered ∷ self.old }
    {
        let numbers = [CallKind::PuttingOff as u64, DONE, c as u64, offered as u64];
        self.record.note(&numbers, &[], &[]);
    }

    /// Notes that a connection is closed, and that these bytes, which were ahead, are dropped.
    pub(crate) fn closed(&mut self, c: usize, dropped: &[u8])
        ensures { self.new ≡ Closing c dropped.now ∷ self.old }
    {
        let numbers = [CallKind::Closing as u64, DONE, c as u64];
        self.record.note(&numbers, dropped, &[]);
    }
}
