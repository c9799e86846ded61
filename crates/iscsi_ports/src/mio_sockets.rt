//! The system's sockets: each method makes its call of `mio`, and notes what was answered.
//!
//! No contract says what a socket gives and takes, so whether each note is true is seen here by eye.

ghost use Rattle.std.specs.Prelude.{◌≡◌, ◌≢◌, ◌<◌, ◌≤◌, ◌-◌, ◌∷◌, [], ℕ, true, false, not, ◌==◌, ◌&&◌, length, slice_index_or, Option, Some, None, is_none, option_map, replicate, Ok, IsSome, IfOk, IfErr, OnOk, OnErr};
ghost use Rattle.iscsi_ports.specs.Binding.{not_located, ExplainsFault};
ghost use Rattle.std.specs.Net.Socket.{socket_ip, socket_port};
ghost use Rattle.std.specs.Result.{IsErrOf};
ghost use Rattle.std.specs.Net.Grammar.{IsSocketText};
ghost use Rattle.std.specs.declared.net.socket_addr.SocketAddr.{SocketAddr};
ghost use Rattle.iscsi_ports.specs.Calls.{Accepting, Closing, Listening, Located, Polling, ip_octets, named_by, token_after};
ghost use Rattle.iscsi_ports.specs.Lingering.{place_of, place_to_take, turns_left, is_at_once, Begins, AreDrained, Lingers};
ghost use Rattle.iscsi_ports.specs.Events.{IsNamed};
ghost use Rattle.mio.specs.Events.{items};
ghost use Rattle.iscsi_ports.specs.ReadBuffer.{IsAccounted, AreDropped, ahead_on};
ghost use Rattle.iscsi_ports.specs.Polls.{IsNoLonger, waited_in};
ghost use Rattle.iscsi_ports.specs.Spares as spares;
ghost use Rattle.std.specs.Duration.{as_nanos};
ghost use Rattle.std.specs.List.{list_all};

mod peers;
mod reads;

use crate::asking::HEADER;
use crate::bind_fault::{BindFault, bind_fault};
use crate::call_notes::CallNotes;
use crate::events::name_ready;
use crate::lingering::{LingeringSockets, turns_of};
use crate::places::free_places;
use crate::read_buffer::{ReadBuffer, count_ahead, slice_ahead};
use crate::readiness::Readiness;
use crate::results::Named;
use crate::socket_calls::SocketCalls;
use crate::socket_failure::{SocketFailure, socket_failure};
use crate::spares::Spares;
use crate::stream_calls::write_to;
use crate::watching::{watch, watched};
use call_record::Record;
use mio::net::{TcpListener, TcpStream};
use mio::{Events, Poll};
use reads::LARGE;
use std::alloc::Global;
use std::io;
use std::net::{Net, SocketAddr};
use std::time::Duration;
use target_limits::CONNECTIONS;

/// How many events one poll takes from the system.
const EVENTS: usize = 128;

/// The numbers of the notes of what failed at the start: no listener was made, and it is not known where it listens.
const NOT_BOUND: u64 = 0;

const NOT_LOCATED: u64 = 1;

/// Makes a poll, and a listener that it watches, at an address.
fn bound(net: &impl Net, address: SocketAddr) -> io::Result<(Poll, TcpListener)> {
    let poll = Poll::new(net)?;
    let listener = watched(net, &poll, address)?;
    Ok((poll, listener))
}

/// A listening socket and the connections that it accepted.
#[derive(Drop)]
pub struct MioSockets {
    poll: Poll,
    events: Events,
    listener: TcpListener,
    /// By their numbers. The last place is for one for which no number is free.
    streams: Vec<Option<TcpStream>>,
    /// What is ahead of each.
    ahead: Vec<Option<ReadBuffer>>,
    /// Buffers for the next reads.
    spares: Spares,
    /// Who is within a large PDU, or had one last: after it comes another, as a rule. A wrong guess costs a call or a copy,
    /// and so a connection begins with that of the one before it under its number.
    bulk: [bool; CONNECTIONS],
    /// Those that were closed, and whose peers may still send.
    lingering: LingeringSockets,
    notes: CallNotes,
    ghost places: { length streams.items ≡ 65 },
    ghost ahead_places: { length ahead.items ≡ 65 },
    ghost accounted: { IsAccounted notes ahead.items },
    ghost dropped: { AreDropped notes },
}

/// What is allocated for polls and connections.
#[derive(Drop)]
struct Room {
    events: Events,
    streams: Vec<Option<TcpStream>>,
    ahead: Vec<Option<ReadBuffer>>,
    spares: Spares,
    lingering: LingeringSockets,
}

/// Allocates what polls and connections need.
fn make_room(alloc: Global) -> Result<Room, BindFault>
    ensures streams { IfOk result (λ room. length room.streams.items ≡ 65) }
    ensures ahead { IfOk result (λ room. room.ahead.items ≡ replicate 65 None) }
    ensures memory { IfErr result (λ fault. fault ≡ BindFault.Memory) }
{
    Ok(Room {
        events: Events::with_capacity(alloc, EVENTS)?,
        streams: free_places(alloc)?,
        ahead: free_places(alloc)?,
        spares: Spares::new(alloc)?,
        lingering: LingeringSockets::new(alloc)?,
    })
}

impl MioSockets {
    /// Listens on the address that a text spells, and notes it. If no listener is made, that is noted in `refused`.
    pub(crate) fn listen(
        net: &impl Net,
        alloc: Global,
        text: &str,
        refused: &mut Record,
    ) -> Result<MioSockets, BindFault>
        ensures asked { IfOk result (λ sockets. ⟦<MioSockets as SocketCalls>⟧.calls sockets ≡ Listening text.now ∷ []) }
        ensures spelled { IfOk result (λ sockets. (address : SocketAddr) × IsSocketText text.now address) }
        ensures unspelled { ((address : SocketAddr) → ¬ (IsSocketText text.now address)) → IsErrOf result (BindFault.Socket None) }
        ensures explained { IfErr result (ExplainsFault text.now refused.old.calls refused.new.calls) }
    {
        let Ok(address) = text.parse::<SocketAddr>() else {
            return Err(BindFault::Socket { code: None });
        };
        let (poll, listener) = match bound(net, address) {
            Ok(made) => made,
            Err(error) => {
                refused.note(&[NOT_BOUND], text.as_bytes(), &[]);
                return Err(bind_fault(&error));
            }
        };
        let room = make_room(alloc)?;
        let mut notes = CallNotes::new();
        notes.listening(text);
        Ok(MioSockets {
            poll,
            events: room.events,
            listener,
            streams: room.streams,
            ahead: room.ahead,
            spares: room.spares,
            bulk: [false; CONNECTIONS],
            lingering: room.lingering,
            notes,
        })
    }

    /// Returns the address that is listened on, with its port, which is noted too. If the system does not tell it, that
    /// is noted in `refused`.
    pub(crate) fn address(&mut self, refused: &mut Record) -> io::Result<SocketAddr>
        ensures told { IfOk result (λ address. ⟦<MioSockets as SocketCalls>⟧.calls self.new
            ≡ Located (ip_octets (socket_ip address)) (socket_port address) ∷ ⟦<MioSockets as SocketCalls>⟧.calls self.old) }
        ensures same { OnErr result (⟦<MioSockets as SocketCalls>⟧.calls self.new ≡ ⟦<MioSockets as SocketCalls>⟧.calls self.old) }
        ensures unknown { OnErr result (refused.new.calls ≡ not_located ∷ refused.old.calls) }
    {
        match self.listener.local_addr() {
            Ok(address) => {
                self.notes.located(address);
                Ok(address)
            }
            Err(error) => {
                refused.note(&[NOT_LOCATED], &[], &[]);
                Err(error)
            }
        }
    }

    /// Drops what is ahead of a connection, and notes it with its close.
    fn note_close(&mut self, c: usize)
        requires { c ≤ 64 }
        ensures noted { ⟦<MioSockets as SocketCalls>⟧.calls self.new
            ≡ Closing c (ahead_on c self.old.ahead.items) ∷ ⟦<MioSockets as SocketCalls>⟧.calls self.old }
        ensures lingering { self.new.lingering ≡ self.old.lingering }
        ensures streams { self.new.streams ≡ self.old.streams }
    {
        let dropped = slice_ahead(&self.ahead[c]);
        self.notes.closed(c, dropped);
        self.ahead[c] = None;
    }
}

/// Returns whether a connection is within a large PDU, or had one last, after a read with this room: more than for a
/// header there is only within data. `was_bulk`: whether that was so before it.
fn is_bulk(room: usize, was_bulk: bool) -> bool {
    room >= LARGE || room > HEADER && was_bulk
}

impl SocketCalls for MioSockets {
    ghost calls = { λ sockets. sockets.notes };

    ghost ahead = { λ sockets c. ahead_on c sockets.ahead.items };

    ghost events = { λ sockets. items sockets.events };

    ghost rest = { λ sockets. list_all is_none sockets.lingering.places.items && (length sockets.spares.buffers.items == 0) };

    fn poll(
        &mut self,
        readiness: &mut Readiness,
        wait: Option<Duration>,
    ) -> Result<(), SocketFailure>
        ensures noted { (handed : Option ℕ) × IsNoLonger handed (option_map as_nanos wait)
            × (⟦<MioSockets as SocketCalls>⟧.rest self.old ≡ true → handed ≡ option_map as_nanos wait)
            × (⟦<MioSockets as SocketCalls>⟧.calls self.new
            ≡ Polling handed (named_by result readiness.new.named) ∷ ⟦<MioSockets as SocketCalls>⟧.calls self.old) }
        ensures turn { OnOk result (IsNamed (⟦<MioSockets as SocketCalls>⟧.events self.new) readiness.old readiness.new) }
        ensures unseen { OnErr result (readiness.new ≡ readiness.old) }
        ensures shortly { list_all is_none self.old.lingering.places.items ≡ false
            → IsNoLonger (waited_in (⟦<MioSockets as SocketCalls>⟧.calls self.new)) (Some 1000000000) }
        ensures shortly_with_spares { 0 < length self.old.spares.buffers.items
            → IsNoLonger (waited_in (⟦<MioSockets as SocketCalls>⟧.calls self.new)) (Some 1000000000) }
        ensures idle { OnOk result (spares.is_idle (waited_in (⟦<MioSockets as SocketCalls>⟧.calls self.new))
            (not (length (items self.new.events) == 0)) ≡ true → length self.new.spares.buffers.items ≡ 0) }
        ensures lingering { OnOk result ((d : ℕ) → turns_left (place_of d self.new.lingering.places.items)
            ≤ turns_left (place_of d self.old.lingering.places.items) - 1) }
        ensures lingers { OnOk result (Lingers (waited_in (⟦<MioSockets as SocketCalls>⟧.calls self.new))
            (not (length (items self.new.events) == 0)) self.old.lingering.places.items self.new.lingering.places.items
            self.old.lingering.notes self.new.lingering.notes) }
        ensures drained { OnErr result (AreDrained 65 self.old.lingering.places.items self.new.lingering.places.items
            self.old.lingering.notes self.new.lingering.notes
            (is_at_once (waited_in (⟦<MioSockets as SocketCalls>⟧.calls self.new)))) }
    {
        let wait = self.lingering.drain(wait);
        let wait = self.spares.wait_beside(wait);
        if let Err(error) = self.poll.poll(&mut self.events, wait) {
            let failure = socket_failure(&error);
            self.notes.poll_failed(wait, failure);
            return Err(failure);
        }
        name_ready(readiness, &self.events);
        let met_event = !self.events.is_empty();
        let turns = turns_of(wait, met_event);
        self.lingering.count_turns(turns);
        self.spares.drop_idle(wait, met_event);
        self.notes.polled(wait, &readiness.named);
        Ok(())
    }

    fn note_named(&mut self, named: &Named) {
        self.notes.named(named);
    }

    fn accept(&mut self, c: usize) -> Result<bool, SocketFailure>
        requires { c ≤ 64 }
        ensures noted { ⟦<MioSockets as SocketCalls>⟧.calls self.new
            ≡ Accepting c (token_after c result) result ∷ ⟦<MioSockets as SocketCalls>⟧.calls self.old }
        ensures kept { result ≡ Ok true → IsSome (slice_index_or self.new.streams.items c None) }
        ensures dropped { result ≡ Ok false → self.new.streams.items ≡ self.old.streams.items }
    {
        match self.listener.accept() {
            Ok((mut stream, _)) => {
                let token = watch(self.poll.registry(), &mut stream, c);
                let is_kept = token.is_some() || c == CONNECTIONS;
                self.notes.accepted(c, token, is_kept);
                self.ahead[c] = None;
                if is_kept {
                    self.streams[c] = Some(stream);
                }
                Ok(is_kept)
            }
            Err(error) => {
                let failure = socket_failure(&error);
                self.notes.accept_failed(c, failure);
                Err(failure)
            }
        }
    }

    fn count_ahead(&self, c: usize) -> usize {
        count_ahead(&self.ahead[c])
    }

    fn lend(&mut self, readiness: &mut Readiness, c: usize, room: usize) -> Option<ReadBuffer> {
        let lent = self.lend_ahead(c, room)?;
        self.bulk[c] = is_bulk(room, self.bulk[c]);
        readiness.ready_again(c, false);
        Some(lent)
    }

    fn take_back(&mut self, lent: ReadBuffer) {
        self.spares.keep_whole(lent);
    }

    fn read(
        &mut self,
        readiness: &mut Readiness,
        c: usize,
        room: usize,
        buffer: &mut [u8],
    ) -> Result<usize, SocketFailure> {
        let answer = self.read_front(readiness, c, room, buffer);
        if answer.is_ok() {
            self.bulk[c] = is_bulk(room, self.bulk[c]);
        }
        readiness.ready_again(c, self.count_ahead(c) > 0);
        answer
    }

    fn write(
        &mut self,
        readiness: &mut Readiness,
        c: usize,
        bytes: &[u8],
    ) -> Result<usize, SocketFailure> {
        match write_to(&mut self.streams[c], bytes) {
            Ok(count) => {
                self.notes.wrote(c, bytes.len(), &bytes[..count]);
                Ok(count)
            }
            Err(failure) => {
                self.notes.write_failed(c, bytes.len(), failure);
                if failure == SocketFailure::WouldWait {
                    readiness.fill(c);
                }
                Err(failure)
            }
        }
    }

    fn note_put_off(&mut self, c: usize, offered: usize) {
        self.notes.put_off(c, offered);
    }

    fn close(&mut self, c: usize)
        requires { c ≤ 64 }
        ensures noted { ⟦<MioSockets as SocketCalls>⟧.calls self.new ≡ Closing c (ahead_on c self.old.ahead.items) ∷ ⟦<MioSockets as SocketCalls>⟧.calls self.old }
        ensures closed { slice_index_or self.new.streams.items c None ≡ None }
        ensures begins { IsSome (slice_index_or self.old.streams.items c None) → Begins self.old.lingering.places.items
            self.new.lingering.places.items self.old.lingering.notes self.new.lingering.notes }
        ensures others { (d : ℕ) → d ≢ place_to_take self.old.lingering.places.items
            → place_of d self.new.lingering.places.items ≡ place_of d self.old.lingering.places.items }
    {
        self.note_close(c);
        if let Some(stream) = self.streams[c].take() {
            self.lingering.begin(self.poll.registry(), stream);
        }
    }

    ghost accounted = { λ sockets c lt. sockets.accounted c lt };

    ghost dropped = { λ sockets. sockets.dropped };
}
