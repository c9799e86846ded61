//! Connections that are closed, and whose peers may still send.
//!
//! If a socket is closed while bytes wait to be read on it, the system resets the connection and throws
//! away what it has not sent (RFC 9293 §3.10.4 and RFC 1122 §4.2.2.13 let it). So a connection is shut for
//! writing first, then what its peer sends is read and thrown away until the peer ends too, within a bound
//! of bytes and of turns, and only then it is closed.

ghost use Rattle.std.specs.Prelude.{◌≡◌, ◌≢◌, ◌≤◌, ℕ, true, false, [], length, replicate, is_none, Some, None, option_map, is_some, ◌∷◌, IfOk, IfSome};
ghost use Rattle.std.specs.List.{list_all};
ghost use Rattle.std.specs.Duration.{as_nanos};
ghost use Rattle.iscsi_ports.specs.Polls.{IsNoLonger};
ghost use Rattle.iscsi_ports.specs.Lingering.{place_of, place_to_take, left_of, left_at_first, turns_later, turns_for, is_at_once, Shutting, Begins, IsDrained, AreDrained};
ghost use Rattle.iscsi_ports.specs.Lingering as lingering;

use crate::asking::{gave, shortly};
use crate::lingering_notes::LingeringNotes;
use crate::places::free_places;
use crate::socket_failure::SocketFailure;
use crate::system_read::SystemRead;
use mio::net::TcpStream;
use mio::{Interest, Registry, Token};
use std::alloc::{AllocError, Global};
use std::net::Shutdown;
use std::time::Duration;
use target_limits::CONNECTIONS;

/// The token of all of them: it is none of a connection's, and no listener's.
const LINGERING: usize = CONNECTIONS + 1;

/// The most bytes that are read of one in a turn.
const PIECE: usize = 16_384;

/// The most bytes that are read of one in all.
const MOST_BYTES: usize = 16_777_216;

/// The most turns for which one stays.
const MOST_TURNS: u32 = 1_048_576;

/// As how many turns one counts that waited and met no event, so that one whose peer is silent stays for 32.
const IDLE_TURNS: u32 = 32_768;

/// A connection that is shut for writing.
#[derive(Drop)]
struct LingeringSocket {
    stream: TcpStream,
    /// How many bytes are still read of it, and for how many turns it stays.
    bytes: usize,
    turns: u32,
}

impl LingeringSocket {
    /// Shuts a connection for writing, and notes whether it is kept in this place. Returns
    /// None if that fails, since its peer is gone.
    fn new(
        registry: &Registry,
        mut stream: TcpStream,
        place: usize,
        notes: &mut LingeringNotes,
    ) -> Option<LingeringSocket>
        ensures noted { notes.new ≡ Shutting place (is_some result) ∷ notes.old }
        ensures left { IfSome result (λ socket. left_of socket ≡ left_at_first) }
    {
        let token = Token(LINGERING);
        let is_kept = stream.shutdown(Shutdown::Write).is_ok()
            && registry
                .reregister(&mut stream, token, Interest::READABLE)
                .is_ok();
        notes.shut(place, is_kept);
        if !is_kept {
            return None;
        }
        Some(LingeringSocket {
            stream,
            bytes: MOST_BYTES,
            turns: MOST_TURNS,
        })
    }
}

/// Returns how many bytes are still read of one after a read of it. None where it is over: its peer has ended too,
/// or failed, or it is no longer waited for.
fn bytes_after(answer: Result<usize, SocketFailure>, bytes: usize) -> Option<usize>
    ensures { result ≡ lingering.bytes_after answer bytes }
{
    match answer {
        Ok(count) if 0 < count && count < bytes => Some(bytes - count),
        Err(SocketFailure::WouldWait | SocketFailure::Interrupted) => Some(bytes),
        Ok(_) | Err(_) => None,
    }
}

/// Reads a piece of the one in this place, throws it away, and closes the one that is over. Returns whether it may have
/// more.
fn drain_place(
    place: &mut Option<LingeringSocket>,
    number: usize,
    notes: &mut LingeringNotes,
    buffer: &mut [u8],
) -> bool
    ensures { IsDrained number place.old place.new notes.old notes.new result }
{
    let Some(socket) = place else {
        return false;
    };
    let answer = SystemRead::of(&mut socket.stream, buffer).answer();
    notes.drained(number, answer);
    match bytes_after(answer, socket.bytes) {
        Some(bytes) => {
            socket.bytes = bytes;
            gave(answer)
        }
        None => {
            *place = None;
            false
        }
    }
}

/// Counts this number of turns of the one in this place, and closes it if none are left.
fn count_place(place: &mut Option<LingeringSocket>, turns: u32)
    ensures { place.new ≡ turns_later turns place.old }
{
    let Some(socket) = place else {
        return;
    };
    if socket.turns <= turns {
        *place = None;
    } else {
        socket.turns -= turns;
    }
}

/// Returns as how many a turn counts that waited for as long as this.
pub(crate) fn turns_of(wait: Option<Duration>, met_event: bool) -> u32
    ensures some { 1 ≤ result }
    ensures value { result ≡ turns_for (option_map as_nanos wait) met_event }
{
    if met_event || wait == Some(Duration::ZERO) {
        1
    } else {
        IDLE_TURNS
    }
}

/// Connections that are shut for writing, 65 at most.
#[derive(Drop)]
pub(crate) struct LingeringSockets {
    places: Vec<Option<LingeringSocket>>,
    notes: LingeringNotes,
    ghost places_are_65: { length places.items ≡ 65 },
}

impl LingeringSockets {
    /// Makes 65 free places.
    pub(crate) fn new(alloc: Global) -> Result<LingeringSockets, AllocError>
        ensures places { IfOk result (λ sockets. sockets.places.items ≡ replicate 65 None) }
        ensures notes { IfOk result (λ sockets. sockets.notes ≡ []) }
    {
        Ok(LingeringSockets {
            places: free_places(alloc)?,
            notes: LingeringNotes::new(),
        })
    }

    fn is_empty(&self) -> bool
        ensures { result ≡ list_all is_none self.now.places.items }
    {
        self.places.iter().all(|place| place.is_none())
    }

    /// Returns the first place that is free, or the last one if none is.
    fn free_place(&self) -> usize
        ensures value { result ≡ place_to_take self.now.places.items }
        ensures range { result ≤ 64 }
    {
        for place in 0..CONNECTIONS {
            if self.places[place].is_none() {
                return place;
            }
        }
        CONNECTIONS
    }

    /// Shuts a connection for writing, and keeps it until its peer ends.
    pub(crate) fn begin(&mut self, registry: &Registry, stream: TcpStream)
        ensures begins { Begins self.old.places.items self.new.places.items self.old.notes self.new.notes }
        ensures others { (d : ℕ) → d ≢ place_to_take self.old.places.items
            → place_of d self.new.places.items ≡ place_of d self.old.places.items }
    {
        let place = self.free_place();
        self.places[place] = LingeringSocket::new(registry, stream, place, &mut self.notes);
    }

    /// Reads a piece of each, and closes those that are over. Returns whether one may have more.
    fn drain_all(&mut self) -> bool
        ensures { AreDrained 65 self.old.places.items self.new.places.items self.old.notes self.new.notes result }
    {
        let mut buffer = [0; PIECE];
        let mut has_more = false;
        for place in 0..CONNECTIONS + 1 {
            let more = drain_place(&mut self.places[place], place, &mut self.notes, &mut buffer);
            has_more |= more;
        }
        has_more
    }

    /// Reads a piece of each. Returns for how long a turn waits that would wait as long as this.
    pub(crate) fn drain(&mut self, wait: Option<Duration>) -> Option<Duration>
        ensures no_longer { IsNoLonger (option_map as_nanos result) (option_map as_nanos wait) }
        ensures as_told { list_all is_none self.old.places.items ≡ true → result ≡ wait }
        ensures shortly { list_all is_none self.old.places.items ≡ false → IsNoLonger (option_map as_nanos result) (Some 1000000000) }
        ensures drains { AreDrained 65 self.old.places.items self.new.places.items self.old.notes self.new.notes
            (is_at_once (option_map as_nanos result)) }
    {
        if self.is_empty() {
            return wait;
        }
        if self.drain_all() {
            return Some(Duration::ZERO);
        }
        shortly(wait)
    }

    /// Counts this number of turns of each, and closes those that have stayed for all of theirs.
    pub(crate) fn count_turns(&mut self, turns: u32)
        ensures counts { (d : ℕ) → place_of d self.new.places.items ≡ turns_later turns (place_of d self.old.places.items) }
        ensures notes { self.new.notes ≡ self.old.notes }
    {
        for place in 0..CONNECTIONS + 1 {
            count_place(&mut self.places[place], turns);
        }
    }
}
