//! Ports that follow a script, for tests.

ghost use Rattle.std.specs.Prelude.{◌≡◌, ◌<◌, ◌≤◌, ◌++◌, ◌∷◌, [], true, length, take, None, Ok, IsOk, IfOk};
ghost use Rattle.iscsi_ports.specs.Log.{Read, Wrote, Close};
ghost use Rattle.iscsi_ports.specs.Results.{carried_by, count_of, accept_entry};
ghost use Rattle.iscsi_ports.specs.Script.{place_at, input_at, read_told_at, write_told_at, HasRead, HasWritten, GoesOn, HasCome, KeepsOthers};
ghost use Rattle.iscsi_ports.specs.Entries.{carried_view, entry_view, log_view};

use crate::entry::{Carried, Entry};
use crate::places::free_places;
use crate::ports::Ports;
use crate::results::{Accepted, IoResult, Named, PortFault};
use crate::script::Script;
use std::alloc::{AllocError, Global};
use std::collections::VecDeque;
use target_limits::CONNECTIONS;

/// A listener with connections that follow scripts, and the log of what they told.
#[derive(Drop)]
pub struct MemPorts {
    alloc: Global,
    /// Those that have not been accepted yet, the next one first.
    pub callers: VecDeque<Script>,
    /// By their numbers. The last place is for one for which no number is free.
    pub connections: Vec<Option<Script>>,
    pub log: Vec<Entry>,
    /// Every entry of the log was kept: no allocation failed.
    pub tells: bool,
    ghost places: { length connections.items ≡ 65 },
}

impl MemPorts {
    /// Makes a listener with these callers, who wait to be accepted one after the other.
    pub fn new(alloc: Global, callers: VecDeque<Script>) -> Result<MemPorts, AllocError>
        ensures empty { IfOk result (λ ports. ports.log.items ≡ []) }
        ensures tells { IfOk result (λ ports. ports.tells ≡ true) }
    {
        Ok(MemPorts {
            alloc,
            callers,
            connections: free_places(alloc)?,
            log: Vec::new(alloc),
            tells: true,
        })
    }

    /// Returns whether the log tells all that was told so far.
    pub fn tells(&self) -> bool
        ensures { result ≡ self.now.tells }
    {
        self.tells
    }
}

/// Returns what the connection in this place gives to a read: a fault if there is none.
fn read_of(place: &mut Option<Script>, buffer: &mut [u8]) -> IoResult
    ensures count { count_of result ≤ length buffer.new }
    ensures told { result ≡ read_told_at place.old (length buffer.old) }
    ensures piece { take (count_of result) buffer.new ≡ take (count_of result) (input_at place.old) }
    ensures left { GoesOn (λ script script_then. HasRead script script_then result) place.old place.new }
{
    match place {
        Some(script) => script.read(buffer),
        None => IoResult::Fault,
    }
}

/// Returns how many bytes the connection in this place takes of a write: a fault if there is none.
fn write_of(place: &mut Option<Script>, bytes: &[u8]) -> IoResult
    ensures count { count_of result ≤ length bytes.now }
    ensures told { result ≡ write_told_at place.old (length bytes.now) }
    ensures left { GoesOn HasWritten place.old place.new }
{
    match place {
        Some(script) => script.write(bytes.len()),
        None => IoResult::Fault,
    }
}

/// Returns what a call with this buffer told, for the log.
fn carried(alloc: Global, told: IoResult, buffer: &[u8]) -> Result<Carried, AllocError>
    requires { count_of told ≤ length buffer.now }
    ensures { IfOk result (λ carried. carried_view carried ≡ carried_by told buffer.now) }
{
    match told {
        IoResult::Bytes(count) => Ok(Carried::Bytes(Vec::from_slice(alloc, &buffer[..count])?)),
        IoResult::End => Ok(Carried::End),
        IoResult::Fault => Ok(Carried::Fault),
    }
}

/// Keeps an entry, and says whether it did.
fn keep(log: &mut Vec<Entry>, entry: Entry) -> bool
    ensures { result ≡ true → log_view log.new.items ≡ log_view log.old.items ++ entry_view entry ∷ [] }
{
    log.push(entry).is_ok()
}

/// Keeps a read, and says whether it did.
fn keep_read(alloc: Global, log: &mut Vec<Entry>, c: usize, told: IoResult, buffer: &[u8]) -> bool
    requires { count_of told ≤ length buffer.now }
    ensures { result ≡ true → log_view log.new.items ≡ log_view log.old.items ++ Read c (length buffer.now) (carried_by told buffer.now) ∷ [] }
{
    match carried(alloc, told, buffer) {
        Ok(carried) => keep(
            log,
            Entry::Read {
                c,
                room: buffer.len(),
                carried,
            },
        ),
        Err(AllocError) => false,
    }
}

/// Keeps a write, and says whether it did.
fn keep_write(alloc: Global, log: &mut Vec<Entry>, c: usize, told: IoResult, bytes: &[u8]) -> bool
    requires { count_of told ≤ length bytes.now }
    ensures { result ≡ true → log_view log.new.items ≡ log_view log.old.items ++ Wrote c (length bytes.now) (carried_by told bytes.now) ∷ [] }
{
    match carried(alloc, told, bytes) {
        Ok(carried) => keep(
            log,
            Entry::Wrote {
                c,
                offered: bytes.len(),
                carried,
            },
        ),
        Err(AllocError) => false,
    }
}

impl Ports for MemPorts {
    ghost use Rattle.iscsi_ports.specs.Entries.{log_view};

    ghost log = { λ ports. log_view ports.log.items };

    ghost tells = { λ ports. ports.tells };

    fn poll(&mut self) -> Result<Named, PortFault> {
        let named = Named {
            listener: true,
            connections: [true; CONNECTIONS],
        };
        self.tells = keep(&mut self.log, Entry::Polled(Some(named))) && self.tells;
        Ok(named)
    }

    fn accept(&mut self, c: usize) -> Result<Accepted, PortFault>
        requires { c ≤ 64 }
        ensures ok { IsOk result }
        ensures log { self.new.tells ≡ true → log_view self.new.log.items ≡ log_view self.old.log.items ++ accept_entry c result ∷ [] }
        ensures back { self.new.tells ≡ true → self.old.tells ≡ true }
        ensures came { result ≡ Ok Accepted.Connection
            → HasCome (place_at c self.new.connections.items) self.old.callers.items self.new.callers.items }
        ensures nobody { result ≡ Ok Accepted.Nobody → (self.old.callers.items ≡ []) × (self.new.callers.items ≡ [])
            × (self.new.connections ≡ self.old.connections) }
        ensures others { KeepsOthers c self.old.connections.items self.new.connections.items }
    {
        match self.callers.pop_front() {
            Some(script) => {
                self.connections[c] = Some(script);
                self.tells = keep(&mut self.log, Entry::Open(c)) && self.tells;
                Ok(Accepted::Connection)
            }
            None => {
                self.tells = keep(&mut self.log, Entry::NobodyCame) && self.tells;
                Ok(Accepted::Nobody)
            }
        }
    }

    #[tactic(auto, using(std::proofs::lemmas::List::get_or_read))]
    fn read(&mut self, c: usize, buffer: &mut [u8]) -> IoResult
        requires { c < 64 }
        ensures count { count_of result ≤ length buffer.new }
        ensures log { self.new.tells ≡ true
            → log_view self.new.log.items ≡ log_view self.old.log.items ++ Read c (length buffer.new) (carried_by result buffer.new) ∷ [] }
        ensures back { self.new.tells ≡ true → self.old.tells ≡ true }
        ensures told { result ≡ read_told_at (place_at c self.old.connections.items) (length buffer.old) }
        ensures piece { take (count_of result) buffer.new ≡ take (count_of result) (input_at (place_at c self.old.connections.items)) }
        ensures goes_on { GoesOn (λ script script_then. HasRead script script_then result)
            (place_at c self.old.connections.items) (place_at c self.new.connections.items) }
        ensures others { KeepsOthers c self.old.connections.items self.new.connections.items }
        ensures callers { self.new.callers ≡ self.old.callers }
    {
        let told = read_of(&mut self.connections[c], buffer);
        self.tells = keep_read(self.alloc, &mut self.log, c, told, buffer) && self.tells;
        told
    }

    #[tactic(auto, using(std::proofs::lemmas::List::get_or_read))]
    fn write(&mut self, c: usize, bytes: &[u8]) -> IoResult
        requires { c < 64 }
        ensures count { count_of result ≤ length bytes.now }
        ensures log { self.new.tells ≡ true
            → log_view self.new.log.items ≡ log_view self.old.log.items ++ Wrote c (length bytes.now) (carried_by result bytes.now) ∷ [] }
        ensures back { self.new.tells ≡ true → self.old.tells ≡ true }
        ensures told { result ≡ write_told_at (place_at c self.old.connections.items) (length bytes.now) }
        ensures goes_on { GoesOn HasWritten (place_at c self.old.connections.items) (place_at c self.new.connections.items) }
        ensures others { KeepsOthers c self.old.connections.items self.new.connections.items }
        ensures callers { self.new.callers ≡ self.old.callers }
    {
        let told = write_of(&mut self.connections[c], bytes);
        self.tells = keep_write(self.alloc, &mut self.log, c, told, bytes) && self.tells;
        told
    }

    fn close(&mut self, c: usize)
        requires { c ≤ 64 }
        ensures log { self.new.tells ≡ true → log_view self.new.log.items ≡ log_view self.old.log.items ++ Close c ∷ [] }
        ensures back { self.new.tells ≡ true → self.old.tells ≡ true }
        ensures closed { place_at c self.new.connections.items ≡ None }
        ensures others { KeepsOthers c self.old.connections.items self.new.connections.items }
        ensures callers { self.new.callers ≡ self.old.callers }
    {
        self.connections[c] = None;
        self.tells = keep(&mut self.log, Entry::Close(c)) && self.tells;
    }
}
