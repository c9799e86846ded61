//! Ports over sockets.

ghost use Rattle.std.specs.Prelude.{◌≡◌, ◌<◌, ◌≤◌, ◌*◌, ◌∷◌, ◌++◌, option_map, ℕ, List, [], Bool, true, false, length, Option, None, Result, IfOk, IfErr, OnOk, OnErr};
ghost use Rattle.iscsi_ports.specs.Binding.{not_located, ExplainsFault};
ghost use Rattle.std.specs.Io.{WritesAtMost};
ghost use Rattle.std.specs.Net.Socket.{socket_ip, socket_port};
ghost use Rattle.std.specs.Duration.{as_nanos};
ghost use Rattle.std.specs.Result.{IsErrOf};
ghost use Rattle.std.specs.Net.Grammar.{IsSocketText};
ghost use Rattle.std.specs.declared.net.socket_addr.SocketAddr.{SocketAddr};
ghost use Rattle.iscsi_ports.specs.Results.{buffer_of, carried_by, carried_read, count_of, read_count, poll_entry, accept_entry, LendsSome};
ghost use Rattle.iscsi_ports.specs.Log.{Bytes, Listened, Located, Read, Wrote, Close};
ghost use Rattle.iscsi_ports.specs.Calls.{Polling, Naming, Accepting, Writing, PuttingOff, Closing, ip_octets, moved, accepted, read_carried, write_carried, log_by, token_after};
ghost use Rattle.iscsi_ports.specs.Readiness as ready;
ghost use Rattle.iscsi_ports.specs.Flags.{flag_of};
ghost use Rattle.iscsi_ports.specs.Readiness.{forgotten, IsReadBy};
ghost use Rattle.iscsi_ports.specs.Polls.{IsNoLonger};
ghost use Rattle.iscsi_ports.specs.Asking as asking;
ghost use Rattle.iscsi_ports.specs.Asking.{asks_now, wait_now, AsksInTime, after_asking, after_naming, after_accepting, after_reading, after_offering, after_writing, rested};
ghost use Rattle.iscsi_ports.specs.Turns.{Names, IsFair};
ghost use Rattle.iscsi_ports.specs.Events.{IsNamed};

use crate::asking::{
    MOST_UNASKED, carried_after, gave, goes_on, is_due, is_put_off, is_refused, is_to_go_on,
    longer, most_after, to_wait,
};
use crate::bind_fault::BindFault;
use crate::mio_sockets::MioSockets;
use crate::ports::Ports;
use crate::read_buffer::ReadBuffer;
use crate::readiness::{Readiness, set_where};
use crate::results::{Accepted, IoResult, Named, PortFault, ReadResult};
use crate::socket_calls::SocketCalls;
use crate::socket_failure::SocketFailure;
use crate::stopwatch::Stopwatch;
use call_record::Record;
use std::alloc::Global;
use std::io;
use std::net::{Net, SocketAddr};
use std::time::Duration;
use target_limits::CONNECTIONS;

/// Ports over the calls of the system, whose record they tell.
///
/// A read takes as many bytes from the system as it gives, and those that the reader has no room for are
/// told by the next reads. While such bytes are ahead the system is asked for events at each 64th poll, as soon
/// as 256 KiB were read and written, and after a millisecond, and what is to be written waits for the answers to
/// the commands that are ahead. After a write that would have waited the next poll asks, then every other one,
/// every fourth and so on, so that the connection is offered the rest soon.
///
/// A port may be named from an event of the system on until an accept of it would wait, or a read would or gave less than it
/// had room for, and as long as bytes of it are ahead.
#[derive(Drop)]
pub struct SocketPorts<K: SocketCalls + Drop> {
    pub(crate) sockets: K,
    /// Which ports may be ready.
    readiness: Readiness,
    /// Something was read, written or accepted since the last poll, so that there may be more.
    busy: bool,
    /// Bytes were read since the last poll of a connection of which more are ahead.
    holding: bool,
    /// The connections of which bytes were read since the last poll.
    has_read: [bool; CONNECTIONS],
    /// How many polls in a row were answered without asking the system.
    unasked: u32,
    /// How many in a row may be.
    most_unasked: u32,
    /// How many bytes were read and written meanwhile, as far as they count.
    carried: usize,
    /// It was started when the system was asked.
    stopwatch: Stopwatch,
    /// The last accept was refused: those who wait are still there, and no event will tell of them.
    refused: bool,
    /// For how long a poll waits. `None`: until there is an event.
    wait: Option<Duration>,
}

/// Ports over the system's sockets.
pub type MioPorts = SocketPorts<MioSockets>;

impl SocketPorts<MioSockets> {
    /// Listens on an address with a port, as `127.0.0.1:3260` or `[::1]:3260`; port 0 takes a free
    /// one. A poll waits for this number of milliseconds, or without limit.
    ///
    /// `Socket`: the text spells no address, or the system does not let it be listened on, which is noted in `refused`.
    pub fn new(
        net: &impl Net,
        alloc: Global,
        address: &str,
        wait: Option<u64>,
        refused: &mut Record,
    ) -> Result<MioPorts, BindFault>
        ensures log { IfOk result (λ ports. ⟦<SocketPorts<MioSockets> as Ports>⟧.log ports ≡ Listened address.now ∷ []) }
        ensures tells { IfOk result (λ ports. ⟦<SocketPorts<MioSockets> as Ports>⟧.tells ports ≡ true) }
        ensures in_time { IfOk result (λ ports. AsksInTime (⟦<MioSockets as SocketCalls>⟧.calls ports.sockets) ports) }
        ensures waits { IfOk result (λ ports. option_map as_nanos ports.wait ≡ option_map (λ n. n * 1000000) wait) }
        ensures spelled { IfOk result (λ ports. (value : SocketAddr) × IsSocketText address.now value) }
        ensures unspelled { ((value : SocketAddr) → ¬ (IsSocketText address.now value)) → IsErrOf result (BindFault.Socket None) }
        ensures explained { IfErr result (ExplainsFault address.now refused.old.calls refused.new.calls) }
    {
        let sockets = MioSockets::listen(net, alloc, address, refused)?;
        Ok(SocketPorts {
            sockets,
            readiness: Readiness::new(),
            busy: false,
            holding: false,
            has_read: [false; CONNECTIONS],
            unasked: 0,
            most_unasked: MOST_UNASKED,
            carried: 0,
            stopwatch: Stopwatch::start(),
            refused: false,
            wait: wait.map(Duration::from_millis),
        })
    }

    /// Returns the address that is listened on, with its port. What the system told is noted beside the calls, and in
    /// `refused` if it told nothing.
    pub fn address(&mut self, refused: &mut Record) -> io::Result<SocketAddr>
        ensures told { IfOk result (λ address. ⟦<SocketPorts<MioSockets> as Ports>⟧.log self.new
            ≡ ⟦<SocketPorts<MioSockets> as Ports>⟧.log self.old ++ Located (ip_octets (socket_ip address)) (socket_port address) ∷ []) }
        ensures unknown { OnErr result (refused.new.calls ≡ not_located ∷ refused.old.calls) }
        ensures tells { ⟦<SocketPorts<MioSockets> as Ports>⟧.tells self.new ≡ true }
        ensures in_time { AsksInTime (⟦<MioSockets as SocketCalls>⟧.calls self.old.sockets) self.old
            → AsksInTime (⟦<MioSockets as SocketCalls>⟧.calls self.new.sockets) self.new }
    {
        self.sockets.address(refused)
    }
}

/// Returns what an accept came to.
fn accept_told(answer: Result<bool, SocketFailure>) -> Result<Accepted, PortFault>
    ensures { (c : ℕ) → accept_entry c result ≡ accepted c answer }
{
    match answer {
        Ok(true) => Ok(Accepted::Connection),
        Ok(false) => Ok(Accepted::Nobody),
        Err(SocketFailure::WouldWait) => Ok(Accepted::Nobody),
        Err(SocketFailure::Interrupted) => Ok(Accepted::Nobody),
        Err(SocketFailure::Passing) => Ok(Accepted::Nobody),
        Err(SocketFailure::Refused) => Ok(Accepted::Nobody),
        Err(SocketFailure::Broken) => Err(PortFault),
    }
}

/// Returns what a read came to. No bytes are the end of the stream.
fn read_told(answer: Result<usize, SocketFailure>) -> IoResult
    ensures count { (room : ℕ) → IfOk answer (λ count. count ≤ room) → count_of result ≤ room }
    ensures told { (buffer : List ℕ) → WritesAtMost answer buffer → carried_by result buffer ≡ read_carried (moved answer buffer) }
{
    match answer {
        Ok(0) => IoResult::End,
        Ok(count) => IoResult::Bytes(count),
        Err(SocketFailure::WouldWait) => IoResult::Bytes(0),
        Err(SocketFailure::Interrupted) => IoResult::Bytes(0),
        Err(SocketFailure::Passing) => IoResult::Fault,
        Err(SocketFailure::Refused) => IoResult::Fault,
        Err(SocketFailure::Broken) => IoResult::Fault,
    }
}

/// Returns what a write came to.
fn write_told(answer: Result<usize, SocketFailure>) -> IoResult
    ensures count { (bytes : List ℕ) → WritesAtMost answer bytes → count_of result ≤ length bytes }
    ensures told { (bytes : List ℕ) → carried_by result bytes ≡ write_carried (moved answer bytes) }
{
    match answer {
        Ok(count) => IoResult::Bytes(count),
        Err(SocketFailure::WouldWait) => IoResult::Bytes(0),
        Err(SocketFailure::Interrupted) => IoResult::Bytes(0),
        Err(SocketFailure::Passing) => IoResult::Fault,
        Err(SocketFailure::Refused) => IoResult::Fault,
        Err(SocketFailure::Broken) => IoResult::Fault,
    }
}

/// Takes note of an accept: the listener is not ready if it would wait, and of a connection that has just come nothing
/// is known.
fn after_accept(readiness: &mut Readiness, c: usize, answer: Result<bool, SocketFailure>)
    ensures { readiness.new ≡ ready.after_accept c answer readiness.old }
{
    match answer {
        Ok(true) => readiness.forget(c),
        Err(SocketFailure::WouldWait) => readiness.ready.listener = false,
        Ok(false) | Err(_) => {}
    }
}

/// Returns whether somebody came, or the accept is to be tried again at once.
fn accept_goes_on(answer: Result<bool, SocketFailure>) -> bool
    ensures { result ≡ ready.accept_goes_on answer }
{
    matches!(
        answer,
        Ok(_) | Err(SocketFailure::Interrupted | SocketFailure::Passing)
    )
}

impl<K: SocketCalls + Drop> SocketPorts<K> {
    /// Takes note of a read.
    fn after_read(&mut self, c: usize, answer: Result<usize, SocketFailure>)
        requires { c < 64 }
        ensures { self.new ≡ after_reading c answer (length (K.ahead self.old.sockets c)) self.old.sockets self.old.readiness self.old }
    {
        let gave = gave(answer);
        self.busy |= goes_on(answer);
        self.carried = carried_after(answer, self.carried);
        self.holding |= gave & (self.sockets.count_ahead(c) > 0);
        set_where(gave, &mut self.has_read, c, true);
    }

    /// Reads into the reader's buffer.
    fn read_into(&mut self, c: usize, room: usize, buffer: &mut [u8]) -> IoResult
        requires in_range { c < 64 }
        requires room { room ≤ length buffer.old }
        ensures count { count_of result ≤ room }
        ensures long { length buffer.new ≡ length buffer.old }
        ensures log { log_by (K.calls self.new.sockets) ≡ log_by (K.calls self.old.sockets)
            ++ Read c room (carried_by result buffer.new) ∷ [] }
        ensures after { (answer : Result ℕ SocketFailure) × (carried_by result buffer.new ≡ read_carried (moved answer buffer.new))
            × IsReadBy c room (length (K.ahead self.old.sockets c)) (length (K.ahead self.new.sockets c)) answer
            self.old.readiness self.new.readiness
            × (self.new ≡ after_reading c answer (length (K.ahead self.new.sockets c)) self.new.sockets self.new.readiness self.old) }
        ensures in_time { AsksInTime (K.calls self.old.sockets) self.old → AsksInTime (K.calls self.new.sockets) self.new }
    {
        let answer = self.sockets.read(&mut self.readiness, c, room, buffer);
        self.after_read(c, answer);
        read_told(answer)
    }

    /// Returns whether a poll asks the system. Looks at the clock if nothing else has it ask.
    fn is_to_ask(&mut self) -> bool
        ensures asks { result ≡ asks_now self.new.stopwatch.has_passed self.old }
        ensures same { self.new ≡ record self.old { stopwatch = self.new.stopwatch } }
    {
        is_due(self.unasked, self.most_unasked, self.carried)
            || !is_to_go_on(self.holding, self.busy, self.unasked)
            || self.stopwatch.look()
    }

    /// Returns whether a write of this number of bytes has to wait: the connection takes none now, or its answers are put
    /// off.
    fn has_to_wait(&self, c: usize, offered: usize) -> bool
        requires { c < 64 }
        ensures { result ≡ asking.has_to_wait c (length (K.ahead self.now.sockets c)) offered self.now }
    {
        self.readiness.is_full(c)
            || is_put_off(self.has_read[c], self.sockets.count_ahead(c), offered)
    }
}

impl<K: SocketCalls + Drop> Ports for SocketPorts<K> {
    ghost log = { λ ports. log_by (K.calls ports.sockets) };

    ghost tells = { λ _. true };

    fn poll(&mut self) -> Result<Named, PortFault>
        ensures log { log_by (K.calls self.new.sockets) ≡ log_by (K.calls self.old.sockets) ++ poll_entry result ∷ [] }
        ensures asked { asks_now self.new.stopwatch.has_passed self.old ≡ true
            → (handed : Option ℕ) × IsNoLonger handed (wait_now self.old)
            × (K.rest self.old.sockets ≡ true → handed ≡ wait_now self.old)
            × ((named : Result Named SocketFailure) × (K.calls self.new.sockets ≡ Polling handed named ∷ K.calls self.old.sockets)) }
        ensures after_asking { asks_now self.new.stopwatch.has_passed self.old ≡ true
            → self.new ≡ after_asking self.new.sockets self.new.readiness self.new.stopwatch self.old }
        ensures unasked { asks_now self.new.stopwatch.has_passed self.old ≡ false
            → K.calls self.new.sockets ≡ Naming self.new.readiness.named ∷ K.calls self.old.sockets }
        ensures after_naming { asks_now self.new.stopwatch.has_passed self.old ≡ false
            → self.new ≡ after_naming self.new.sockets self.new.readiness self.new.stopwatch self.old }
        ensures known { asks_now self.new.stopwatch.has_passed self.old ≡ false → Names false (rested self.old) self.new.readiness }
        ensures turn { asks_now self.new.stopwatch.has_passed self.old ≡ true
            → OnOk result (IsNamed (K.events self.new.sockets) (rested self.old) self.new.readiness) }
        ensures unseen { OnErr result (self.new.readiness ≡ rested self.old) }
        ensures named { IfOk result (λ named. named ≡ self.new.readiness.named) }
        ensures fair { OnOk result (IsFair (rested self.old) self.new.readiness) }
        ensures in_time { AsksInTime (K.calls self.old.sockets) self.old → AsksInTime (K.calls self.new.sockets) self.new }
    {
        let asks = self.is_to_ask();
        let wait = to_wait(
            self.busy || self.readiness.left_out(),
            self.refused,
            self.wait,
        );
        self.readiness.note_carried(self.busy);
        self.busy = false;
        self.holding = false;
        self.has_read = [false; CONNECTIONS];
        if !asks {
            self.unasked += 1;
            self.readiness.name(false);
            self.sockets.note_named(&self.readiness.named);
            return Ok(self.readiness.named);
        }
        self.unasked = 0;
        self.most_unasked = longer(self.most_unasked);
        self.carried = 0;
        self.refused = false;
        let answer = self.sockets.poll(&mut self.readiness, wait);
        self.stopwatch.restart();
        match answer {
            Ok(()) => Ok(self.readiness.named),
            Err(_) => Err(PortFault),
        }
    }

    fn accept(&mut self, c: usize) -> Result<Accepted, PortFault>
        requires { c ≤ 64 }
        ensures log { log_by (K.calls self.new.sockets) ≡ log_by (K.calls self.old.sockets) ++ accept_entry c result ∷ [] }
        ensures asked { (answer : Result Bool SocketFailure) × (K.calls self.new.sockets ≡ Accepting c (token_after c answer) answer ∷ K.calls self.old.sockets)
            × (self.new ≡ after_accepting c answer self.new.sockets self.old) }
        ensures in_time { AsksInTime (K.calls self.old.sockets) self.old → AsksInTime (K.calls self.new.sockets) self.new }
    {
        let answer = self.sockets.accept(c);
        after_accept(&mut self.readiness, c, answer);
        self.busy |= accept_goes_on(answer);
        self.refused = is_refused(answer);
        accept_told(answer)
    }

    fn read(&mut self, c: usize, buffer: &mut [u8]) -> IoResult
        requires { c < 64 }
        ensures count { count_of result ≤ length buffer.new }
        ensures log { log_by (K.calls self.new.sockets) ≡ log_by (K.calls self.old.sockets)
            ++ Read c (length buffer.new) (carried_by result buffer.new) ∷ [] }
        ensures after { (answer : Result ℕ SocketFailure) × (carried_by result buffer.new ≡ read_carried (moved answer buffer.new))
            × IsReadBy c (length buffer.new) (length (K.ahead self.old.sockets c)) (length (K.ahead self.new.sockets c)) answer
            self.old.readiness self.new.readiness
            × (self.new ≡ after_reading c answer (length (K.ahead self.new.sockets c)) self.new.sockets self.new.readiness self.old) }
        ensures in_time { AsksInTime (K.calls self.old.sockets) self.old → AsksInTime (K.calls self.new.sockets) self.new }
    {
        self.read_into(c, buffer.len(), buffer)
    }

    fn read_front(&mut self, c: usize, room: usize, buffer: &mut [u8]) -> ReadResult
        requires in_range { c < 64 }
        requires room { room ≤ length buffer.old }
        ensures count { read_count result ≤ room }
        ensures some { LendsSome result }
        ensures long { length buffer.new ≡ length buffer.old }
        ensures log { log_by (K.calls self.new.sockets) ≡ log_by (K.calls self.old.sockets)
            ++ Read c room (carried_read result buffer.new) ∷ [] }
        ensures after { (answer : Result ℕ SocketFailure)
            × (carried_read result buffer.new ≡ read_carried (moved answer (buffer_of result buffer.new)))
            × IsReadBy c room (length (K.ahead self.old.sockets c)) (length (K.ahead self.new.sockets c)) answer
            self.old.readiness self.new.readiness
            × (self.new ≡ after_reading c answer (length (K.ahead self.new.sockets c)) self.new.sockets self.new.readiness self.old) }
        ensures in_time { AsksInTime (K.calls self.old.sockets) self.old → AsksInTime (K.calls self.new.sockets) self.new }
    {
        match self.sockets.lend(&mut self.readiness, c, room) {
            Some(lent) => {
                self.after_read(c, Ok(lent.len()));
                ReadResult::Lent(lent)
            }
            None => ReadResult::of(self.read_into(c, room, buffer)),
        }
    }

    fn take_back(&mut self, lent: ReadBuffer)
        ensures log { log_by (K.calls self.new.sockets) ≡ log_by (K.calls self.old.sockets) }
        ensures ahead { (c : ℕ) → K.ahead self.new.sockets c ≡ K.ahead self.old.sockets c }
        ensures after { self.new ≡ record self.old { sockets = self.new.sockets } }
        ensures in_time { AsksInTime (K.calls self.old.sockets) self.old → AsksInTime (K.calls self.new.sockets) self.new }
    {
        self.sockets.take_back(lent);
    }

    fn write(&mut self, c: usize, bytes: &[u8]) -> IoResult
        requires { c < 64 }
        ensures count { count_of result ≤ length bytes.now }
        ensures log { log_by (K.calls self.new.sockets) ≡ log_by (K.calls self.old.sockets)
            ++ Wrote c (length bytes.now) (carried_by result bytes.now) ∷ [] }
        ensures put_off { asking.has_to_wait c (length (K.ahead self.old.sockets c)) (length bytes.now) self.old ≡ true
            → (K.calls self.new.sockets ≡ PuttingOff c (length bytes.now) ∷ K.calls self.old.sockets)
            × (self.new ≡ record self.old { sockets = self.new.sockets; readiness = after_offering c (length bytes.now) self.old }) }
        ensures written { asking.has_to_wait c (length (K.ahead self.old.sockets c)) (length bytes.now) self.old ≡ false
            → (answer : Result ℕ SocketFailure)
            × (K.calls self.new.sockets ≡ Writing c (length bytes.now) (moved answer bytes.now) ∷ K.calls self.old.sockets)
            × (self.new ≡ after_writing c (length bytes.now) answer self.new.sockets self.old) }
        ensures in_time { AsksInTime (K.calls self.old.sockets) self.old → AsksInTime (K.calls self.new.sockets) self.new }
    {
        self.readiness.offer(c, bytes.len(), self.has_read[c]);
        if self.has_to_wait(c, bytes.len()) {
            self.sockets.note_put_off(c, bytes.len());
            return IoResult::Bytes(0);
        }
        let answer = self.sockets.write(&mut self.readiness, c, bytes);
        self.busy |= goes_on(answer);
        self.carried = carried_after(answer, self.carried);
        self.most_unasked = most_after(answer, self.most_unasked);
        write_told(answer)
    }

    fn puts_off(&mut self, c: usize, bytes: &[u8]) -> bool
        requires { c < 64 }
        ensures full { result ≡ flag_of c self.old.readiness.full }
        ensures put_off { result ≡ true
            → (K.calls self.new.sockets ≡ PuttingOff c (length bytes.now) ∷ K.calls self.old.sockets)
            × (self.new ≡ record self.old { sockets = self.new.sockets }) }
        ensures log { result ≡ true → log_by (K.calls self.new.sockets) ≡ log_by (K.calls self.old.sockets)
            ++ Wrote c (length bytes.now) (Bytes []) ∷ [] }
        ensures same { result ≡ false → self.new ≡ self.old }
        ensures in_time { AsksInTime (K.calls self.old.sockets) self.old → AsksInTime (K.calls self.new.sockets) self.new }
    {
        if !self.readiness.is_full(c) {
            return false;
        }
        self.sockets.note_put_off(c, bytes.len());
        true
    }

    fn close(&mut self, c: usize)
        requires { c ≤ 64 }
        ensures log { log_by (K.calls self.new.sockets) ≡ log_by (K.calls self.old.sockets) ++ Close c ∷ [] }
        ensures after { self.new ≡ record self.old { sockets = self.new.sockets; readiness = forgotten c self.old.readiness } }
        ensures closed { K.calls self.new.sockets ≡ Closing c (K.ahead self.old.sockets c) ∷ K.calls self.old.sockets }
        ensures in_time { AsksInTime (K.calls self.old.sockets) self.old → AsksInTime (K.calls self.new.sockets) self.new }
    {
        self.sockets.close(c);
        self.readiness.forget(c);
    }
}
