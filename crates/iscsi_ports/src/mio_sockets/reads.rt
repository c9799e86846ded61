//! Reads of a connection: what is ahead is handed on first, and then the system is asked.
//!
//! A read fills a whole buffer where it can. What the reader has no room for is handed on at the next reads,
//! which are noted without a call. What is much is not copied then: the reader is lent the buffer. Within a large PDU the
//! system fills the reader's buffer, with the next header if that has come.

ghost use Rattle.std.specs.Prelude.{◌≡◌, ◌<◌, ◌≤◌, ◌+◌, ◌++◌, ◌∷◌, [], ℕ, false, None, length, vec_capacity, IfSome, IfOk};
ghost use Rattle.std.specs.Io.{WritesAtMost};
ghost use Rattle.iscsi_ports.specs.Log.{Read};
ghost use Rattle.iscsi_ports.specs.Calls.{Handing, log_by, moved, read_carried};
ghost use Rattle.iscsi_ports.specs.Polls.{unasked_in};
ghost use Rattle.iscsi_ports.specs.ReadBuffer.{ahead_on};
ghost use Rattle.iscsi_ports.specs.Readiness.{after_taking, given_in_all, read_by};

use super::MioSockets;
use crate::asking::HEADER;
use crate::read_buffer::{ReadBuffer, WholeBuffer, hand_from, take_lent};
use crate::readiness::Readiness;
use crate::socket_calls::SocketCalls;
use crate::socket_failure::SocketFailure;
use crate::spares::give_back;
use crate::stream_calls::{fill_from, read_from};

/// From this room on a reader is given what the system has with no copy.
pub(super) const LARGE: usize = 65_536;

impl MioSockets {
    /// Hands on what is ahead, with no call. Where nothing is, or there is no room for it, the read would wait.
    fn hand_on(&mut self, c: usize, buffer: &mut [u8]) -> Result<usize, SocketFailure>
        requires { c < 64 }
        ensures count { WritesAtMost result buffer.new }
        ensures told { log_by (⟦<MioSockets as SocketCalls>⟧.calls self.new) ≡ log_by (⟦<MioSockets as SocketCalls>⟧.calls self.old)
            ++ Read c (length buffer.new) (read_carried (moved result buffer.new)) ∷ [] }
        ensures unasked { unasked_in (⟦<MioSockets as SocketCalls>⟧.calls self.new) ≡ unasked_in (⟦<MioSockets as SocketCalls>⟧.calls self.old) }
    {
        let place = &mut self.ahead[c];
        let count = hand_from(place, buffer);
        give_back(place, &mut self.spares);
        self.notes.handed(c, buffer.len(), &buffer[..count]);
        if count == 0 {
            return Err(SocketFailure::WouldWait);
        }
        Ok(count)
    }

    /// Lends the buffer with what is ahead, with no call, if it is to be lent to a reader with this room.
    pub(super) fn lend_ahead(&mut self, c: usize, room: usize) -> Option<ReadBuffer>
        requires { c < 64 }
        ensures all { IfSome result (λ lent. lent ≡ ahead_on c self.old.ahead.items) }
        ensures some { IfSome result (λ lent. 0 < length lent) }
        ensures count { IfSome result (λ lent. length lent ≤ room) }
        ensures rest { IfSome result (λ lent. ahead_on c self.new.ahead.items ≡ []) }
        ensures handed { IfSome result (λ lent. ⟦<MioSockets as SocketCalls>⟧.calls self.new
            ≡ Handing c room lent ∷ ⟦<MioSockets as SocketCalls>⟧.calls self.old) }
        ensures same { result ≡ None → self.new ≡ self.old }
    {
        let place = &mut self.ahead[c];
        let lent = take_lent(place, room)?;
        self.notes.handed(c, room, lent.as_slice());
        Some(lent)
    }

    /// Reads into the reader's buffer.
    fn read_at_once(
        &mut self,
        readiness: &mut Readiness,
        c: usize,
        buffer: &mut [u8],
    ) -> Result<usize, SocketFailure>
        requires in_range { c < 64 }
        requires nothing_ahead { ahead_on c self.old.ahead.items ≡ [] }
        ensures count { WritesAtMost result buffer.new }
        ensures told { log_by (⟦<MioSockets as SocketCalls>⟧.calls self.new) ≡ log_by (⟦<MioSockets as SocketCalls>⟧.calls self.old)
            ++ Read c (length buffer.new) (read_carried (moved result buffer.new)) ∷ [] }
        ensures unasked { unasked_in (⟦<MioSockets as SocketCalls>⟧.calls self.new) ≡ unasked_in (⟦<MioSockets as SocketCalls>⟧.calls self.old) }
        ensures readiness { readiness.new ≡ after_taking c result (length buffer.new) readiness.old }
        ensures ahead { self.new.ahead ≡ self.old.ahead }
    {
        let room = buffer.len();
        let read = read_from(&mut self.streams[c], buffer);
        readiness.took(c, &read);
        let answer = read.answer();
        match answer {
            Ok(count) => self.notes.read(c, room, &buffer[..count]),
            Err(failure) => self.notes.read_failed(c, room, failure),
        }
        answer
    }

    /// Reads into a buffer of the ports, and hands on as much as there is room for.
    fn read_ahead(
        &mut self,
        readiness: &mut Readiness,
        mut whole: WholeBuffer,
        c: usize,
        buffer: &mut [u8],
    ) -> Result<usize, SocketFailure>
        requires in_range { c < 64 }
        requires nothing_ahead { ahead_on c self.old.ahead.items ≡ [] }
        requires room { 0 < length buffer.old }
        ensures count { WritesAtMost result buffer.new }
        ensures told { log_by (⟦<MioSockets as SocketCalls>⟧.calls self.new) ≡ log_by (⟦<MioSockets as SocketCalls>⟧.calls self.old)
            ++ Read c (length buffer.new) (read_carried (moved result buffer.new)) ∷ [] }
        ensures unasked { unasked_in (⟦<MioSockets as SocketCalls>⟧.calls self.new) ≡ unasked_in (⟦<MioSockets as SocketCalls>⟧.calls self.old) }
        ensures readiness { readiness.new
            ≡ after_taking c (given_in_all result (length (ahead_on c self.new.ahead.items))) 65584 readiness.old }
    {
        let read = fill_from(&mut self.streams[c], &mut whole);
        readiness.took(c, &read);
        let count = match read.answer() {
            Ok(count) => count,
            Err(failure) => {
                self.notes.read_failed(c, buffer.len(), failure);
                self.spares.keep(whole);
                return Err(failure);
            }
        };
        let mut ahead = ReadBuffer::of(whole, count);
        self.notes.read(c, buffer.len(), ahead.as_slice());
        let handed = ahead.hand(buffer);
        let left = self.spares.fit(ahead);
        let place = &mut self.ahead[c];
        *place = left;
        Ok(handed)
    }

    /// Reads into the reader's buffer, and keeps what came after its room in a buffer of the ports.
    fn read_beyond(
        &mut self,
        readiness: &mut Readiness,
        few: Vec<u8>,
        c: usize,
        room: usize,
        buffer: &mut [u8],
    ) -> Result<usize, SocketFailure>
        requires in_range { c < 64 }
        requires nothing_ahead { ahead_on c self.old.ahead.items ≡ [] }
        requires room { room ≤ length buffer.old }
        requires few { length buffer.old ≤ room + vec_capacity few }
        requires empty { few.items ≡ [] }
        ensures count { IfOk result (λ count. count ≤ room) }
        ensures long { length buffer.new ≡ length buffer.old }
        ensures told { log_by (⟦<MioSockets as SocketCalls>⟧.calls self.new) ≡ log_by (⟦<MioSockets as SocketCalls>⟧.calls self.old)
            ++ Read c room (read_carried (moved result buffer.new)) ∷ [] }
        ensures unasked { unasked_in (⟦<MioSockets as SocketCalls>⟧.calls self.new) ≡ unasked_in (⟦<MioSockets as SocketCalls>⟧.calls self.old) }
        ensures readiness { readiness.new
            ≡ after_taking c (given_in_all result (length (ahead_on c self.new.ahead.items))) (length buffer.old) readiness.old }
    {
        let read = read_from(&mut self.streams[c], buffer);
        readiness.took(c, &read);
        let count = match read.answer() {
            Ok(count) => count,
            Err(failure) => {
                self.notes.read_failed(c, room, failure);
                return Err(failure);
            }
        };
        self.notes.read(c, room, &buffer[..count]);
        let handed = count.min(room);
        let left = ReadBuffer::filled(few, &buffer[handed..count]);
        let place = &mut self.ahead[c];
        *place = left;
        Ok(handed)
    }

    /// Returns whether the system is to fill the buffer of a reader with this room, and no buffer of the ports: within a large
    /// PDU, and for the header after one if no buffer is kept.
    fn fills_reader(&self, c: usize, room: usize) -> bool
        requires { c < 64 }
        ensures { result ≡ false → room < 65536 }
    {
        room >= LARGE || self.bulk[c] && (room > HEADER || self.spares.is_empty())
    }

    /// Hands on what is ahead, or reads of the system, where there is room.
    pub(super) fn read_some(
        &mut self,
        readiness: &mut Readiness,
        c: usize,
        buffer: &mut [u8],
    ) -> Result<usize, SocketFailure>
        requires { c < 64 }
        ensures count { WritesAtMost result buffer.new }
        ensures told { log_by (⟦<MioSockets as SocketCalls>⟧.calls self.new) ≡ log_by (⟦<MioSockets as SocketCalls>⟧.calls self.old)
            ++ Read c (length buffer.new) (read_carried (moved result buffer.new)) ∷ [] }
        ensures unasked { unasked_in (⟦<MioSockets as SocketCalls>⟧.calls self.new) ≡ unasked_in (⟦<MioSockets as SocketCalls>⟧.calls self.old) }
        ensures readiness { (capacity : ℕ) × (length buffer.new ≤ capacity) × (readiness.new ≡ read_by capacity c (length buffer.new)
            (length (ahead_on c self.old.ahead.items)) (length (ahead_on c self.new.ahead.items)) result readiness.old) }
    {
        if buffer.is_empty() || self.count_ahead(c) > 0 {
            return self.hand_on(c, buffer);
        }
        if self.fills_reader(c, buffer.len()) {
            return self.read_at_once(readiness, c, buffer);
        }
        match self.spares.take() {
            Some(whole) => self.read_ahead(readiness, whole, c, buffer),
            None => self.read_at_once(readiness, c, buffer),
        }
    }

    /// Reads as [`MioSockets::read_some`] does into the first `room` bytes of the buffer, of which the rest may be used.
    pub(super) fn read_front(
        &mut self,
        readiness: &mut Readiness,
        c: usize,
        room: usize,
        buffer: &mut [u8],
    ) -> Result<usize, SocketFailure>
        requires in_range { c < 64 }
        requires room { room ≤ length buffer.old }
        ensures count { IfOk result (λ count. count ≤ room) }
        ensures long { length buffer.new ≡ length buffer.old }
        ensures told { log_by (⟦<MioSockets as SocketCalls>⟧.calls self.new) ≡ log_by (⟦<MioSockets as SocketCalls>⟧.calls self.old)
            ++ Read c room (read_carried (moved result buffer.new)) ∷ [] }
        ensures unasked { unasked_in (⟦<MioSockets as SocketCalls>⟧.calls self.new) ≡ unasked_in (⟦<MioSockets as SocketCalls>⟧.calls self.old) }
        ensures readiness { (capacity : ℕ) × (room ≤ capacity) × (readiness.new ≡ read_by capacity c room
            (length (ahead_on c self.old.ahead.items)) (length (ahead_on c self.new.ahead.items)) result readiness.old) }
    {
        let beyond = buffer.len() - room;
        if beyond == 0 || room <= HEADER || self.count_ahead(c) > 0 || !self.fills_reader(c, room) {
            return self.read_some(readiness, c, &mut buffer[..room]);
        }
        match self.spares.few(beyond) {
            Some(few) => self.read_beyond(readiness, few, c, room, buffer),
            None => self.read_some(readiness, c, &mut buffer[..room]),
        }
    }
}
