//! Bytes of a connection that the system gave and that were not handed on yet.

ghost use Rattle.std.specs.Prelude.{◌≡◌, ◌<◌, ◌≤◌, [], true, None, min, length, take, drop, vec_capacity, IfOk, IfSome};
ghost use Rattle.iscsi_ports.specs.ReadBuffer.{bytes_in};

use crate::system_read::SystemRead;
use mio::net::TcpStream;
use std::alloc::{AllocError, Global};
use std::marker::Model;

/// How many bytes may be ahead of a connection: a PDU with 65,536 bytes of data and its header (RFC 7143 §11.2.1).
pub(crate) const MOST_AHEAD: usize = 65_584;

/// The most bytes that are copied to be handed on, or to a buffer of their own length, if a reader can also be lent them.
pub(crate) const FEW: usize = 4_096;

/// A buffer into which the system reads.
#[derive(Drop)]
pub(crate) struct WholeBuffer {
    bytes: Vec<u8>,
    ghost whole: { length bytes.items ≡ 65584 },
}

impl WholeBuffer {
    /// Makes a buffer.
    pub(crate) fn new(alloc: Global) -> Result<WholeBuffer, AllocError> {
        Ok(WholeBuffer {
            bytes: vec![in alloc; 0; MOST_AHEAD]?,
        })
    }

    /// Reads once into the whole buffer. The bytes that came are its first.
    pub(crate) fn fill(&mut self, stream: &mut TcpStream) -> SystemRead
        ensures offered { result.offered ≡ 65584 }
        ensures answer { IfOk result.answer (λ count. count ≤ 65584) }
    {
        SystemRead::of(stream, self.bytes.as_mut_slice())
    }
}

/// A buffer with bytes that are ahead, or were and are lent: the whole one into which they were read, or one of their own
/// length. It is seen as the list of these.
#[derive(Drop)]
pub struct ReadBuffer {
    buffer: Vec<u8>,
    from: usize,
    to: usize,
}

impl Model for ReadBuffer {
    ghost use Rattle.std.specs.Prelude.{ℕ, List, ◌≤◌, length, slice_range};

    ghost Value = { List ℕ };

    ghost view = { λ ahead. slice_range ahead.buffer.items ahead.from ahead.to };

    ghost invariant = { λ ahead. (ahead.from ≤ ahead.to) × (ahead.to ≤ length ahead.buffer.items) };
}

impl ReadBuffer {
    /// Makes the first `count` bytes of a buffer those that are ahead.
    pub(crate) fn of(whole: WholeBuffer, count: usize) -> ReadBuffer
        requires { count ≤ 65584 }
        ensures bytes { result ≡ take count whole.bytes.items }
        ensures count { length result ≡ count }
    {
        ReadBuffer {
            buffer: whole.bytes,
            from: 0,
            to: count,
        }
    }

    /// Makes a buffer of their own length for bytes that are ahead.
    pub(crate) fn copied(alloc: Global, bytes: &[u8]) -> Result<ReadBuffer, AllocError>
        ensures { IfOk result (λ ahead. ahead ≡ bytes.now) }
    {
        Ok(ReadBuffer {
            buffer: Vec::from_slice(alloc, bytes)?,
            from: 0,
            to: bytes.len(),
        })
    }

    /// Puts bytes that are ahead, if there are any, into an empty buffer that has the room.
    pub(crate) fn filled(mut few: Vec<u8>, bytes: &[u8]) -> Option<ReadBuffer>
        requires empty { few.items ≡ [] }
        requires room { length bytes.now ≤ vec_capacity few }
        ensures { bytes_in result ≡ bytes.now }
    {
        if bytes.is_empty() {
            return None;
        }
        match few.extend_from_slice(bytes) {
            Ok(()) => Some(ReadBuffer {
                buffer: few,
                from: 0,
                to: bytes.len(),
            }),
            Err(AllocError) => None,
        }
    }

    /// Returns the buffer for a later read, if it is a whole one.
    pub(crate) fn into_whole(self) -> Option<WholeBuffer> {
        if self.buffer.len() != MOST_AHEAD {
            return None;
        }
        Some(WholeBuffer { bytes: self.buffer })
    }

    /// Returns the bytes.
    pub fn as_slice(&self) -> &[u8]
        ensures { result.now ≡ self.now }
    {
        &self.buffer.as_slice()[self.from..self.to]
    }

    /// Returns how many bytes there are.
    pub fn len(&self) -> usize
        ensures { result ≡ length self.now }
    {
        self.to - self.from
    }

    /// Hands on as many bytes as the buffer of the reader has room for.
    pub(crate) fn hand(&mut self, buffer: &mut [u8]) -> usize
        ensures count { result ≡ min (length self.old) (length buffer.old) }
        ensures piece { take result buffer.new ≡ take result self.old }
        ensures rest { self.new ≡ drop result self.old }
    {
        let count = (self.to - self.from).min(buffer.len());
        let end = self.from + count;
        buffer[..count].copy_from_slice(&self.buffer.as_slice()[self.from..end]);
        self.from = end;
        count
    }
}

/// Hands on what is ahead, if anything is.
pub(crate) fn hand_from(place: &mut Option<ReadBuffer>, buffer: &mut [u8]) -> usize
    ensures count { result ≡ min (length (bytes_in place.old)) (length buffer.old) }
    ensures piece { take result buffer.new ≡ take result (bytes_in place.old) }
    ensures rest { bytes_in place.new ≡ drop result (bytes_in place.old) }
{
    match place {
        Some(ahead) => ahead.hand(buffer),
        None => 0,
    }
}

/// Returns whether the bytes that are ahead are lent to a reader with this room: it has room for all, and they are too many to be
/// copied.
fn is_lent(place: &Option<ReadBuffer>, room: usize) -> bool
    ensures { result ≡ true → (0 < length (bytes_in place.now)) × (length (bytes_in place.now) ≤ room) }
{
    let count = count_ahead(place);
    FEW < count && count <= room
}

/// Takes out what is ahead, if it is to be lent to a reader with this room.
pub(crate) fn take_lent(place: &mut Option<ReadBuffer>, room: usize) -> Option<ReadBuffer>
    ensures all { IfSome result (λ lent. lent ≡ bytes_in place.old) }
    ensures some { IfSome result (λ lent. 0 < length lent) }
    ensures count { IfSome result (λ lent. length lent ≤ room) }
    ensures rest { IfSome result (λ lent. bytes_in place.new ≡ []) }
    ensures none { result ≡ None → place.new ≡ place.old }
{
    if !is_lent(place, room) {
        return None;
    }
    place.take()
}

/// Returns what is ahead.
pub(crate) fn slice_ahead(place: &Option<ReadBuffer>) -> &[u8]
    ensures { result.now ≡ bytes_in place.now }
{
    match place {
        Some(ahead) => ahead.as_slice(),
        None => &[],
    }
}

/// Returns how many bytes are ahead.
pub(crate) fn count_ahead(place: &Option<ReadBuffer>) -> usize
    ensures { result ≡ length (bytes_in place.now) }
{
    match place {
        Some(ahead) => ahead.len(),
        None => 0,
    }
}
