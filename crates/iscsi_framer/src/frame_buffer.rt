//! A buffer with the bytes of a PDU, and after them room that a reader may fill.

ghost use Rattle.std.specs.Prelude.{◌≡◌, ◌+◌, ◌^◌, ◌<◌, ◌≤◌, [], ◌++◌, length, take, drop, replicate, IfErr, IfSome, IfNone, OnOk, OnErr};

use data_parts::SpareBuffers;
use iscsi_pdu::{HEADER_LENGTH, PduFault};
use std::alloc::Global;
use std::marker::Model;
use std::mem;

/// Bytes at the front of a buffer. What stands after them was left there, and is overwritten. Clauses see the bytes.
#[derive(Drop)]
pub(crate) struct FrameBuffer {
    buffer: Vec<u8>,
    /// The number of bytes.
    len: usize,
}

impl Model for FrameBuffer {
    ghost use Rattle.std.specs.Prelude.{◌≤◌, ℕ, List, length, take};

    ghost Value = { List ℕ };

    ghost view = { λ b. take b.len b.buffer.items };

    ghost invariant = { λ b. b.len ≤ length b.buffer.items };
}

/// The buffer of a PDU of which a part has come, lent to a reader, who overwrites what stands there from `from` on. What it
/// puts between `from` and `to` belongs to the PDU.
#[derive(Drop)]
pub struct FrameRoom {
    /// The bytes after the header of the PDU that have come, and what was left in the buffer after them.
    pub buffer: Vec<u8>,
    /// The number of bytes that have come.
    pub from: usize,
    /// Where the room ends.
    pub to: usize,
}

/// Moves all bytes after the first `count` to the front.
pub(crate) fn cut_front(bytes: &mut Vec<u8>, count: usize)
    requires { count ≤ length bytes.old.items }
    ensures { bytes.new.items ≡ drop count bytes.old.items }
{
    if count == 0 {
        return;
    }
    let end = bytes.len();
    bytes.as_mut_slice().copy_within(count..end, 0);
    bytes.truncate(end - count);
}

/// Appends `count` zeros.
pub(crate) fn put_zeros(bytes: &mut Vec<u8>, count: usize) -> Result<(), PduFault>
    requires { count < 2 ^ 32 }
    ensures ok { OnOk result (bytes.new.items ≡ bytes.old.items ++ replicate count 0) }
    ensures memory { IfErr result (λ fault. fault ≡ PduFault.Memory) }
    ensures err { OnErr result (bytes.new.items ≡ bytes.old.items) }
{
    let length = bytes.len() + count;
    bytes.resize(length, 0)?;
    Ok(())
}

impl FrameBuffer {
    /// Returns an empty buffer. Allocates nothing.
    pub(crate) fn new(alloc: Global) -> FrameBuffer
        ensures { result ≡ [] }
    {
        FrameBuffer {
            buffer: Vec::new(alloc),
            len: 0,
        }
    }

    /// Returns the number of bytes.
    pub(crate) fn len(&self) -> usize
        ensures value { result ≡ length self.now }
        ensures bound { result < 2 ^ 63 }
    {
        self.len
    }

    /// Returns the bytes.
    pub(crate) fn as_slice(&self) -> &[u8]
        ensures { result.now ≡ self.now }
    {
        &self.buffer.as_slice()[..self.len]
    }

    /// Removes the first `taken` bytes and appends `zeros` zeros.
    #[inline(always)]
    pub(crate) fn pack(&mut self, taken: usize, zeros: usize) -> Result<(), PduFault>
        requires within { taken ≤ length self.old }
        requires few { zeros < 2 ^ 32 }
        ensures ok { OnOk result (self.new ≡ drop taken self.old ++ replicate zeros 0) }
        ensures memory { IfErr result (λ fault. fault ≡ PduFault.Memory) }
        ensures err { OnErr result (self.new ≡ self.old) }
    {
        if taken == 0 && zeros == 0 {
            return Ok(());
        }
        self.buffer.truncate(self.len);
        put_zeros(&mut self.buffer, zeros)?;
        cut_front(&mut self.buffer, taken);
        self.len = self.buffer.len();
        Ok(())
    }

    /// Takes a spare buffer with room for `room` bytes in place of an empty one that has less.
    #[inline(always)]
    pub(crate) fn prepare(&mut self, room: usize, spares: &mut SpareBuffers) -> Result<(), PduFault>
        ensures same { self.new ≡ self.old }
        ensures memory { IfErr result (λ fault. fault ≡ PduFault.Memory) }
    {
        if self.len > 0 || self.buffer.capacity() >= room {
            return Ok(());
        }
        match spares.take_used(room) {
            Some(used) => self.buffer = used,
            None => self.buffer = spares.take(room)?,
        }
        Ok(())
    }

    /// Appends a piece, with room for `room` bytes if that is more.
    #[inline(always)]
    pub(crate) fn append(&mut self, piece: &[u8], room: usize) -> Result<(), PduFault>
        ensures ok { OnOk result (self.new ≡ self.old ++ piece.now) }
        ensures memory { IfErr result (λ fault. fault ≡ PduFault.Memory) }
        ensures err { OnErr result (self.new ≡ self.old) }
    {
        let left = self.buffer.len() - self.len;
        if piece.len() <= left {
            let end = self.len + piece.len();
            self.buffer.as_mut_slice()[self.len..end].copy_from_slice(piece);
            self.len = end;
            return Ok(());
        }
        if left > 0 {
            self.buffer.truncate(self.len);
        }
        self.buffer.reserve(room.max(piece.len()))?;
        self.buffer.extend_from_slice(piece)?;
        self.len = self.buffer.len();
        Ok(())
    }

    /// Returns the bytes, in their buffer.
    pub(crate) fn into_bytes(self) -> Vec<u8>
        ensures { result.items ≡ self }
    {
        let mut bytes = self.buffer;
        bytes.truncate(self.len);
        bytes
    }

    /// Makes the bytes after those that are there `count` at least, if few are missing: to clear many takes as long as to
    /// copy them.
    fn extend(&mut self, count: usize)
        requires { count < 2 ^ 32 }
        ensures { self.new ≡ self.old }
    {
        let left = self.buffer.len() - self.len;
        if left < count && count - left <= count / 8 {
            // If an allocation fails, the room is as it was.
            let _ = self.buffer.resize(self.len + count, 0);
        }
    }

    /// Lends the buffer to a reader who is to fill `room` bytes after those that are there. Returns `None` if it is too
    /// short. There may be place for a header more.
    pub(crate) fn lend(&mut self, alloc: Global, room: usize) -> Option<FrameRoom>
        requires { room < 2 ^ 31 }
        ensures bytes { IfSome result (λ lent. take lent.from lent.buffer.items ≡ self.old) }
        ensures room { IfSome result (λ lent. lent.to ≡ lent.from + room) }
        ensures within { IfSome result (λ lent. lent.to ≤ length lent.buffer.items) }
        ensures rest { IfSome result (λ _. self.new ≡ []) }
        ensures none { IfNone result (self.new ≡ self.old) }
    {
        self.extend(room + HEADER_LENGTH);
        if room > self.buffer.len() - self.len {
            return None;
        }
        let from = self.len;
        self.len = 0;
        Some(FrameRoom {
            buffer: mem::replace(&mut self.buffer, Vec::new(alloc)),
            from,
            to: from + room,
        })
    }

    /// Takes back a buffer of which a reader has filled `count` bytes.
    pub(crate) fn filled(lent: FrameRoom, count: usize) -> FrameBuffer
        requires { lent.from + count ≤ length lent.buffer.items }
        ensures { result ≡ take (lent.from + count) lent.buffer.items }
    {
        FrameBuffer {
            len: lent.from + count,
            buffer: lent.buffer,
        }
    }
}
