//! Bytes that are appended at the end and taken from the front.

ghost use Rattle.std.specs.Prelude.{◌≡◌, ◌+◌, ◌-◌, ◌^◌, ◌<◌, ◌≤◌, [], ◌++◌, true, false, length, take, drop, replicate, IfOk, IfErr, IfSome, IfNone, OnOk, OnErr};

use crate::frame_buffer::{FrameBuffer, FrameRoom, put_zeros};
use data_parts::SpareBuffers;
use iscsi_pdu::{MOST_DATA, PduFault};
use std::alloc::Global;
use std::marker::Model;
use std::mem;

/// A queue of bytes. If all are taken at once, their buffer is moved and no byte is copied. Zeros at its end may be
/// counted in place of being kept.
#[derive(Drop)]
pub(crate) struct ByteQueue {
    bytes: FrameBuffer,
    /// The number of bytes at the front that were taken.
    taken: usize,
    /// The number of zeros after the bytes.
    zeros: usize,
    alloc: Global,
}

impl Model for ByteQueue {
    ghost use Rattle.std.specs.Prelude.{◌≤◌, ◌<◌, ◌^◌, ◌++◌, ℕ, List, length, drop, replicate};

    ghost Value = { List ℕ };

    ghost view = { λ q. drop q.taken q.bytes ++ replicate q.zeros 0 };

    ghost invariant = { λ q. (q.taken ≤ length q.bytes) × (q.zeros < 2 ^ 32) };
}

impl ByteQueue {
    /// Returns an empty queue. Allocates nothing.
    pub(crate) fn new(alloc: Global) -> ByteQueue
        ensures { result ≡ [] }
    {
        ByteQueue {
            bytes: FrameBuffer::new(alloc),
            taken: 0,
            zeros: 0,
            alloc,
        }
    }

    /// Returns an empty set of spare buffers. Allocates nothing.
    pub(crate) fn no_spares(&self) -> SpareBuffers {
        SpareBuffers::new(self.alloc)
    }

    /// Returns the number of bytes.
    pub(crate) fn len(&self) -> usize
        ensures value { result ≡ length self.now }
        ensures bound { result < 2 ^ 63 + 2 ^ 32 }
    {
        self.bytes.len() - self.taken + self.zeros
    }

    /// Returns the bytes that are kept. All after them are zeros.
    pub(crate) fn kept(&self) -> &[u8]
        ensures zeros { self.now ≡ result.now ++ replicate (length self.now - length result.now) 0 }
        ensures within { length result.now ≤ length self.now }
        ensures few { length self.now - length result.now < 2 ^ 32 }
    {
        &self.bytes.as_slice()[self.taken..]
    }

    /// Returns all bytes, or `None` if zeros are counted after them.
    pub(crate) fn all_kept(&self) -> Option<&[u8]>
        ensures { IfSome result (λ bytes. bytes.now ≡ self.now) }
    {
        if self.zeros > 0 {
            return None;
        }
        Some(&self.bytes.as_slice()[self.taken..])
    }

    /// Appends a piece. Makes room for `room` bytes if that is more than the piece; uses a spare buffer if the queue
    /// is empty.
    pub(crate) fn append(
        &mut self,
        piece: &[u8],
        room: usize,
        spares: &mut SpareBuffers,
    ) -> Result<(), PduFault>
        ensures ok { OnOk result (self.new ≡ self.old ++ piece.now) }
        ensures memory { IfErr result (λ fault. fault ≡ PduFault.Memory) }
        ensures err { OnErr result (self.new ≡ self.old) }
    {
        self.bytes.pack(self.taken, self.zeros)?;
        self.taken = 0;
        self.zeros = 0;
        self.bytes.prepare(room.max(piece.len()), spares)?;
        self.bytes.append(piece, room)
    }

    /// Appends a piece to bytes that are there, in their buffer, with room for `room` bytes if that is more. Returns whether
    /// it did: if not, nothing is changed.
    #[inline(always)]
    pub(crate) fn append_more(&mut self, piece: &[u8], room: usize) -> bool
        ensures kept { result ≡ true → self.new ≡ self.old ++ piece.now }
        ensures other { result ≡ false → self.new ≡ self.old }
    {
        if self.bytes.len() == 0 || self.taken > 0 || self.zeros > 0 {
            return false;
        }
        match self.bytes.append(piece, room) {
            Ok(()) => true,
            Err(_) => false,
        }
    }

    /// Appends the last piece and takes all bytes, in their buffer.
    #[inline(always)]
    pub(crate) fn complete(&mut self, piece: &[u8]) -> Result<Vec<u8>, PduFault>
        ensures bytes { IfOk result (λ bytes. bytes.items ≡ self.old ++ piece.now) }
        ensures none { OnOk result (self.new ≡ []) }
        ensures memory { IfErr result (λ fault. fault ≡ PduFault.Memory) }
        ensures err { OnErr result (self.new ≡ self.old) }
    {
        // Most PDUs have no data.
        if piece.is_empty() && self.bytes.len() == 0 && self.zeros == 0 {
            return Ok(Vec::new(self.alloc));
        }
        self.bytes.pack(self.taken, self.zeros)?;
        self.taken = 0;
        self.zeros = 0;
        self.bytes.append(piece, piece.len())?;
        let bytes = mem::replace(&mut self.bytes, FrameBuffer::new(self.alloc));
        Ok(bytes.into_bytes())
    }

    /// Returns a copy of `count` bytes, starting at `from`.
    pub(crate) fn copied(&self, from: usize, count: usize) -> Result<Vec<u8>, PduFault>
        requires { from + count ≤ length self.now }
        ensures value { IfOk result (λ bytes. bytes.items ≡ take count (drop from self.now)) }
        ensures memory { IfErr result (λ fault. fault ≡ PduFault.Memory) }
    {
        let kept = self.kept();
        let start = from.min(kept.len());
        let some = count.min(kept.len() - start);
        let mut bytes = Vec::from_slice(self.alloc, &kept[start..][..some])?;
        put_zeros(&mut bytes, count - some)?;
        Ok(bytes)
    }

    /// Returns a copy of all bytes, after those of a header.
    pub(crate) fn copied_after(&self, header: &[u8]) -> Result<Vec<u8>, PduFault>
        ensures value { IfOk result (λ bytes. bytes.items ≡ header.now ++ self.now) }
        ensures memory { IfErr result (λ fault. fault ≡ PduFault.Memory) }
    {
        let kept = self.kept();
        let mut bytes = Vec::from_slice(self.alloc, header)?;
        bytes.extend_from_slice(kept)?;
        put_zeros(&mut bytes, self.len() - kept.len())?;
        Ok(bytes)
    }

    /// Removes `n` bytes from the front.
    pub(crate) fn skip(&mut self, n: usize)
        requires { n ≤ length self.old }
        ensures { self.new ≡ drop n self.old }
    {
        let kept = self.bytes.len() - self.taken;
        if n < kept {
            self.taken += n;
            return;
        }
        self.bytes = FrameBuffer::new(self.alloc);
        self.taken = 0;
        self.zeros -= n - kept;
    }

    /// Replaces all bytes by zeros, which are only counted, and appends `n` zeros.
    pub(crate) fn forget(&mut self, n: usize)
        requires { length self.old + n < 2 ^ 32 }
        ensures { self.new ≡ replicate (length self.old + n) 0 }
    {
        self.zeros = self.len() + n;
        self.bytes = FrameBuffer::new(self.alloc);
        self.taken = 0;
    }

    /// Removes all bytes.
    pub(crate) fn clear(&mut self)
        ensures { self.new ≡ [] }
    {
        self.bytes = FrameBuffer::new(self.alloc);
        self.taken = 0;
        self.zeros = 0;
    }

    /// Lends the buffer to a reader who is to fill `room` bytes after those that are there, if it has the room.
    pub(crate) fn lend(&mut self, room: usize) -> Option<FrameRoom>
        ensures bytes { IfSome result (λ lent. take lent.from lent.buffer.items ≡ self.old) }
        ensures room { IfSome result (λ lent. lent.to ≡ lent.from + room) }
        ensures within { IfSome result (λ lent. lent.to ≤ length lent.buffer.items) }
        ensures rest { IfSome result (λ _. self.new ≡ []) }
        ensures none { IfNone result (self.new ≡ self.old) }
    {
        if self.taken > 0 || self.zeros > 0 || room > MOST_DATA {
            return None;
        }
        self.bytes.lend(self.alloc, room)
    }

    /// Takes a spare buffer with room for `room` bytes if there are no bytes.
    #[inline(always)]
    pub(crate) fn prepare(&mut self, room: usize, spares: &mut SpareBuffers) -> bool
        ensures { self.new ≡ self.old }
    {
        self.bytes.prepare(room, spares).is_ok()
    }

    /// Takes back a buffer of which a reader has filled `count` bytes. Any other bytes are removed.
    pub(crate) fn take_back(&mut self, lent: FrameRoom, count: usize)
        requires { lent.from + count ≤ length lent.buffer.items }
        ensures { self.new ≡ take (lent.from + count) lent.buffer.items }
    {
        self.bytes = FrameBuffer::filled(lent, count);
        self.taken = 0;
        self.zeros = 0;
    }
}
