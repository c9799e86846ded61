//! A view of a command's data, as it lies in its buffers.

ghost use Rattle.std.specs.Prelude.{◌≡◌, ◌<◌, ◌≤◌, ◌++◌, length, IfOk};
ghost use Rattle.data_parts.specs.Joined.{joined, AreSome};

use std::alloc::AllocError;
use std::marker::Model;

/// A view of a command's data, as it lies: one slice, or several. Clauses see the bytes, joined.
#[derive(Drop)]
pub struct Data<'a> {
    /// None of them is empty.
    buffers: &'a [Vec<u8>],
    /// The bytes after them.
    tail: &'a [u8],
    len: usize,
}

impl<'a> Model for Data<'a> {
    ghost use Rattle.std.specs.Prelude.{◌≡◌, ◌++◌, List, ℕ, length};
    ghost use Rattle.data_parts.specs.Joined.{joined, AreSome};

    ghost Value = { List ℕ };

    ghost view = { λ d. joined d.buffers.now ++ d.tail.now };

    ghost invariant = { λ d. (d.len ≡ length (joined d.buffers.now ++ d.tail.now)) × AreSome d.buffers.now };
}

impl<'a> Data<'a> {
    /// Creates a view of the bytes in `buffers` and of those after them.
    pub(crate) fn new(buffers: &'a [Vec<u8>], tail: &'a [u8], len: usize) -> Data<'a>
        requires all { AreSome buffers.now }
        requires len { len ≡ length (joined buffers.now ++ tail.now) }
        ensures { result ≡ joined buffers.now ++ tail.now }
    {
        Data { buffers, tail, len }
    }

    /// Creates a view of one slice.
    pub fn whole(bytes: &'a [u8]) -> Data<'a>
        ensures { result ≡ bytes.now }
    {
        Data::new(&[], bytes, bytes.len())
    }

    /// Returns how many bytes there are.
    pub fn len(&self) -> usize
        ensures { result ≡ length self.now }
    {
        self.len
    }

    /// Returns the mean length of the slices, in bytes. Only the speed of a use may depend on it.
    pub fn mean_slice(&self) -> usize
        ensures { result ≤ length self.now }
    {
        self.len / (self.buffers.len() + 1)
    }

    /// Returns the first bytes that lie together, and a view of the bytes after them.
    pub fn split_front(&self) -> (&'a [u8], Data<'a>)
        ensures joined { self.now ≡ result.0.now ++ result.1 }
        ensures some { 0 < length self.now → 0 < length result.0.now }
    {
        let Some((buffer, others)) = self.buffers.split_first() else {
            return (self.tail, Data::whole(&[]));
        };
        let front = buffer.as_slice();
        let behind = Data::new(others, self.tail, self.len - front.len());
        (front, behind)
    }

    /// Returns all bytes in one slice: where they lie, if they lie together, or else copied into `room`.
    pub fn joined<'b>(&'b self, room: &'b mut Vec<u8>) -> Result<&'b [u8], AllocError>
        ensures { IfOk result (λ bytes. bytes.now ≡ self.now) }
    {
        let (front, behind) = self.split_front();
        if behind.len == 0 {
            return Ok(front);
        }
        room.clear();
        room.reserve(self.len)?;
        for buffer in self.buffers {
            room.extend_from_slice(buffer.as_slice())?;
        }
        room.extend_from_slice(self.tail)?;
        Ok(room.as_slice())
    }
}
