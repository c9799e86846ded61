//! The data of a command, in the buffers in which it came.

ghost use Rattle.std.specs.Prelude.{◌≡◌, ◌<◌, ◌^◌, ◌++◌, [], length, IsOk, IfSome, IfNone, OnOk, OnErr, vec_len};
ghost use Rattle.data_parts.specs.Joined.{joined, AreSome};

use crate::data::Data;
use std::alloc::{AllocError, Global};
use std::marker::Model;
use std::mem;

/// The most bytes that there may be.
const MOST: usize = usize::MAX / 2;

/// The least length in bytes of a piece that is moved in its buffer.
const MOVED: usize = 4_096;

/// The data of a command, in the buffers in which it came. Clauses see the bytes, joined.
#[derive(Drop)]
pub struct Parts {
    /// None of them is empty.
    buffers: Vec<Vec<u8>>,
    /// The bytes after them: the last piece, or the last small ones, joined.
    tail: Vec<u8>,
    /// The last piece was small.
    is_small: bool,
    len: usize,
    alloc: Global,
}

impl Model for Parts {
    ghost use Rattle.std.specs.Prelude.{◌≡◌, ◌<◌, ◌^◌, ◌++◌, List, ℕ, length};
    ghost use Rattle.data_parts.specs.Joined.{joined, AreSome};

    ghost Value = { List ℕ };

    ghost view = { λ p. joined p.buffers.items ++ p.tail.items };

    ghost invariant = { λ p. (p.len ≡ length (joined p.buffers.items ++ p.tail.items)) × (p.len < 2 ^ 63) × AreSome p.buffers.items };
}

/// Appends a piece after the tail, and makes it the tail, in the buffer in which it came.
fn push_after(
    buffers: &mut Vec<Vec<u8>>,
    tail: &mut Vec<u8>,
    bytes: Vec<u8>,
) -> Result<(), AllocError>
    requires some { 0 < length tail.old.items }
    requires all { AreSome buffers.old.items }
    ensures ok { OnOk result (joined buffers.new.items ++ tail.new.items ≡ joined buffers.old.items ++ tail.old.items ++ bytes.items) }
    ensures err { OnErr result (joined buffers.new.items ++ tail.new.items ≡ joined buffers.old.items ++ tail.old.items) }
    ensures all { AreSome buffers.new.items }
{
    buffers.reserve(1)?;
    buffers.push_reserved(mem::replace(tail, bytes));
    Ok(())
}

/// Appends a piece. It is joined to the tail if `joins`, and else lies in its own buffer. The first needs no list of
/// buffers, since it becomes the tail.
fn push_piece(
    buffers: &mut Vec<Vec<u8>>,
    tail: &mut Vec<u8>,
    bytes: Vec<u8>,
    joins: bool,
) -> Result<(), AllocError>
    requires all { AreSome buffers.old.items }
    ensures ok { OnOk result (joined buffers.new.items ++ tail.new.items ≡ joined buffers.old.items ++ tail.old.items ++ bytes.items) }
    ensures err { OnErr result (joined buffers.new.items ++ tail.new.items ≡ joined buffers.old.items ++ tail.old.items) }
    ensures all { AreSome buffers.new.items }
{
    if tail.is_empty() {
        *tail = bytes;
        return Ok(());
    }
    if joins {
        return tail.extend_from_slice(bytes.as_slice());
    }
    push_after(buffers, tail, bytes)
}

impl Parts {
    /// Creates an empty list of parts. Allocates no memory.
    pub fn new(alloc: Global) -> Parts
        ensures { result ≡ [] }
    {
        Parts {
            buffers: Vec::new(alloc),
            tail: Vec::new(alloc),
            is_small: false,
            len: 0,
            alloc,
        }
    }

    /// Returns how many bytes there are.
    pub fn len(&self) -> usize
        ensures value { result ≡ length self.now }
        ensures bound { result < 2 ^ 63 }
    {
        self.len
    }

    /// Appends a piece. If an allocation fails, nothing changes. An empty piece allocates no memory.
    pub fn push(&mut self, bytes: Vec<u8>) -> Result<(), AllocError>
        ensures ok { OnOk result (self.new ≡ self.old ++ bytes.items) }
        ensures err { OnErr result (self.new ≡ self.old) }
        ensures empty { bytes.items ≡ [] → IsOk result }
    {
        let len = bytes.len();
        if len == 0 {
            return Ok(());
        }
        if len > MOST - self.len {
            return Err(AllocError);
        }
        let is_small = len < MOVED;
        push_piece(
            &mut self.buffers,
            &mut self.tail,
            bytes,
            is_small && self.is_small,
        )?;
        self.is_small = is_small;
        self.len += len;
        Ok(())
    }

    /// Returns a view of the data, as it lies.
    pub fn data(&self) -> Data<'_>
        ensures { result ≡ self.now }
    {
        Data::new(self.buffers.as_slice(), self.tail.as_slice(), self.len)
    }

    /// Removes the last bytes, and returns their buffer with them. Returns `None` if there is no data.
    pub fn pop_used(&mut self) -> Option<Vec<u8>>
        ensures last { IfSome result (λ buffer. self.old ≡ self.new ++ buffer.items) }
        ensures shorter { IfSome result (λ _. length self.new < length self.old) }
        ensures none { IfNone result (self.old ≡ []) }
    {
        let buffer = if self.tail.is_empty() {
            self.buffers.pop()?
        } else {
            mem::replace(&mut self.tail, Vec::new(self.alloc))
        };
        self.len -= buffer.len();
        Some(buffer)
    }
}
