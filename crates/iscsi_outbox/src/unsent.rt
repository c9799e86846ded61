//! What is left to send of a command's data.

ghost use Rattle.std.specs.Prelude.{◌≡◌, ◌<◌, ◌≤◌, ◌++◌, [], length, take, drop, OnOk};
ghost use Rattle.iscsi_outbox.specs.Offered.{EndsPdu};

use crate::cursor::Cursor;
use bytes::BytesMut;
use std::alloc::AllocError;
use std::marker::Model;

/// What is left to send of the answer to a command that returned data. Clauses see its bytes.
#[derive(Drop)]
pub(crate) struct Unsent {
    pub cursor: Cursor,
    pub rest: usize,
}

impl Model for Unsent {
    ghost use Rattle.std.specs.Prelude.{◌≡◌, List, ℕ, length};
    ghost use Rattle.iscsi_outbox.specs.Cursor.{left, IsReady};

    ghost Value = { List ℕ };

    ghost view = { λ d. left d.cursor };

    ghost invariant = { λ d. IsReady d.cursor × (d.rest ≡ length (left d.cursor)) };
}

impl Unsent {
    /// Returns how many bytes are left to send.
    pub fn rest(&self) -> usize
        ensures { result ≡ length self.now }
    {
        self.rest
    }

    /// Returns the next bytes to send, as many as lie together: the header of a piece and its data, or what is left of
    /// them. With the last piece comes all that ends the answer.
    pub fn front(&self) -> &[u8]
        ensures prefix { result.now ≡ take (length result.now) self.now }
        ensures some { 0 < length self.now → 0 < length result.now }
        ensures ends { EndsPdu self.now result.now }
    {
        self.cursor.front()
    }

    /// Skips at most `n` bytes that were sent, as far as they lay together. Returns how many it skipped. Allocates no
    /// memory.
    pub fn skip_some(&mut self, n: usize) -> usize
        ensures within { result ≤ n }
        ensures there { result ≤ length self.old }
        ensures some { 0 < n → 0 < length self.old → 0 < result }
        ensures rest { self.new ≡ drop result self.old }
    {
        let step = self.cursor.skip_some(n);
        self.rest -= step;
        step
    }

    /// Appends what is left to send.
    pub fn copy_to(&self, bytes: &mut Vec<u8>) -> Result<(), AllocError>
        ensures { OnOk result (bytes.new.items ≡ bytes.old.items ++ self.now) }
    {
        self.cursor.copy_to(bytes)
    }

    /// Returns the buffer, emptied, for reuse.
    pub fn into_buffer(self) -> BytesMut
        ensures { result.items ≡ [] }
    {
        let mut buffer = self.cursor.buffer;
        buffer.clear();
        buffer
    }
}
