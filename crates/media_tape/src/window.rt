//! Bytes of a store that were read ahead, so that one call reads the lengths of many small items.

ghost use Rattle.std.specs.Prelude.{◌≡◌, ℕ, ◌+◌, ◌≤◌, List, length, slice_range, IsTrue, IsOk, IfOk, OnOk};
ghost use Rattle.byteorder.specs.Endian.{big_number};
ghost use Rattle.media_store.specs.Failures.{counted};
ghost use Rattle.media_store.specs.Reading.{IsOnlyRead};
ghost use Rattle.media_tape.specs.Window.{IsWindow, Holds, Shows};

use crate::read::read_behind;
use byteorder::{BigEndian, ByteOrder};
use bytes::BytesMut;
use media_store::{Store, StoreFault};
use std::alloc::{AllocError, Global};

/// The most bytes that are read at once.
const ROOM: usize = 65_536;

/// Bytes of a store from an offset on.
#[derive(Drop)]
pub(crate) struct Window {
    bytes: BytesMut,
    offset: u64,
}

impl Window {
    /// Returns a window of no bytes, with room for `ROOM` bytes.
    pub fn new(alloc: Global) -> Result<Window, AllocError>
        ensures window { IfOk result (λ window. IsWindow window) }
        ensures shows { IfOk result (λ window. (content : List ℕ) → Shows content window) }
    {
        let bytes = BytesMut::with_capacity(alloc, ROOM)?;
        Ok(Window { bytes, offset: 0 })
    }

    /// Returns whether the four bytes at a place are in it.
    fn has(&self, at: u64) -> bool
        ensures { IsTrue result → Holds at self.now }
    {
        let held = self.bytes.len();
        held >= 4 && self.offset <= at && at - self.offset <= held as u64 - 4
    }

    /// Brings the four bytes at a place into the window. If they are not there, it reads up to `ahead` bytes from there
    /// on. It reads no byte at or past the end, and none without room.
    pub fn hold<S: Store>(
        &mut self,
        store: &mut S,
        at: u64,
        end: u64,
        ahead: u64,
    ) -> Result<(), StoreFault>
        requires window { IsWindow self.old }
        requires within { at + 4 ≤ end }
        requires ahead { 4 ≤ ahead }
        ensures holds { OnOk result (Holds at self.new) }
        ensures window { IsWindow self.new }
        ensures shows { OnOk result (IsTrue (S.Store.honest store.new) → Shows (S.Store.content store.old) self.old
            → end ≤ length (S.Store.content store.old) → Shows (S.Store.content store.old) self.new) }
        ensures kept { IsOnlyRead S.Store store.old store.new }
        ensures failures { S.Store.failures store.new ≡ counted result (S.Store.failures store.old) }
        ensures succeeds { IsTrue (S.Store.steady store.old) → end ≤ length (S.Store.content store.old)
            → IsOk result × (S.Store.honest store.new ≡ S.Store.honest store.old) }
    {
        if self.has(at) {
            return Ok(());
        }
        let count = (end - at).min(ahead).min(self.bytes.capacity() as u64);
        self.bytes.clear();
        self.offset = at;
        read_behind(store, at, count as usize, &mut self.bytes)
    }

    /// Returns the number in the four bytes at a place, most significant byte first.
    pub fn number(&self, at: u64) -> u32
        requires window { IsWindow self.now }
        requires holds { Holds at self.now }
        ensures { (content : List ℕ) → Shows content self.now → result ≡ big_number 4 (slice_range content at (at + 4)) }
    {
        let place = (at - self.offset) as usize;
        BigEndian::read_u32(&self.bytes.as_slice()[place..place + 4])
    }
}
