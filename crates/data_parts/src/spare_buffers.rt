//! Buffers in which data came, kept for reuse.

ghost use Rattle.std.specs.Prelude.{◌≡◌, ◌<◌, ◌≤◌, ◌*◌, ◌++◌, ◌∷◌, ◌⊎◌, ℕ, [], true, false, nat_lt, is_some, vec_len, vec_capacity, IfOk, IfSome};
ghost use Rattle.data_parts.specs.Spares.{no_spares, capacity_of, most_capacity, AreOfKind, suits, capacity_for, has_kept, without_one, MayKeep};

use std::alloc::{AllocError, Global};
use std::marker::Model;

/// The length of a header, in bytes (RFC 7143 §11.2.1). A reader that fills a buffer with the data of a PDU can read the
/// next header after it.
const HEADER: usize = 48;

/// The capacity of a small buffer, in bytes: for a block of most file systems, and a header.
const SMALL: usize = 4_096 + HEADER;

/// The capacity of a short buffer, in bytes: for as much data as usually comes unsolicited, and a header.
const SHORT: usize = 65_536 + HEADER;

/// The capacity of a long buffer, in bytes: for the most data that one PDU brings, and a header.
const LONG: usize = 262_144 + HEADER;

/// How many small buffers are kept at most: one for each connection, 260 KiB.
const MOST_SMALL: usize = 64;

/// How many short buffers are kept at most: 2 MiB, the immediate data of a window of commands.
const MOST_SHORT: usize = 31;

/// How many long buffers are kept at most: 2 MiB.
const MOST_LONG: usize = 8;

/// Buffers that are no longer used, 4.3 MiB at most, kept so that their memory is not allocated again. A buffer that is
/// taken is empty, or has the bytes that were left in it, so that a reader can overwrite them with no need to clear it.
///
/// A buffer that was allocated at a busy time may lie above much memory that is freed after it, which the C library gives
/// back to the system only from its end. So [`SpareBuffers::trim`] frees all of them, to be called after such a time.
#[derive(Drop)]
pub struct SpareBuffers {
    small: Vec<Vec<u8>>,
    short: Vec<Vec<u8>>,
    long: Vec<Vec<u8>>,
    /// More were to be kept than there is place for.
    is_overfull: bool,
    alloc: Global,
}

impl Model for SpareBuffers {
    ghost use Rattle.std.specs.Prelude.{length};
    ghost use Rattle.data_parts.specs.Spares.{Spares, AreOfKind, small_capacity, short_capacity, long_capacity, most_smalls, most_shorts, most_longs};

    ghost Value = { Spares };

    ghost view = { λ kept. record {
      smalls = length kept.small.items;
      shorts = length kept.short.items;
      longs = length kept.long.items;
      is_overfull = kept.is_overfull;
    } };

    ghost invariant = { λ kept. AreOfKind small_capacity most_smalls kept.small.items × AreOfKind short_capacity most_shorts kept.short.items
        × AreOfKind long_capacity most_longs kept.long.items };
}

/// Returns whether a buffer of this capacity is taken for `room` bytes: it has the room, and less than twice as much.
fn suits(capacity: usize, room: usize) -> bool
    ensures { result ≡ suits capacity room }
{
    room > capacity / 2 && room <= capacity
}

/// Returns the capacity of the buffer that is taken for `room` bytes.
fn capacity_for(room: usize) -> usize
    ensures capacity { result ≡ capacity_for room }
    ensures enough { room ≤ result }
    ensures less { 0 < room → result < 2 * room }
{
    if suits(SMALL, room) {
        return SMALL;
    }
    if suits(SHORT, room) {
        return SHORT;
    }
    if suits(LONG, room) {
        return LONG;
    }
    room
}

/// Keeps a buffer if fewer than `most` are kept, and frees it otherwise, or if an allocation fails. Returns whether there
/// was a place for it.
fn put(kept: &mut Vec<Vec<u8>>, most: usize, buffer: Vec<u8>) -> bool
    ensures place { result ≡ nat_lt (vec_len kept.old) most }
    ensures kept { result ≡ true → (kept.new.items ≡ kept.old.items ++ buffer ∷ []) ⊎ (kept.new.items ≡ kept.old.items) }
    ensures full { result ≡ false → kept.new.items ≡ kept.old.items }
    ensures kind { (capacity : ℕ) → AreOfKind capacity most kept.old.items → vec_capacity buffer ≡ capacity
        → AreOfKind capacity most kept.new.items }
{
    if kept.len() >= most {
        return false;
    }
    let _ = kept.push(buffer);
    true
}

impl SpareBuffers {
    /// Creates an empty stock of buffers. Allocates no memory.
    pub fn new(alloc: Global) -> SpareBuffers
        ensures { result ≡ no_spares }
    {
        SpareBuffers {
            small: Vec::new(alloc),
            short: Vec::new(alloc),
            long: Vec::new(alloc),
            is_overfull: false,
            alloc,
        }
    }

    /// Returns an empty buffer with room for `room` bytes, and for less than twice as many.
    pub fn take(&mut self, room: usize) -> Result<Vec<u8>, AllocError>
        ensures empty { IfOk result (λ buffer. buffer.items ≡ []) }
        ensures room { IfOk result (λ buffer. vec_capacity buffer ≡ capacity_for room) }
        ensures taken { self.new ≡ without_one (capacity_for room) self.old }
    {
        let Some(mut used) = self.take_used(room) else {
            return Vec::with_capacity(self.alloc, capacity_for(room));
        };
        used.clear();
        Ok(used)
    }

    /// Returns a buffer that was kept, with room for `room` bytes, and for less than twice as many. In it stands what was
    /// left there, to be overwritten. Returns `None` if no such buffer is kept.
    pub fn take_used(&mut self, room: usize) -> Option<Vec<u8>>
        ensures some { is_some result ≡ has_kept (capacity_for room) self.old }
        ensures room { IfSome result (λ buffer. vec_capacity buffer ≡ capacity_for room) }
        ensures taken { self.new ≡ without_one (capacity_for room) self.old }
    {
        match capacity_for(room) {
            SMALL => self.small.pop(),
            SHORT => self.short.pop(),
            LONG => self.long.pop(),
            _ => None,
        }
    }

    /// Keeps a buffer that [`SpareBuffers::take`] returned, with what is in it, if few like it are kept.
    pub fn keep(&mut self, buffer: Vec<u8>)
        ensures kept { MayKeep (vec_capacity buffer) self.old self.new }
        ensures few { capacity_of self.new ≤ most_capacity }
    {
        let is_placed = match buffer.capacity() {
            SMALL => put(&mut self.small, MOST_SMALL, buffer),
            SHORT => put(&mut self.short, MOST_SHORT, buffer),
            LONG => put(&mut self.long, MOST_LONG, buffer),
            _ => true,
        };
        if !is_placed {
            self.is_overfull = true;
        }
    }

    /// Returns whether more buffers were to be kept than there is place for, since the last [`SpareBuffers::trim`].
    pub fn is_overfull(&self) -> bool
        ensures { result ≡ self.now.is_overfull }
    {
        self.is_overfull
    }

    /// Frees all buffers that are kept.
    pub fn trim(&mut self)
        ensures { self.new ≡ no_spares }
    {
        self.small = Vec::new(self.alloc);
        self.short = Vec::new(self.alloc);
        self.long = Vec::new(self.alloc);
        self.is_overfull = false;
    }
}
