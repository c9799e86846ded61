//! Buffers for the data that commands return, which are used again.

ghost use Rattle.std.specs.Prelude.{◌≡◌, ◌<◌, ◌≤◌, ◌++◌, ◌∷◌, ◌+◌, [], true, false, length, nat_lt, nat_le, ◌==◌, if◌then◌else◌, vec_len, vec_capacity, IfOk, IfSome, IfNone};
ghost use Rattle.scsi_disk.specs.Buffers.{most_short, rooms, no_places, all_places, emptied, kept_with, Takes, TakesAny, TakesLeast, IsLeast, GivesBack};

use bytes::BytesMut;
use media_block::BLOCK_LENGTH;
use scsi_cdb::MOST_BLOCKS;
use scsi_sense::{HEADROOM, TAILROOM};
use std::alloc::{AllocError, Global};
use std::marker::Model;
use target_limits::Memory;

/// The most room of a short buffer; a connection keeps no more than this for its answers. The buffer of a short READ
/// may become that of the answers. A long one is then given back to the system, to be made and filled anew.
const SHORT: usize = 65_536;

/// The most short buffers that are kept.
const MOST_SHORT: usize = 256;

/// The most long buffers that are kept: as many as there may be room for.
const MOST_LONG: usize = MOST_ROOM / SHORT;

/// The most bytes of room that they have together: that of four of the longest READs, in the shortest pieces.
const MOST_ROOM: usize = 4
    * (HEADROOM * MOST_PIECES + BLOCK_LENGTH * MOST_BLOCKS as usize + TAILROOM);

/// The most pieces in which the longest READ lies, in practice: of 16,384 bytes each.
const MOST_PIECES: usize = 64;

/// Buffers in which commands returned their data, and whose bytes are no longer used, each with its room in bytes.
/// Their bytes never leave the target. Of the long ones, a READ takes the smallest that has its room. So none is made
/// anew if one would do, and a larger one is left for a longer READ. Clauses see the room of each. In what pieces the
/// data of a READ is to lie is said here too, and clauses do not see it.
#[derive(Drop)]
pub struct Buffers {
    short: Vec<(BytesMut, usize)>,
    long: Vec<(BytesMut, usize)>,
    /// The room of all, in bytes.
    room: usize,
    /// More were to be kept than there is room for.
    is_overfull: bool,
    /// The length of the pieces in which the data of a READ is to lie, each after room for a header, in blocks. `None`:
    /// it lies together.
    piece: Option<u32>,
}

impl Model for Buffers {
    ghost use Rattle.std.specs.Prelude.{vec_capacity};
    ghost use Rattle.scsi_disk.specs.Buffers.{Kept, IsWithin, rooms};

    ghost Value = { Kept };

    ghost view = { λ buffers. record {
      short = rooms buffers.short.items;
      long = rooms buffers.long.items;
      short_places = vec_capacity buffers.short;
      long_places = vec_capacity buffers.long;
      is_overfull = buffers.is_overfull;
    } };

    ghost invariant = { λ buffers. IsWithin buffers.room (rooms buffers.short.items) (rooms buffers.long.items) };
}

/// Keeps a buffer if there is a place for it, and returns whether there was.
fn put(kept: &mut Vec<(BytesMut, usize)>, buffer: BytesMut, room: usize) -> bool
    ensures place { result ≡ nat_lt (vec_len kept.old) (vec_capacity kept.old) }
    ensures put { result ≡ true → rooms kept.new.items ≡ rooms kept.old.items ++ room ∷ [] }
    ensures full { result ≡ false → rooms kept.new.items ≡ rooms kept.old.items }
    ensures places { vec_capacity kept.new ≡ vec_capacity kept.old }
{
    if kept.len() == kept.capacity() {
        return false;
    }
    kept.push_reserved((buffer, room));
    true
}

/// Returns whether a buffer with `has` bytes of room suits better than the one found. It does if it has the room
/// wanted, and no more than the other, or if the other has too little.
fn suits_better(has: usize, found: usize, wanted: usize) -> bool
    ensures enough { result ≡ true → wanted ≤ has }
    ensures smaller { result ≡ true → wanted ≤ found → has ≤ found }
    ensures no { result ≡ false → wanted ≤ has → (wanted ≤ found) × (found < has) }
{
    has >= wanted && (has <= found || found < wanted)
}

/// Finds the smallest of these buffers that has this room, the last of several. If none has it, finds the last of all.
fn least(kept: &[(BytesMut, usize)], room: usize) -> usize
    requires { 0 < length kept.now }
    ensures within { result < length kept.now }
    ensures least { IsLeast room (rooms kept.now) result }
{
    let mut found = kept.len() - 1;
    for at in 0..kept.len() {
        if suits_better(kept[at].1, kept[found].1, room) {
            found = at;
        }
    }
    found
}

/// Takes the smallest of these buffers that has this room. If none has it, takes the last, which will grow.
fn take_least(kept: &mut Vec<(BytesMut, usize)>, room: usize) -> Option<(BytesMut, usize)>
    ensures taken { IfSome result (λ taken. TakesLeast room (rooms kept.old.items) taken.1 (rooms kept.new.items)) }
    ensures none { IfNone result ((rooms kept.old.items ≡ []) × (rooms kept.new.items ≡ [])) }
    ensures places { vec_capacity kept.new ≡ vec_capacity kept.old }
{
    if kept.is_empty() {
        return None;
    }
    let at = least(kept.as_slice(), room);
    Some(kept.remove(at))
}

/// Returns whether a short buffer is taken for this room, given the numbers of short and long ones. It is if the room
/// is short and there is a short one, or if there is no long one.
fn is_from_short(room: usize, short: usize, long: usize) -> bool
    ensures { result ≡ (if nat_le room most_short then nat_lt 0 short else long == 0) }
{
    if room <= SHORT { short > 0 } else { long == 0 }
}

impl Buffers {
    /// Returns no buffers and no places for any. It allocates nothing.
    pub fn new(alloc: Global) -> Buffers
        ensures { result ≡ no_places }
    {
        Buffers {
            short: Vec::new(alloc),
            long: Vec::new(alloc),
            room: 0,
            is_overfull: false,
            piece: None,
        }
    }

    /// Returns no buffers, but places for them, so that keeping one allocates nothing.
    pub fn with_places(alloc: Global) -> Result<Buffers, AllocError>
        ensures { IfOk result (λ made. made ≡ all_places) }
    {
        Ok(Buffers {
            short: Vec::with_capacity(alloc, MOST_SHORT)?,
            long: Vec::with_capacity(alloc, MOST_LONG)?,
            room: 0,
            is_overfull: false,
            piece: None,
        })
    }

    /// Sets the length of the pieces in which the data of the next READs is to lie, in blocks. Each piece lies after room
    /// for the header of a PDU. `None` means that the data lies together. Only the speed of the answers depends on it.
    pub fn lay_out(&mut self, piece: Option<u32>)
        ensures { self.new ≡ self.old }
    {
        self.piece = piece;
    }

    /// Returns the length of the pieces in which `count` blocks are to lie, in blocks.
    pub(crate) fn piece_for(&self, count: u32) -> u32
        requires { 0 < count }
        ensures some { 1 ≤ result }
        ensures within { result ≤ count }
    {
        match self.piece {
            Some(blocks) if blocks > 0 && blocks < count => blocks,
            _ => count,
        }
    }

    /// Keeps a buffer with this room among those of its kind, if there are a place and room for it.
    fn keep(&mut self, buffer: BytesMut, room: usize)
        ensures { self.new ≡ kept_with room self.old }
    {
        if room > MOST_ROOM - self.room {
            self.is_overfull = true;
            return;
        }
        let is_kept = if room <= SHORT {
            put(&mut self.short, buffer, room)
        } else {
            put(&mut self.long, buffer, room)
        };
        if is_kept {
            self.room += room;
        }
    }

    /// Takes a buffer for this room: the short one that was kept last, or the smallest long one that has the room.
    fn take(&mut self, room: usize) -> Option<BytesMut>
        ensures taken { IfSome result (λ _. Takes room self.old self.new) }
        ensures none { IfNone result ((self.old.short ≡ []) × (self.old.long ≡ []) × (self.new ≡ self.old)) }
    {
        let (buffer, had) = if is_from_short(room, self.short.len(), self.long.len()) {
            self.short.pop()?
        } else {
            take_least(&mut self.long, room)?
        };
        self.room -= had;
        Some(buffer)
    }

    /// Returns whether more buffers were to be kept than there is room for, since the last [`Buffers::trim`].
    pub fn is_overfull(&self) -> bool
        ensures { result ≡ self.now.is_overfull }
    {
        self.is_overfull
    }

    /// Frees all buffers that are kept. Their places stay.
    pub fn trim(&mut self)
        ensures { self.new ≡ emptied self.old }
    {
        self.short.clear();
        self.long.clear();
        self.room = 0;
        self.is_overfull = false;
    }
}

/// Takes an empty buffer: the kept one that suits this room, or a new one without room. It allocates nothing.
pub fn take_like(alloc: Global, used: &mut Buffers, room: usize) -> BytesMut
    ensures items { result.items ≡ [] }
    ensures taken { TakesAny room used.old used.new }
{
    let mut buffer = match used.take(room) {
        Some(buffer) => buffer,
        None => BytesMut::new(alloc),
    };
    buffer.clear();
    buffer
}

/// Takes an empty buffer with this much room: one that was used before, or a new one. Which one it is does not depend
/// on whether there is memory.
pub(crate) fn take(alloc: Global, used: &mut Buffers, room: usize) -> Result<BytesMut, Memory>
    ensures items { IfOk result (λ buffer. buffer.items ≡ []) }
    ensures spare { IfOk result (λ buffer. room ≤ buffer.spare) }
    ensures taken { TakesAny room used.old used.new }
{
    let mut buffer = take_like(alloc, used, room);
    buffer.reserve(room)?;
    Ok(buffer)
}

/// Keeps a buffer whose bytes are no longer used, if it has room for at least a block. A smaller one would save no READ
/// an allocation.
pub fn give_back(used: &mut Buffers, mut buffer: BytesMut)
    ensures { GivesBack (length buffer.items + buffer.spare) used.old used.new }
{
    buffer.clear();
    let room = buffer.capacity();
    if room >= BLOCK_LENGTH {
        used.keep(buffer, room);
    }
}
