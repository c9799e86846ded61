//! Items written to a store from a place on, with nothing after them.

ghost use Rattle.std.specs.Prelude.{◌≡◌, ◌+◌, ◌*◌, ◌≤◌, ◌<◌, ◌^◌, ◌++◌, true, false, length, take, IsTrue, IsOk, IfOk, OnOk, OnErr};
ghost use Rattle.media_store.specs.Failures.{counted};
ghost use Rattle.media_tape.specs.Items.{most_bytes, spelling};
ghost use Rattle.media_tape.specs.Fixed.{blocks_of};
ghost use Rattle.media_tape.specs.Writing.{KeepsBefore, StandsBetween, bytes_of, count_of, each_size, is_synced};

use crate::item::LENGTHS;
use crate::zeros::write_zeros;
use byteorder::{BigEndian, ByteOrder};
use media_store::{Store, StoreFault};
use std::alloc::{AllocError, Global};
use tape_index::MARK_SIZE;

/// Logical objects (SSC-4) of one size that are written at once.
#[derive(Drop)]
pub(crate) enum Objects {
    /// `count` records as they stand in a store, each of this size.
    Records {
        spelled: Vec<u8>,
        count: u32,
        size: u32,
    },
    /// This many filemarks.
    Filemarks(u32),
}

impl Objects {
    /// Returns the number of bytes that they take.
    pub fn size(&self) -> u64
        ensures { result ≡ length (bytes_of self.now) }
    {
        match self {
            Objects::Records { spelled, .. } => spelled.len() as u64,
            Objects::Filemarks(count) => LENGTHS * u64::from(*count),
        }
    }

    /// Returns the number of bytes that each of them takes.
    pub fn each_size(&self) -> u32
        ensures { result ≡ each_size self.now }
    {
        match self {
            Objects::Records { size, .. } => *size,
            Objects::Filemarks(_) => MARK_SIZE,
        }
    }

    /// Returns the number of objects.
    pub fn many(&self) -> u64
        ensures { result ≡ count_of self.now }
    {
        match self {
            Objects::Records { count, .. } | Objects::Filemarks(count) => u64::from(*count),
        }
    }
}

/// Spells out `count` records of one length as they stand in a store: each with its length before it, and again after
/// it.
pub(crate) fn spelled(
    alloc: Global,
    bytes: &[u8],
    count: u32,
    block_length: u32,
) -> Result<Vec<u8>, AllocError>
    requires few { count ≤ most_bytes }
    requires short { block_length ≤ most_bytes }
    requires enough { count * block_length ≤ length bytes.now }
    ensures { IfOk result (λ items. items.items ≡ spelling (blocks_of count block_length bytes.now)) }
{
    let (many, long) = (count as usize, block_length as usize);
    let mut around = [0; 4];
    BigEndian::write_u32(&mut around, block_length);
    let mut items = Vec::with_capacity(alloc, many * (long + 8))?;
    for i in 0..many {
        items.extend_from_slice(&around)?;
        items.extend_from_slice(&bytes[i * long..i * long + long])?;
        items.extend_from_slice(&around)?;
    }
    Ok(items)
}

/// Cuts a store at a place, unless it ends there.
pub(crate) fn cut_at<S: Store>(store: &mut S, place: u64, is_longer: bool) -> Result<(), StoreFault>
    ensures cut { OnOk result (place ≤ length (S.Store.content store.old)
        → (is_longer ≡ false → length (S.Store.content store.old) ≡ place)
        → S.Store.content store.new ≡ take place (S.Store.content store.old)) }
    ensures keeps { KeepsBefore place (S.Store.content store.old) (S.Store.content store.new) }
    ensures undone { OnErr result (IsTrue (S.Store.atomic store.old) → S.Store.content store.new ≡ S.Store.content store.old) }
    ensures honest { S.Store.honest store.new ≡ S.Store.honest store.old }
    ensures synced { is_longer ≡ true → S.Store.synced store.new ≡ false }
    ensures unsynced { OnErr result (S.Store.synced store.new ≡ false) }
    ensures failures { S.Store.failures store.new ≡ counted result (S.Store.failures store.old) }
    ensures steady { S.Store.steady store.new ≡ S.Store.steady store.old }
    ensures reach { S.Store.reach store.new ≡ S.Store.reach store.old }
    ensures atomic { S.Store.atomic store.new ≡ S.Store.atomic store.old }
    ensures within { IsTrue (S.Store.steady store.old) → place ≤ length (S.Store.content store.old) → IsOk result }
    ensures succeeds { IsTrue (S.Store.steady store.old) → place ≤ S.Store.reach store.old → IsOk result }
{
    if is_longer {
        return store.set_len(place);
    }
    Ok(())
}

/// Writes objects from a place on. Records take one call; after filemarks it waits until everything is on the medium.
/// If something stands there, it is cut off first, so that the store has whole items whenever the program ends.
pub(crate) fn write_objects<S: Store>(
    store: &mut S,
    place: u64,
    is_longer: bool,
    objects: &Objects,
) -> Result<(), StoreFault>
    requires within { place + length (bytes_of objects.now) < 2 ^ 64 }
    requires some { 0 < count_of objects.now }
    ensures written { OnOk result (place ≤ length (S.Store.content store.old)
        → (is_longer ≡ false → length (S.Store.content store.old) ≡ place)
        → S.Store.content store.new ≡ take place (S.Store.content store.old) ++ bytes_of objects.now) }
    ensures keeps { KeepsBefore place (S.Store.content store.old) (S.Store.content store.new) }
    ensures between { OnErr result (IsTrue (S.Store.atomic store.old) → place ≤ length (S.Store.content store.old)
        → (is_longer ≡ false → length (S.Store.content store.old) ≡ place)
        → StandsBetween place (S.Store.content store.old) (S.Store.content store.new)) }
    ensures honest { S.Store.honest store.new ≡ S.Store.honest store.old }
    ensures synced { OnOk result (S.Store.synced store.new ≡ is_synced objects.now) }
    ensures unsynced { OnErr result (S.Store.synced store.new ≡ false) }
    ensures failures { S.Store.failures store.new ≡ counted result (S.Store.failures store.old) }
    ensures steady { S.Store.steady store.new ≡ S.Store.steady store.old }
    ensures reach { S.Store.reach store.new ≡ S.Store.reach store.old }
    ensures atomic { S.Store.atomic store.new ≡ S.Store.atomic store.old }
    ensures succeeds { IsTrue (S.Store.steady store.old) → place + length (bytes_of objects.now) ≤ S.Store.reach store.old
        → IsOk result }
{
    cut_at(store, place, is_longer)?;
    match objects {
        Objects::Records { spelled, .. } => store.write_at(place, spelled),
        Objects::Filemarks(count) => write_zeros(store, place, LENGTHS * u64::from(*count)),
    }
}
