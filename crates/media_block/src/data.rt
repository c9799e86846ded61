//! Writing data to a store: as it lies, or joined where the slices are short.

ghost use Rattle.std.specs.Prelude.{◌≡◌, ◌+◌, ◌<◌, ◌≤◌, ◌^◌, length, take, false, IsTrue, IsOk, OnOk, OnErr};
ghost use Rattle.media_store.specs.Content.{written, KeepsOutside};
ghost use Rattle.media_store.specs.Failures.{counted};

use crate::filling::fill;
use data_parts::Data;
use media_store::{Store, StoreFault};

/// The least mean length, in bytes, of slices that are written as they lie, if the store is not in memory: a file takes
/// four with one call of the system.
const LONG_SLICE: usize = 16_384;

/// The most bytes for which the smaller of two buffers is filled.
const FEW: usize = 65_536;

/// The most bytes that are joined for one write.
const MOST_JOINED: usize = 262_144;

/// Returns whether the first `count` bytes are written as they lie: one slice, long ones, or into memory.
fn stays_apart<S: Store>(store: &S, at: u64, count: u64, data: &Data) -> bool {
    let (front, _) = data.split_front();
    front.len() as u64 >= count || data.mean_slice() >= LONG_SLICE || store.lend(at, 0).is_some()
}

/// Writes the first `count` bytes of the data within the content. If it fails, their range may hold any bytes.
pub(crate) fn write_data<S: Store>(
    store: &mut S,
    at: u64,
    count: u64,
    data: &Data,
) -> Result<(), StoreFault>
    requires range { at + count < 2 ^ 64 }
    requires some { 0 < count }
    requires enough { count ≤ length «data».now }
    ensures written { OnOk result (S.Store.content store.new ≡ written at (take count «data».now) (S.Store.content store.old)) }
    ensures torn { OnErr result (KeepsOutside at count (S.Store.content store.old) (S.Store.content store.new)) }
    ensures honest { S.Store.honest store.new ≡ S.Store.honest store.old }
    ensures synced { S.Store.synced store.new ≡ false }
    ensures failures { S.Store.failures store.new ≡ counted result (S.Store.failures store.old) }
    ensures steady { S.Store.steady store.new ≡ S.Store.steady store.old }
    ensures succeeds { IsTrue (S.Store.steady store.old) → at + count ≤ length (S.Store.content store.old) → IsOk result }
{
    if stays_apart(store, at, count, data) {
        return store.write_parts(at, count, data);
    }
    write_together(store, at, count, data)
}

/// Writes bytes of short slices, joined. It stays a call, since its buffers would lie on the stack of every command.
#[inline(never)]
fn write_together<S: Store>(
    store: &mut S,
    at: u64,
    count: u64,
    data: &Data,
) -> Result<(), StoreFault>
    requires range { at + count < 2 ^ 64 }
    requires some { 0 < count }
    requires enough { count ≤ length «data».now }
    ensures written { OnOk result (S.Store.content store.new ≡ written at (take count «data».now) (S.Store.content store.old)) }
    ensures torn { OnErr result (KeepsOutside at count (S.Store.content store.old) (S.Store.content store.new)) }
    ensures honest { S.Store.honest store.new ≡ S.Store.honest store.old }
    ensures synced { S.Store.synced store.new ≡ false }
    ensures failures { S.Store.failures store.new ≡ counted result (S.Store.failures store.old) }
    ensures steady { S.Store.steady store.new ≡ S.Store.steady store.old }
    ensures succeeds { IsTrue (S.Store.steady store.old) → at + count ≤ length (S.Store.content store.old) → IsOk result }
{
    // No larger buffer is filled than a few slices need.
    if count <= FEW as u64 {
        return write_joined(store, at, count, data, &mut [0; FEW]);
    }
    write_joined(store, at, count, data, &mut [0; MOST_JOINED])
}

/// Writes bytes joined, as many at once as there is room for.
fn write_joined<S: Store>(
    store: &mut S,
    at: u64,
    count: u64,
    data: &Data,
    room: &mut [u8],
) -> Result<(), StoreFault>
    requires range { at + count < 2 ^ 64 }
    requires some { 0 < count }
    requires enough { count ≤ length «data».now }
    requires room { 0 < length room.old }
    ensures written { OnOk result (S.Store.content store.new ≡ written at (take count «data».now) (S.Store.content store.old)) }
    ensures torn { OnErr result (KeepsOutside at count (S.Store.content store.old) (S.Store.content store.new)) }
    ensures honest { S.Store.honest store.new ≡ S.Store.honest store.old }
    ensures synced { S.Store.synced store.new ≡ false }
    ensures failures { S.Store.failures store.new ≡ counted result (S.Store.failures store.old) }
    ensures steady { S.Store.steady store.new ≡ S.Store.steady store.old }
    ensures succeeds { IsTrue (S.Store.steady store.old) → at + count ≤ length (S.Store.content store.old) → IsOk result }
{
    let (mut front, mut behind) = data.split_front();
    let mut done = 0;
    while done < count {
        let part = room.len().min((count - done) as usize);
        let joined = &mut room[..part];
        (front, behind) = fill(front, behind, joined);
        store.write_at(at + done, joined)?;
        done += part as u64;
    }
    Ok(())
}
