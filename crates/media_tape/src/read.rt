//! Bytes read from a store.

ghost use Rattle.std.specs.Prelude.{◌≡◌, ◌+◌, ◌*◌, ◌≤◌, ◌<◌, ◌^◌, ◌++◌, length, drop, slice_range, IsTrue, IsOk, IfOk, OnOk, OnErr};
ghost use Rattle.media_store.specs.Failures.{counted};
ghost use Rattle.media_store.specs.Reading.{IsOnlyRead};
ghost use Rattle.media_tape.specs.Items.{most_bytes};
ghost use Rattle.media_tape.specs.BlockData.{data_in};

use crate::item::LENGTHS;
use bytes::BytesMut;
use media_store::{Store, StoreFault};
use std::alloc::{AllocError, Global};

/// The length of an item, after which the bytes of a record stand.
pub(crate) const LENGTH: u64 = 4;

/// Reads `count` bytes from an offset on, and appends them to a buffer that has room for them. For no byte it calls no
/// store.
pub(crate) fn read_behind<S: Store>(
    store: &mut S,
    at: u64,
    count: usize,
    buffer: &mut BytesMut,
) -> Result<(), StoreFault>
    requires { count ≤ buffer.old.spare }
    ensures read { OnOk result (IsTrue (S.Store.honest store.new) → at + count ≤ length (S.Store.content store.old)
        → buffer.new.items ≡ buffer.old.items ++ slice_range (S.Store.content store.old) at (at + count)) }
    ensures length { length buffer.new.items ≡ length buffer.old.items + count }
    ensures spare { buffer.new.spare + count ≡ buffer.old.spare }
    ensures kept { IsOnlyRead S.Store store.old store.new }
    ensures failures { S.Store.failures store.new ≡ counted result (S.Store.failures store.old) }
    ensures succeeds { IsTrue (S.Store.steady store.old) → at + count ≤ length (S.Store.content store.old)
        → IsOk result × (S.Store.honest store.new ≡ S.Store.honest store.old) }
    ensures none { count ≡ 0 → IsOk result × (store.new ≡ store.old) }
{
    if count == 0 {
        return Ok(());
    }
    let front = buffer.len();
    buffer.advance_mut(count);
    store.read_at(at, &mut buffer.as_mut_slice()[front..])
}

/// Appends the bytes of `count` records of one length to a buffer that has room for them. `items` has the records as
/// they stand in a store.
fn put_data(items: &[u8], count: usize, block_length: usize, buffer: &mut BytesMut)
    requires long { count * (block_length + 8) ≤ length items.now }
    requires room { count * block_length ≤ buffer.old.spare }
    ensures items { buffer.new.items ≡ buffer.old.items ++ data_in count block_length items.now }
    ensures spare { buffer.new.spare + count * block_length ≡ buffer.old.spare }
{
    for i in 0..count {
        let from = i * (block_length + LENGTHS as usize) + LENGTH as usize;
        buffer.extend_reserved(&items[from..from + block_length]);
    }
}

/// Reads `count` records of one length from a place on, in one call, and appends their bytes to a buffer. First it
/// reserves room there for them and for `tailroom` bytes more. For no record it calls no store.
pub(crate) fn read_blocks<S: Store>(
    alloc: Global,
    store: &mut S,
    place: u64,
    count: u32,
    block_length: u32,
    buffer: &mut BytesMut,
    tailroom: u32,
) -> Result<Result<(), StoreFault>, AllocError>
    requires few { count * block_length ≤ most_bytes }
    requires within { place + count * (block_length + 8) < 2 ^ 64 }
    ensures read { IfOk result (λ done. OnOk done (IsTrue (S.Store.honest store.new)
        → place + count * (block_length + 8) ≤ length (S.Store.content store.old)
        → buffer.new.items ≡ buffer.old.items ++ data_in count block_length (drop place (S.Store.content store.old)))) }
    ensures length { IfOk result (λ done. OnOk done (length buffer.new.items ≡ length buffer.old.items + count * block_length)) }
    ensures spare { IfOk result (λ _. tailroom ≤ buffer.new.spare) }
    ensures kept { IsOnlyRead S.Store store.old store.new }
    ensures failures { IfOk result (λ done. S.Store.failures store.new ≡ counted done (S.Store.failures store.old)) }
    ensures succeeds { IfOk result (λ done. IsTrue (S.Store.steady store.old)
        → place + count * (block_length + 8) ≤ length (S.Store.content store.old)
        → IsOk done × (S.Store.honest store.new ≡ S.Store.honest store.old)) }
    ensures none { IfOk result (λ done. count ≡ 0 → IsOk done × (store.new ≡ store.old)) }
    ensures err { OnErr result (store.new ≡ store.old) }
{
    let (many, long) = (count as usize, block_length as usize);
    buffer.reserve(many * long + tailroom as usize)?;
    if count == 1 {
        return Ok(read_behind(store, place + LENGTH, long, buffer));
    }
    let size = many * (long + LENGTHS as usize);
    let mut items = BytesMut::with_capacity(alloc, size)?;
    match read_behind(store, place, size, &mut items) {
        Ok(()) => {
            put_data(items.as_slice(), many, long, buffer);
            Ok(Ok(()))
        }
        Err(fault) => Ok(Err(fault)),
    }
}
