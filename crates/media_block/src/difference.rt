//! The first place at which bytes differ.

ghost use Rattle.std.specs.Prelude.{◌≡◌, ◌+◌, ◌<◌, ◌≤◌, ◌^◌, ◌++◌, length, take, slice_range, IsTrue, IsOk, IfOk, IfSome};
ghost use Rattle.media_store.specs.Failures.{counted};
ghost use Rattle.media_store.specs.Reading.{IsOnlyRead};
ghost use Rattle.media_block.specs.Blocks.{first_difference};

use crate::filling::next_slice;
use data_parts::Data;
use media_store::{Store, StoreFault};

/// Returns the least index at which bytes differ from others of the same number.
fn difference(held: &[u8], bytes: &[u8]) -> Option<usize>
    requires { length held.now ≡ length bytes.now }
    ensures least { result ≡ first_difference held.now bytes.now }
    ensures within { IfSome result (λ at. at < length held.now) }
{
    // Most bytes are equal, and the library compares many of them at a time.
    if held == bytes {
        return None;
    }
    for at in 0..held.len() {
        if held[at] != bytes[at] {
            return Some(at);
        }
    }
    None
}

/// Returns the least index at which bytes differ from the first bytes of the data, slice by slice.
pub(crate) fn difference_from(held: &[u8], data: &Data) -> Option<usize>
    requires enough { length held.now ≤ length «data».now }
    ensures least { result ≡ first_difference held.now (take (length held.now) «data».now) }
    ensures within { IfSome result (λ at. at < length held.now) }
{
    let (mut front, mut behind) = data.split_front();
    let mut done = 0;
    while done < held.len() {
        let part = front.len().min(held.len() - done);
        if let Some(found) = difference(&held[done..done + part], &front[..part]) {
            return Some(done + found);
        }
        done += part;
        (front, behind) = behind.split_front();
    }
    None
}

/// Returns the least index at which bytes within the content differ from the first bytes of the data, slice by slice.
/// Reads the content into a buffer, as many bytes at once as it has room for.
pub(crate) fn compare_data<S: Store>(
    store: &mut S,
    at: u64,
    count: u64,
    data: &Data,
    held: &mut [u8],
) -> Result<Option<usize>, StoreFault>
    requires range { at + count < 2 ^ 64 }
    requires enough { count ≤ length «data».now }
    requires room { 0 < length held.old }
    ensures compared { IfOk result (λ found. IsTrue (S.Store.honest store.new)
        → found ≡ first_difference (slice_range (S.Store.content store.old) at (at + count)) (take count «data».now)) }
    ensures within { IfOk result (λ found. IfSome found (λ n. n < count)) }
    ensures none { count ≡ 0 → IsOk result }
    ensures kept { IsOnlyRead S.Store store.old store.new }
    ensures failures { S.Store.failures store.new ≡ counted result (S.Store.failures store.old) }
    ensures succeeds { IsTrue (S.Store.steady store.old) → at + count ≤ length (S.Store.content store.old)
        → IsOk result × (S.Store.honest store.new ≡ S.Store.honest store.old) }
{
    let (mut front, mut behind) = data.split_front();
    let mut done = 0;
    while done < count {
        let part = front.len().min((count - done) as usize).min(held.len());
        let (bytes, later) = front.split_at(part);
        let room = &mut held[..part];
        store.read_at(at + done, room)?;
        if let Some(found) = difference(room, bytes) {
            return Ok(Some(done as usize + found));
        }
        done += part as u64;
        (front, behind) = next_slice(later, behind);
    }
    Ok(None)
}
