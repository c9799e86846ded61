//! The item at a place of a store.

ghost use Rattle.std.specs.Prelude.{◌≡◌, ◌+◌, ◌≤◌, length, take, drop, IsTrue, IsOk, IfOk, IfSome, OnOk};
ghost use Rattle.media_store.specs.Failures.{counted};
ghost use Rattle.media_store.specs.Reading.{IsOnlyRead};
ghost use Rattle.media_tape.specs.Items.{front, most_bytes};
ghost use Rattle.media_tape.specs.Window.{IsWindow, Shows};

use crate::window::Window;
use media_store::{Store, StoreFault};

/// The greatest length of a record in bytes.
pub const MOST_BYTES: u32 = 1_048_576;

/// The bytes that an item takes beyond its own: its length before them, and its length again after them.
pub(crate) const LENGTHS: u64 = 8;

/// A page, which the system reads whole. After an item that is no longer than a page, the bytes that follow are read
/// with it.
const PAGE: u32 = 4096;

/// Returns the most bytes to read at once, from the length after an item on.
fn ahead(length: u32) -> u64
    ensures { 4 ≤ result }
{
    if length <= PAGE {
        u64::MAX
    } else {
        // The length, and the one before the next item.
        LENGTHS
    }
}

/// Returns the length of the item at a place, if a whole one stands there below an end.
pub(crate) fn item_at<S: Store>(
    store: &mut S,
    place: u64,
    end: u64,
    window: &mut Window,
) -> Result<Option<u32>, StoreFault>
    requires window { IsWindow window.old }
    requires within { place ≤ end }
    ensures found { IfOk result (λ found. IsTrue (S.Store.honest store.new) → Shows (S.Store.content store.old) window.old
        → end ≤ length (S.Store.content store.old) → found ≡ front (drop place (take end (S.Store.content store.old)))) }
    ensures within { IfOk result (λ found. IfSome found (λ n. (place + n + 8 ≤ end) × (n ≤ most_bytes))) }
    ensures window { IsWindow window.new }
    ensures shows { OnOk result (IsTrue (S.Store.honest store.new) → Shows (S.Store.content store.old) window.old
        → end ≤ length (S.Store.content store.old) → Shows (S.Store.content store.old) window.new) }
    ensures kept { IsOnlyRead S.Store store.old store.new }
    ensures failures { S.Store.failures store.new ≡ counted result (S.Store.failures store.old) }
    ensures succeeds { IsTrue (S.Store.steady store.old) → end ≤ length (S.Store.content store.old)
        → IsOk result × (S.Store.honest store.new ≡ S.Store.honest store.old) }
{
    if end - place < LENGTHS {
        return Ok(None);
    }
    window.hold(store, place, end, u64::MAX)?;
    let length = window.number(place);
    if length > MOST_BYTES || end - place - LENGTHS < u64::from(length) {
        return Ok(None);
    }
    let trailer = place + 4 + u64::from(length);
    window.hold(store, trailer, end, ahead(length))?;
    let again = window.number(trailer);
    Ok(if again == length { Some(length) } else { None })
}
