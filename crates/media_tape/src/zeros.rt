//! Filemarks written to a store from a place on: two lengths of zero each.

ghost use Rattle.std.specs.Prelude.{◌≡◌, ◌+◌, ◌≤◌, ◌<◌, ◌^◌, ◌++◌, true, false, length, replicate, IsTrue, IsOk, OnOk, OnErr};
ghost use Rattle.media_store.specs.Failures.{counted};
ghost use Rattle.media_tape.specs.Writing.{KeepsBefore, InParts};

use media_store::{Store, StoreFault};

/// The most bytes that one call of the store writes: whole filemarks.
const PART: u64 = 4096;

/// Writes `size` zero bytes from a place on, and waits until everything is on the medium.
pub(crate) fn write_zeros<S: Store>(store: &mut S, place: u64, size: u64) -> Result<(), StoreFault>
    requires within { place + size < 2 ^ 64 }
    requires some { 0 < size }
    ensures written { OnOk result (length (S.Store.content store.old) ≡ place
        → S.Store.content store.new ≡ S.Store.content store.old ++ replicate size 0) }
    ensures between { OnErr result (IsTrue (S.Store.atomic store.old) → length (S.Store.content store.old) ≡ place
        → InParts size (S.Store.content store.old) (S.Store.content store.new)) }
    ensures keeps { KeepsBefore place (S.Store.content store.old) (S.Store.content store.new) }
    ensures honest { S.Store.honest store.new ≡ S.Store.honest store.old }
    ensures synced { OnOk result (S.Store.synced store.new ≡ true) }
    ensures unsynced { OnErr result (S.Store.synced store.new ≡ false) }
    ensures failures { S.Store.failures store.new ≡ counted result (S.Store.failures store.old) }
    ensures steady { S.Store.steady store.new ≡ S.Store.steady store.old }
    ensures reach { S.Store.reach store.new ≡ S.Store.reach store.old }
    ensures atomic { S.Store.atomic store.new ≡ S.Store.atomic store.old }
    ensures succeeds { IsTrue (S.Store.steady store.old) → place + size ≤ S.Store.reach store.old → IsOk result }
{
    let zeros = [0; PART as usize];
    let mut done = 0;
    while done < size {
        let part = (size - done).min(PART);
        store.write_at(place + done, &zeros[..part as usize])?;
        done += part;
    }
    store.sync()
}
