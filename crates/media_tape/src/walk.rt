//! The items of a store, one after the other.

ghost use Rattle.std.specs.Prelude.{◌≡◌, ℕ, ◌≤◌, length, take, map, sum, All, IsTrue, IfOk, IfErr, OnOk};
ghost use Rattle.media_store.specs.Reading.{IsOnlyRead};
ghost use Rattle.media_tape.specs.Fault.{failures_after, Explains};
ghost use Rattle.media_tape.specs.Items.{IsSize, items_of, size, size_of};
ghost use Rattle.media_tape.specs.declared.fault.TapeOpenFault.TheVariants.{OutOfMemory};

use crate::fault::TapeOpenFault;
use crate::item::item_at;
use crate::window::Window;
use media_store::Store;
use std::alloc::Global;
use tape_index::{Index, MARK_SIZE};

/// Reads the sizes of the items below an end, up to the first that is not whole.
pub(crate) fn walk<S: Store>(alloc: Global, store: &mut S, end: u64) -> Result<Index, TapeOpenFault>
    ensures sizes { IfOk result (λ index. IsTrue (S.Store.honest store.new) → end ≤ length (S.Store.content store.old)
        → index.sizes ≡ map size (items_of (take end (S.Store.content store.old)))) }
    ensures place { IfOk result (λ index. IsTrue (S.Store.honest store.new) → end ≤ length (S.Store.content store.old)
        → sum index.sizes ≡ size_of (items_of (take end (S.Store.content store.old)))) }
    ensures within { IfOk result (λ index. sum index.sizes ≤ end) }
    ensures each { IfOk result (λ index. All IsSize index.sizes) }
    ensures why { IfErr result (λ fault. (capacity : ℕ) → Explains (S.Store.content store.old) capacity fault) }
    ensures kept { IsOnlyRead S.Store store.old store.new }
    ensures failures { OnOk result (S.Store.failures store.new ≡ S.Store.failures store.old) }
    ensures failed { IfErr result (λ fault. S.Store.failures store.new ≡ failures_after fault (S.Store.failures store.old)) }
    ensures stays { IsTrue (S.Store.steady store.old) → end ≤ length (S.Store.content store.old)
        → S.Store.honest store.new ≡ S.Store.honest store.old }
    ensures succeeds { IfErr result (λ fault. IsTrue (S.Store.steady store.old) → end ≤ length (S.Store.content store.old)
        → fault ≡ OutOfMemory) }
{
    let mut index = Index::new(alloc);
    let mut window = Window::new(alloc)?;
    while let Some(length) = item_at(store, index.end(), end, &mut window)? {
        index.push(length + MARK_SIZE, 1)?;
    }
    Ok(index)
}
