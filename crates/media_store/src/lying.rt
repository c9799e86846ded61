//! A store that gives wrong bytes when it is told to.

ghost use Rattle.std.specs.Prelude.{◌≡◌, ◌+◌, ◌≤◌, ◌&&◌, not, true, false, is_ok, if◌then◌else◌, length, IsTrue, IsOk, IfOk, OnOk, OnErr, slice_range};
ghost use Rattle.media_store.specs.Failures.{counted as counted_calls};
ghost use Rattle.media_store.specs.Honesty.{HasAgreed};

use crate::fault::StoreFault;
use crate::store::Store;

/// Another store that lies at one read: it turns the lowest bit of the first byte that this read gave.
/// All else is passed on. Reads that fail or give no byte are not counted. It is as honest as the other
/// store until it lies, and never after.
#[derive(Drop)]
pub struct LyingStore<S: Store> {
    store: S,
    /// How many reads are still answered truly.
    left: u64,
    has_lied: bool,
    ghost is_steady: { S.Store.steady store ≡ true },
}

impl<S: Store> LyingStore<S> {
    ghost use Rattle.media_store.specs.Lying.{store_of, has_lied, left_of};

    /// Lies at the read after `left` true ones. The other store is one whose reads agree with its
    /// content, or a lie could hide a lie.
    pub fn new(store: S, left: u64) -> LyingStore<S>
        requires { S.Store.steady store ≡ true }
        ensures store { store_of result ≡ store }
        ensures left { left_of result ≡ left }
        ensures true_yet { has_lied result ≡ false }
    {
        LyingStore {
            store,
            left,
            has_lied: false,
        }
    }
}

impl<S: Store> Store for LyingStore<S> {
    ghost use Rattle.media_store.specs.Lying.{store_of, has_lied, is_lie, turned, HasTold, HasKept};

    ghost content = { λ store. S.Store.content store.store };

    ghost synced = { λ store. S.Store.synced store.store };

    ghost failures = { λ store. S.Store.failures store.store };

    ghost honest = { λ store. S.Store.honest store.store && not store.has_lied };

    ghost steady = { λ _. false };

    ghost reach = { λ store. S.Store.reach store.store };

    ghost atomic = { λ store. S.Store.atomic store.store };

    fn len(&mut self) -> Result<u64, StoreFault>
        ensures len { IfOk result (λ n. IsTrue (S.Store.honest (store_of self.new) && not (has_lied self.new))
            → n ≡ length (S.Store.content (store_of self.old))) }
        ensures agreed { IfOk result (λ n. n ≡ length (S.Store.content (store_of self.old))
            → (S.Store.honest (store_of self.new) && not (has_lied self.new))
            ≡ (S.Store.honest (store_of self.old) && not (has_lied self.old))) }
        ensures failed { OnErr result ((S.Store.honest (store_of self.new) && not (has_lied self.new))
            ≡ (S.Store.honest (store_of self.old) && not (has_lied self.old))) }
        ensures back { IsTrue (S.Store.honest (store_of self.new) && not (has_lied self.new))
            → IsTrue (S.Store.honest (store_of self.old) && not (has_lied self.old)) }
        ensures content { S.Store.content (store_of self.new) ≡ S.Store.content (store_of self.old) }
        ensures synced { S.Store.synced (store_of self.new) ≡ S.Store.synced (store_of self.old) }
        ensures reach { S.Store.reach (store_of self.new) ≡ S.Store.reach (store_of self.old) }
        ensures atomic { S.Store.atomic (store_of self.new) ≡ S.Store.atomic (store_of self.old) }
        ensures failures { S.Store.failures (store_of self.new) ≡ counted_calls result (S.Store.failures (store_of self.old)) }
        ensures kept { HasKept self.old self.new }
    {
        self.store.len()
    }

    fn read_at(&mut self, at: u64, buf: &mut [u8]) -> Result<(), StoreFault>
        ensures read { OnOk result (IsTrue (S.Store.honest (store_of self.new) && not (has_lied self.new))
            → buf.new ≡ slice_range (S.Store.content (store_of self.old)) at (at + length buf.old)) }
        ensures agreed { HasAgreed (S.Store.content (store_of self.old)) at buf.new (is_ok result)
            (S.Store.honest (store_of self.old) && not (has_lied self.old))
            (S.Store.honest (store_of self.new) && not (has_lied self.new)) }
        ensures back { IsTrue (S.Store.honest (store_of self.new) && not (has_lied self.new))
            → IsTrue (S.Store.honest (store_of self.old) && not (has_lied self.old)) }
        ensures content { S.Store.content (store_of self.new) ≡ S.Store.content (store_of self.old) }
        ensures synced { S.Store.synced (store_of self.new) ≡ S.Store.synced (store_of self.old) }
        ensures reach { S.Store.reach (store_of self.new) ≡ S.Store.reach (store_of self.old) }
        ensures atomic { S.Store.atomic (store_of self.new) ≡ S.Store.atomic (store_of self.old) }
        ensures failures { S.Store.failures (store_of self.new) ≡ counted_calls result (S.Store.failures (store_of self.old)) }
        ensures told { HasTold (length buf.old) (is_ok result) self.old self.new }
        ensures lie { OnOk result (IsTrue (S.Store.honest (store_of self.new))
            → buf.new ≡ (if is_lie (length buf.old) self.old then turned
            (slice_range (S.Store.content (store_of self.old)) at (at + length buf.old)) else slice_range
            (S.Store.content (store_of self.old)) at (at + length buf.old))) }
    {
        self.store.read_at(at, buf)?;
        if self.has_lied || buf.is_empty() {
            return Ok(());
        }
        if self.left == 0 {
            buf[0] ^= 1;
            self.has_lied = true;
        } else {
            self.left -= 1;
        }
        Ok(())
    }

    fn write_at(&mut self, at: u64, bytes: &[u8]) -> Result<(), StoreFault> {
        self.store.write_at(at, bytes)
    }

    fn set_len(&mut self, len: u64) -> Result<(), StoreFault> {
        self.store.set_len(len)
    }

    fn sync(&mut self) -> Result<(), StoreFault> {
        self.store.sync()
    }
}
