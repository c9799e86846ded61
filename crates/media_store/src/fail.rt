//! A store that fails when it is told to.

ghost use Rattle.std.specs.Prelude.{◌≡◌, ◌+◌, ◌-◌, ◌≤◌, ◌==◌, ◌&&◌, not, true, false, is_ok, if◌then◌else◌, length, IsTrue, IsOk, IsErr, IfOk, OnOk, OnErr, slice_range};
ghost use Rattle.media_store.specs.Content.{resized, written, KeepsOutside, KeepsFront};
ghost use Rattle.media_store.specs.Failures.{counted as counted_calls};
ghost use Rattle.media_store.specs.Honesty.{HasAgreed};
ghost use Rattle.media_store.specs.Failing.{store_of, failures_of, is_torn, IsFresh, is_counted, is_refused, HasCounted};

use crate::fault::{StoreFault, count, counted};
use crate::store::Store;

/// A call of a store.
#[derive(Clone, Copy, Debug, PartialEq, Eq)]
pub enum Call {
    Len,
    ReadAt,
    WriteAt,
    SetLen,
    Sync,
}

/// Another store that fails from some call on. A call that it refuses does not reach that store. A write of several
/// slices is a write of each.
#[derive(Drop)]
pub struct FailStore<S: Store> {
    store: S,
    /// The call that is counted, or each one.
    only: Option<Call>,
    /// How many of these calls are still passed on.
    left: u64,
    /// Whether a write, a cut or a sync was refused, and nothing was synced after it.
    torn: bool,
    failures: u64,
}

impl<S: Store> FailStore<S> {
    /// Passes on `left` calls, of this one kind if one is named, and refuses those after them.
    pub fn new(store: S, only: Option<Call>, left: u64) -> FailStore<S>
        ensures store { store_of result ≡ store }
        ensures fresh { IsFresh only left result }
    {
        FailStore {
            store,
            only,
            left,
            torn: false,
            failures: 0,
        }
    }

    /// Returns the other store.
    pub fn store(&self) -> &S
        ensures { result.now ≡ store_of self.now }
    {
        &self.store
    }
}

/// Counts a call. Returns whether it is refused, since none is left.
fn refuses(only: Option<Call>, call: Call, left: &mut u64) -> bool
    ensures refused { result ≡ (is_counted only call && left.old == 0) }
    ensures left { left.new ≡ (if is_counted only call then left.old - 1 else left.old) }
{
    let is_counted = match only {
        None => true,
        Some(only) => only == call,
    };
    if !is_counted {
        return false;
    }
    if *left == 0 {
        return true;
    }
    *left -= 1;
    false
}

impl<S: Store> Store for FailStore<S> {
    ghost content = { λ store. S.Store.content store.store };

    ghost synced = { λ store. S.Store.synced store.store && not store.torn };

    ghost failures = { λ store. store.failures };

    ghost honest = { λ store. S.Store.honest store.store };

    ghost steady = { λ _. false };

    ghost reach = { λ store. S.Store.reach store.store };

    ghost atomic = { λ store. S.Store.atomic store.store };

    fn len(&mut self) -> Result<u64, StoreFault>
        ensures len { IfOk result (λ n. IsTrue (S.Store.honest (store_of self.new))
            → n ≡ length (S.Store.content (store_of self.old))) }
        ensures agreed { IfOk result (λ n. n ≡ length (S.Store.content (store_of self.old))
            → S.Store.honest (store_of self.new) ≡ S.Store.honest (store_of self.old)) }
        ensures failed { OnErr result (S.Store.honest (store_of self.new) ≡ S.Store.honest (store_of self.old)) }
        ensures back { IsTrue (S.Store.honest (store_of self.new)) → IsTrue (S.Store.honest (store_of self.old)) }
        ensures content { S.Store.content (store_of self.new) ≡ S.Store.content (store_of self.old) }
        ensures synced { (S.Store.synced (store_of self.new) && not (is_torn self.new))
            ≡ (S.Store.synced (store_of self.old) && not (is_torn self.old)) }
        ensures reach { S.Store.reach (store_of self.new) ≡ S.Store.reach (store_of self.old) }
        ensures atomic { S.Store.atomic (store_of self.new) ≡ S.Store.atomic (store_of self.old) }
        ensures failures { failures_of self.new ≡ counted_calls result (failures_of self.old) }
        ensures counted { HasCounted Call.Len self.old self.new }
        ensures refused { is_refused Call.Len self.old ≡ true → IsErr result × (store_of self.new ≡ store_of self.old) }
        ensures passed { is_refused Call.Len self.old ≡ false
            → S.Store.failures (store_of self.new) ≡ counted_calls result (S.Store.failures (store_of self.old)) }
        ensures passed_succeeds { is_refused Call.Len self.old ≡ false → IsTrue (S.Store.steady (store_of self.old))
            → IsOk result }
    {
        if refuses(self.only, Call::Len, &mut self.left) {
            return Err(count(&mut self.failures));
        }
        let len = self.store.len();
        counted(len, &mut self.failures)
    }

    fn read_at(&mut self, at: u64, buf: &mut [u8]) -> Result<(), StoreFault>
        ensures read { OnOk result (IsTrue (S.Store.honest (store_of self.new))
            → buf.new ≡ slice_range (S.Store.content (store_of self.old)) at (at + length buf.old)) }
        ensures agreed { HasAgreed (S.Store.content (store_of self.old)) at buf.new (is_ok result) (S.Store.honest (store_of self.old))
            (S.Store.honest (store_of self.new)) }
        ensures back { IsTrue (S.Store.honest (store_of self.new)) → IsTrue (S.Store.honest (store_of self.old)) }
        ensures content { S.Store.content (store_of self.new) ≡ S.Store.content (store_of self.old) }
        ensures synced { (S.Store.synced (store_of self.new) && not (is_torn self.new))
            ≡ (S.Store.synced (store_of self.old) && not (is_torn self.old)) }
        ensures reach { S.Store.reach (store_of self.new) ≡ S.Store.reach (store_of self.old) }
        ensures atomic { S.Store.atomic (store_of self.new) ≡ S.Store.atomic (store_of self.old) }
        ensures failures { failures_of self.new ≡ counted_calls result (failures_of self.old) }
        ensures counted { HasCounted Call.ReadAt self.old self.new }
        ensures refused { is_refused Call.ReadAt self.old ≡ true → IsErr result × (store_of self.new ≡ store_of self.old) }
        ensures passed { is_refused Call.ReadAt self.old ≡ false
            → S.Store.failures (store_of self.new) ≡ counted_calls result (S.Store.failures (store_of self.old)) }
        ensures passed_succeeds { is_refused Call.ReadAt self.old ≡ false → IsTrue (S.Store.steady (store_of self.old))
            → at + length buf.old ≤ length (S.Store.content (store_of self.old)) → IsOk result }
    {
        if refuses(self.only, Call::ReadAt, &mut self.left) {
            return Err(count(&mut self.failures));
        }
        let read = self.store.read_at(at, buf);
        counted(read, &mut self.failures)
    }

    fn write_at(&mut self, at: u64, bytes: &[u8]) -> Result<(), StoreFault>
        ensures written { OnOk result (S.Store.content (store_of self.new)
            ≡ written at bytes.now (S.Store.content (store_of self.old))) }
        ensures torn { OnErr result (KeepsOutside at (length bytes.now) (S.Store.content (store_of self.old)) (S.Store.content (store_of self.new))) }
        ensures undone { OnErr result (IsTrue (S.Store.atomic (store_of self.old))
            → S.Store.content (store_of self.new) ≡ S.Store.content (store_of self.old)) }
        ensures honest { S.Store.honest (store_of self.new) ≡ S.Store.honest (store_of self.old) }
        ensures synced { (S.Store.synced (store_of self.new) && not (is_torn self.new)) ≡ false }
        ensures reach { S.Store.reach (store_of self.new) ≡ S.Store.reach (store_of self.old) }
        ensures atomic { S.Store.atomic (store_of self.new) ≡ S.Store.atomic (store_of self.old) }
        ensures failures { failures_of self.new ≡ counted_calls result (failures_of self.old) }
        ensures counted { HasCounted Call.WriteAt self.old self.new }
        ensures refused { is_refused Call.WriteAt self.old ≡ true → IsErr result × (store_of self.new ≡ store_of self.old) }
        ensures passed { is_refused Call.WriteAt self.old ≡ false
            → S.Store.failures (store_of self.new) ≡ counted_calls result (S.Store.failures (store_of self.old)) }
        ensures passed_succeeds { is_refused Call.WriteAt self.old ≡ false → IsTrue (S.Store.steady (store_of self.old))
            → at + length bytes.now ≤ length (S.Store.content (store_of self.old)) → IsOk result }
        ensures passed_grows { is_refused Call.WriteAt self.old ≡ false → IsTrue (S.Store.steady (store_of self.old))
            → at + length bytes.now ≤ S.Store.reach (store_of self.old) → IsOk result }
    {
        if refuses(self.only, Call::WriteAt, &mut self.left) {
            self.torn = true;
            return Err(count(&mut self.failures));
        }
        let written = self.store.write_at(at, bytes);
        counted(written, &mut self.failures)
    }

    fn set_len(&mut self, len: u64) -> Result<(), StoreFault>
        ensures resized { OnOk result (S.Store.content (store_of self.new) ≡ resized len (S.Store.content (store_of self.old))) }
        ensures torn { OnErr result (KeepsFront len (S.Store.content (store_of self.old)) (S.Store.content (store_of self.new))) }
        ensures undone { OnErr result (IsTrue (S.Store.atomic (store_of self.old))
            → S.Store.content (store_of self.new) ≡ S.Store.content (store_of self.old)) }
        ensures honest { S.Store.honest (store_of self.new) ≡ S.Store.honest (store_of self.old) }
        ensures synced { (S.Store.synced (store_of self.new) && not (is_torn self.new)) ≡ false }
        ensures reach { S.Store.reach (store_of self.new) ≡ S.Store.reach (store_of self.old) }
        ensures atomic { S.Store.atomic (store_of self.new) ≡ S.Store.atomic (store_of self.old) }
        ensures failures { failures_of self.new ≡ counted_calls result (failures_of self.old) }
        ensures counted { HasCounted Call.SetLen self.old self.new }
        ensures refused { is_refused Call.SetLen self.old ≡ true → IsErr result × (store_of self.new ≡ store_of self.old) }
        ensures passed { is_refused Call.SetLen self.old ≡ false
            → S.Store.failures (store_of self.new) ≡ counted_calls result (S.Store.failures (store_of self.old)) }
        ensures passed_succeeds { is_refused Call.SetLen self.old ≡ false → IsTrue (S.Store.steady (store_of self.old))
            → len ≤ length (S.Store.content (store_of self.old)) → IsOk result }
        ensures passed_grows { is_refused Call.SetLen self.old ≡ false → IsTrue (S.Store.steady (store_of self.old))
            → len ≤ S.Store.reach (store_of self.old) → IsOk result }
    {
        if refuses(self.only, Call::SetLen, &mut self.left) {
            self.torn = true;
            return Err(count(&mut self.failures));
        }
        let resized = self.store.set_len(len);
        counted(resized, &mut self.failures)
    }

    fn sync(&mut self) -> Result<(), StoreFault>
        ensures content { S.Store.content (store_of self.new) ≡ S.Store.content (store_of self.old) }
        ensures honest { S.Store.honest (store_of self.new) ≡ S.Store.honest (store_of self.old) }
        ensures synced { (S.Store.synced (store_of self.new) && not (is_torn self.new)) ≡ is_ok result }
        ensures reach { S.Store.reach (store_of self.new) ≡ S.Store.reach (store_of self.old) }
        ensures atomic { S.Store.atomic (store_of self.new) ≡ S.Store.atomic (store_of self.old) }
        ensures failures { failures_of self.new ≡ counted_calls result (failures_of self.old) }
        ensures counted { HasCounted Call.Sync self.old self.new }
        ensures refused { is_refused Call.Sync self.old ≡ true → IsErr result × (store_of self.new ≡ store_of self.old) }
        ensures passed { is_refused Call.Sync self.old ≡ false
            → S.Store.failures (store_of self.new) ≡ counted_calls result (S.Store.failures (store_of self.old)) }
        ensures passed_succeeds { is_refused Call.Sync self.old ≡ false → IsTrue (S.Store.steady (store_of self.old))
            → IsOk result }
    {
        if refuses(self.only, Call::Sync, &mut self.left) {
            self.torn = true;
            return Err(count(&mut self.failures));
        }
        let synced = self.store.sync();
        counted(synced, &mut self.failures)?;
        self.torn = false;
        Ok(())
    }
}
