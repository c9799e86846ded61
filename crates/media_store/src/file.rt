//! A store in a file.

ghost use Rattle.std.specs.Prelude.{◌≡◌, ◌+◌, ◌<◌, ◌≤◌, ◌^◌, ◌∷◌, [], ℕ, List, length, take, true, false, is_ok, IsTrue, IsOk, IsErr, IfOk, OnOk, OnErr, slice_range};
ghost use Rattle.media_store.specs.Again.{Tries};
ghost use Rattle.media_store.specs.Calls.{Opened, Locked, Measured, NotMeasured, Resized, NotResized, Synced, NotSynced, SyncRefused};
ghost use Rattle.media_store.specs.Content.{resized, written, KeepsOutside, KeepsFront};
ghost use Rattle.media_store.specs.Ends.{HasEnded};
ghost use Rattle.media_store.specs.Failures.{counted};
ghost use Rattle.media_store.specs.Honesty.{HasAgreed};
ghost use Rattle.media_store.specs.Replay.{sync_has_failed};

use crate::again::{measure, resize, sync};
use crate::fault::StoreFault;
use crate::file_calls::FileCalls;
use crate::start::Start;
use crate::store::Store;
use crate::unwritten::Unwritten;
use crate::whole::{read_whole, write_whole};
use data_parts::Data;
use std::marker::{Model, PhantomData};

/// The bytes of an open file, or of a block device. Each call is one call of the system, or a few if the system does a
/// part only or a signal interrupts it.
///
/// All is read from the calls so far. The content is what the file at the path that was opened held then, as `S`
/// says, after these calls. It is honest as long as every length and every byte that the system told agrees with
/// that content, and synced if a sync has succeeded after all that changed it, and none failed before it. A call of the
/// store fails only if one of the system did that no signal interrupted, or if it is given up, and is counted from that
/// note. After a sync that failed, no other is made until the file is opened again: the system reports a lost
/// write-back once.
#[derive(Drop)]
pub struct FileStore<C: FileCalls, S: Start> {
    calls: C,
    start: PhantomData<S>,
}

impl<C: FileCalls, S: Start> Model for FileStore<C, S> {
    ghost use Rattle.media_store.specs.Ends.{failed_calls};
    ghost use Rattle.media_store.specs.States.{FileState};
    ghost use Rattle.media_store.specs.Replay.{origin_by, content_of, is_honest, is_synced};

    ghost Value = { FileState };

    ghost view = { λ store. record {
      calls = C.FileCalls.calls store.calls;
      content = content_of (origin_by S.Start.held S.Start.torn) (C.FileCalls.calls store.calls);
      honest = is_honest (origin_by S.Start.held S.Start.torn) (C.FileCalls.calls store.calls);
      synced = is_synced (C.FileCalls.calls store.calls);
      failures = failed_calls (C.FileCalls.calls store.calls);
    } };
}

impl<C: FileCalls, S: Start> FileStore<C, S> {
    /// Returns the store of a file that was opened for reading and writing, at the path in its calls, and locked.
    pub fn new(calls: C) -> FileStore<C, S>
        ensures { (path : List ℕ) → C.FileCalls.calls calls ≡ Locked ∷ Opened path ∷ []
            → result ≡ record { calls = Locked ∷ Opened path ∷ []; content = S.Start.held path; honest = true; synced = false; failures = 0 } }
    {
        FileStore {
            calls,
            start: PhantomData,
        }
    }
}

impl<C: FileCalls, S: Start> Store for FileStore<C, S> {
    ghost content = { λ store. store.content };

    ghost synced = { λ store. store.synced };

    ghost failures = { λ store. store.failures };

    ghost honest = { λ store. store.honest };

    ghost steady = { λ _. false };

    ghost reach = { λ _. 0 };

    ghost atomic = { λ _. false };

    fn len(&mut self) -> Result<u64, StoreFault>
        ensures len { IfOk result (λ n. IsTrue self.new.honest → n ≡ length self.old.content) }
        ensures agreed { IfOk result (λ n. n ≡ length self.old.content → self.new.honest ≡ self.old.honest) }
        ensures failed { OnErr result (self.new.honest ≡ self.old.honest) }
        ensures back { IsTrue self.new.honest → IsTrue self.old.honest }
        ensures content { self.new.content ≡ self.old.content }
        ensures synced { self.new.synced ≡ self.old.synced }
        ensures failures { self.new.failures ≡ counted result self.old.failures }
        ensures tried { Tries Measured NotMeasured result self.old.calls self.new.calls }
    {
        measure(&mut self.calls)
    }

    fn read_at(&mut self, at: u64, buf: &mut [u8]) -> Result<(), StoreFault>
        ensures read { OnOk result (IsTrue self.new.honest
            → buf.new ≡ slice_range self.old.content at (at + length buf.old)) }
        ensures agreed { HasAgreed self.old.content at buf.new (is_ok result) self.old.honest self.new.honest }
        ensures back { IsTrue self.new.honest → IsTrue self.old.honest }
        ensures content { self.new.content ≡ self.old.content }
        ensures synced { self.new.synced ≡ self.old.synced }
        ensures failures { self.new.failures ≡ counted result self.old.failures }
        ensures ended { HasEnded (is_ok result) at (length buf.new) self.old.calls self.new.calls }
    {
        read_whole(&mut self.calls, at, buf)
    }

    fn write_at(&mut self, at: u64, bytes: &[u8]) -> Result<(), StoreFault>
        ensures written { OnOk result (self.new.content ≡ written at bytes.now self.old.content) }
        ensures torn { OnErr result (KeepsOutside at (length bytes.now) self.old.content self.new.content) }
        ensures honest { self.new.honest ≡ self.old.honest }
        ensures synced { self.new.synced ≡ false }
        ensures failures { self.new.failures ≡ counted result self.old.failures }
        ensures ended { HasEnded (is_ok result) at (length bytes.now) self.old.calls self.new.calls }
    {
        self.write_parts(at, bytes.len() as u64, &Data::whole(bytes))
    }

    fn write_parts(&mut self, at: u64, count: u64, data: &Data) -> Result<(), StoreFault>
        requires enough { count ≤ length «data».now }
        ensures written { OnOk result (self.new.content ≡ written at (take count «data».now) self.old.content) }
        ensures torn { OnErr result (KeepsOutside at count self.old.content self.new.content) }
        ensures honest { self.new.honest ≡ self.old.honest }
        ensures synced { self.new.synced ≡ false }
        ensures failures { self.new.failures ≡ counted result self.old.failures }
        ensures ended { HasEnded (is_ok result) at count self.old.calls self.new.calls }
    {
        write_whole(&mut self.calls, at, Unwritten::new(data, count as usize))
    }

    fn set_len(&mut self, len: u64) -> Result<(), StoreFault>
        ensures resized { OnOk result (self.new.content ≡ resized len self.old.content) }
        ensures torn { OnErr result (KeepsFront len self.old.content self.new.content) }
        ensures honest { self.new.honest ≡ self.old.honest }
        ensures synced { self.new.synced ≡ false }
        ensures failures { self.new.failures ≡ counted result self.old.failures }
        ensures tried { Tries (λ _. Resized len) (NotResized len) result self.old.calls self.new.calls }
    {
        resize(&mut self.calls, len)
    }

    fn sync(&mut self) -> Result<(), StoreFault>
        ensures content { self.new.content ≡ self.old.content }
        ensures honest { self.new.honest ≡ self.old.honest }
        ensures synced { self.new.synced ≡ is_ok result }
        ensures failures { self.new.failures ≡ counted result self.old.failures }
        ensures tried { sync_has_failed self.old.calls ≡ false → Tries (λ _. Synced) NotSynced result self.old.calls self.new.calls }
        ensures refused { sync_has_failed self.old.calls ≡ true → IsErr result × (self.new.calls ≡ SyncRefused ∷ self.old.calls) }
    {
        if self.calls.sync_has_failed() {
            self.calls.refuse_sync();
            return Err(StoreFault);
        }
        sync(&mut self.calls)
    }
}
