//! The calls of the system that a store makes on its file.

ghost use Rattle.std.specs.Prelude.{◌≡◌, ◌≤◌, ◌∷◌, List, length, IfOk};
ghost use Rattle.media_store.specs.Calls.{FileCall, GaveUp, SyncRefused, measuring, reading, writing, resizing, syncing};
ghost use Rattle.media_store.specs.Replay.{sync_has_failed as sync_has_failed_in};

use crate::unwritten::Unwritten;
use std::io;

/// An open file whose calls are noted. Nothing is promised of what a call does or answers, only that
/// it is noted with its answer. Offsets and lengths are in bytes.
pub trait FileCalls {
    /// The calls so far with their answers, the newest first. The oldest is the opening of the file.
    ghost calls: { Self → List FileCall };

    /// Returns where the end is.
    fn end(&mut self) -> io::Result<u64>
        ensures { calls self.new ≡ measuring result ∷ calls self.old };

    /// Reads some bytes from an offset on into the front of a buffer. Returns the number of bytes, 0 at the end.
    fn read_some(&mut self, at: u64, buf: &mut [u8]) -> io::Result<usize>
        ensures count { IfOk result (λ count. count ≤ length buf.new) }
        ensures noted { calls self.new ≡ reading at buf.new result ∷ calls self.old };

    /// Writes a front of the bytes from an offset on. Returns the number of bytes.
    fn write_some(&mut self, at: u64, bytes: &Unwritten) -> io::Result<usize>
        ensures count { IfOk result (λ count. count ≤ length bytes.now) }
        ensures noted { calls self.new ≡ writing at bytes.now result ∷ calls self.old };

    /// Cuts the file to a length, or fills it up with zeros.
    fn set_len(&mut self, len: u64) -> io::Result<()>
        ensures { calls self.new ≡ resizing len result ∷ calls self.old };

    /// Waits until what was written is on the medium.
    fn sync(&mut self) -> io::Result<()>
        ensures { calls self.new ≡ syncing result ∷ calls self.old };

    /// Notes that no further call is made, so that a call of a store fails.
    fn give_up(&mut self)
        ensures { calls self.new ≡ GaveUp ∷ calls self.old };

    /// Returns whether a sync has failed.
    fn sync_has_failed(&self) -> bool
        ensures { result ≡ sync_has_failed_in (calls self.now) };

    /// Notes that no sync is made, since one has failed.
    fn refuse_sync(&mut self)
        ensures { calls self.new ≡ SyncRefused ∷ calls self.old };
}
