//! What every store does.

ghost use Rattle.std.specs.Prelude.{◌≡◌, ◌+◌, ◌<◌, ◌≤◌, ◌^◌, ℕ, List, length, take, Bool, false, is_ok, IsTrue, IsOk, IfOk, IfSome, OnOk, OnErr, slice_range};
ghost use Rattle.media_store.specs.Content.{resized, written, KeepsOutside, KeepsFront};
ghost use Rattle.media_store.specs.Failures.{counted};
ghost use Rattle.media_store.specs.Honesty.{HasAgreed};

use crate::fault::StoreFault;
use data_parts::Data;

/// A list of bytes that is kept somewhere. Offsets and lengths are in bytes.
///
/// `content` is what the calls so far have made of the bytes. A store is honest as long as every answer
/// agreed with it: what was read, and the length. So what is said of bytes that were read is said where
/// the store is honest after the call. Each call takes `&mut self`, for it may raise the count of
/// failures, and a store may lose its honesty in it.
pub trait Store {
    /// The bytes.
    ghost content: { Self → List ℕ };

    /// Whether the last `sync` succeeded, and came after the last write and the last change of the length.
    ghost synced: { Self → Bool };

    /// How many calls have failed. It stays at the greatest value of a `u64`.
    ghost failures: { Self → ℕ };

    /// Whether every answer so far agreed with the content. It falls only where one did not, and once it
    /// has fallen it stays so.
    ghost honest: { Self → Bool };

    /// Whether calls within the content always succeed, and agree with it, and so do those that let it grow up to
    /// `reach`.
    ghost steady: { Self → Bool };

    /// How many bytes a steady store has room for.
    ghost reach: { Self → ℕ };

    /// Whether a call that fails leaves the content as it was, but for `write_parts`. So what is said of this content
    /// after a failure holds of the content before any call that may fail.
    ghost atomic: { Self → Bool };

    /// Returns the number of bytes.
    fn len(&mut self) -> Result<u64, StoreFault>
        ensures len { IfOk result (λ n. IsTrue (honest self.new) → n ≡ length (content self.old)) }
        ensures agreed { IfOk result (λ n. n ≡ length (content self.old) → honest self.new ≡ honest self.old) }
        ensures failed { OnErr result (honest self.new ≡ honest self.old) }
        ensures back { IsTrue (honest self.new) → IsTrue (honest self.old) }
        ensures content { content self.new ≡ content self.old }
        ensures synced { synced self.new ≡ synced self.old }
        ensures failures { failures self.new ≡ counted result (failures self.old) }
        ensures steady { steady self.new ≡ steady self.old }
        ensures reach { reach self.new ≡ reach self.old }
        ensures atomic { atomic self.new ≡ atomic self.old }
        ensures succeeds { IsTrue (steady self.old) → IsOk result × (honest self.new ≡ honest self.old) };

    /// Fills a buffer with the bytes from an offset on. It fails where there are fewer.
    fn read_at(&mut self, at: u64, buf: &mut [u8]) -> Result<(), StoreFault>
        ensures read { OnOk result (IsTrue (honest self.new)
            → buf.new ≡ slice_range (content self.old) at (at + length buf.old)) }
        ensures agreed { HasAgreed (content self.old) at buf.new (is_ok result) (honest self.old) (honest self.new) }
        ensures back { IsTrue (honest self.new) → IsTrue (honest self.old) }
        ensures content { content self.new ≡ content self.old }
        ensures synced { synced self.new ≡ synced self.old }
        ensures failures { failures self.new ≡ counted result (failures self.old) }
        ensures steady { steady self.new ≡ steady self.old }
        ensures reach { reach self.new ≡ reach self.old }
        ensures atomic { atomic self.new ≡ atomic self.old }
        ensures succeeds { IsTrue (steady self.old) → at + length buf.old ≤ length (content self.old)
            → IsOk result × (honest self.new ≡ honest self.old) };

    /// Lends the bytes of a range within the content, if they lie in memory. Others have to be read.
    fn lend(&self, at: u64, len: usize) -> Option<&[u8]>
        ensures within { IfSome result (λ _. at + len ≤ length (content self.now)) }
        ensures lent { IfSome result (λ bytes. bytes.now ≡ slice_range (content self.now) at (at + len)) }
    {
        None
    }

    /// Writes bytes from an offset on, past the end too. Where it fails, any bytes may stand in the
    /// range.
    fn write_at(&mut self, at: u64, bytes: &[u8]) -> Result<(), StoreFault>
        ensures written { OnOk result (content self.new ≡ written at bytes.now (content self.old)) }
        ensures torn { OnErr result (KeepsOutside at (length bytes.now) (content self.old) (content self.new)) }
        ensures undone { OnErr result (IsTrue (atomic self.old) → content self.new ≡ content self.old) }
        ensures honest { honest self.new ≡ honest self.old }
        ensures synced { synced self.new ≡ false }
        ensures failures { failures self.new ≡ counted result (failures self.old) }
        ensures steady { steady self.new ≡ steady self.old }
        ensures reach { reach self.new ≡ reach self.old }
        ensures atomic { atomic self.new ≡ atomic self.old }
        ensures succeeds { IsTrue (steady self.old) → at + length bytes.now ≤ length (content self.old) → IsOk result }
        ensures grows { IsTrue (steady self.old) → at + length bytes.now ≤ reach self.old → IsOk result };

    /// Writes the first `count` bytes of the data, which may lie in several slices, from an offset on, past the end too.
    /// Where it fails, any bytes may stand in the range.
    fn write_parts(&mut self, at: u64, count: u64, data: &Data) -> Result<(), StoreFault>
        requires range { at + count < 2 ^ 64 }
        requires some { 0 < count }
        requires enough { count ≤ length «data».now }
        ensures written { OnOk result (content self.new ≡ written at (take count «data».now) (content self.old)) }
        ensures torn { OnErr result (KeepsOutside at count (content self.old) (content self.new)) }
        ensures honest { honest self.new ≡ honest self.old }
        ensures synced { synced self.new ≡ false }
        ensures failures { failures self.new ≡ counted result (failures self.old) }
        ensures steady { steady self.new ≡ steady self.old }
        ensures reach { reach self.new ≡ reach self.old }
        ensures atomic { atomic self.new ≡ atomic self.old }
        ensures succeeds { IsTrue (steady self.old) → at + count ≤ length (content self.old) → IsOk result }
        ensures grows { IsTrue (steady self.old) → at + count ≤ reach self.old → IsOk result }
    {
        let (mut front, mut behind) = data.split_front();
        let mut done = 0;
        while done < count {
            let bytes = &front[..front.len().min((count - done) as usize)];
            self.write_at(at + done, bytes)?;
            done += bytes.len() as u64;
            (front, behind) = behind.split_front();
        }
        Ok(())
    }

    /// Cuts the content to a length, or fills it up with zeros. Where it fails, the end may lie
    /// anywhere between.
    fn set_len(&mut self, len: u64) -> Result<(), StoreFault>
        ensures resized { OnOk result (content self.new ≡ resized len (content self.old)) }
        ensures torn { OnErr result (KeepsFront len (content self.old) (content self.new)) }
        ensures undone { OnErr result (IsTrue (atomic self.old) → content self.new ≡ content self.old) }
        ensures honest { honest self.new ≡ honest self.old }
        ensures synced { synced self.new ≡ false }
        ensures failures { failures self.new ≡ counted result (failures self.old) }
        ensures steady { steady self.new ≡ steady self.old }
        ensures reach { reach self.new ≡ reach self.old }
        ensures atomic { atomic self.new ≡ atomic self.old }
        ensures succeeds { IsTrue (steady self.old) → len ≤ length (content self.old) → IsOk result }
        ensures grows { IsTrue (steady self.old) → len ≤ reach self.old → IsOk result };

    /// Waits until what was written is on the medium.
    fn sync(&mut self) -> Result<(), StoreFault>
        ensures content { content self.new ≡ content self.old }
        ensures honest { honest self.new ≡ honest self.old }
        ensures synced { synced self.new ≡ is_ok result }
        ensures failures { failures self.new ≡ counted result (failures self.old) }
        ensures steady { steady self.new ≡ steady self.old }
        ensures reach { reach self.new ≡ reach self.old }
        ensures atomic { atomic self.new ≡ atomic self.old }
        ensures succeeds { IsTrue (steady self.old) → IsOk result };
}
