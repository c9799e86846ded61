//! Data as it lies, slice after slice.

ghost use Rattle.std.specs.Prelude.{◌≡◌, ◌<◌, ◌≤◌, ◌++◌, length, take, drop};

use data_parts::Data;

/// Returns the slice that comes first in some bytes followed by data, and the data after that slice.
pub(crate) fn next_slice<'a>(bytes: &'a [u8], behind: Data<'a>) -> (&'a [u8], Data<'a>)
    ensures joined { bytes.now ++ behind.entry ≡ result.0.now ++ result.1 }
    ensures some { 0 < length (bytes.now ++ behind.entry) → 0 < length result.0.now }
{
    if bytes.is_empty() {
        return behind.split_front();
    }
    (bytes, behind)
}

/// Fills a buffer with the next of some bytes followed by data. Returns the bytes after them, and the data after these.
pub(crate) fn fill<'a>(bytes: &'a [u8], behind: Data<'a>, room: &mut [u8]) -> (&'a [u8], Data<'a>)
    requires enough { length room.old ≤ length (bytes.now ++ behind) }
    ensures filled { room.new ≡ take (length room.old) (bytes.now ++ behind.entry) }
    ensures joined { result.0.now ++ result.1 ≡ drop (length room.old) (bytes.now ++ behind.entry) }
{
    let (mut front, mut behind) = (bytes, behind);
    let mut done = 0;
    while done < room.len() {
        (front, behind) = next_slice(front, behind);
        let part = front.len().min(room.len() - done);
        let (next, later) = front.split_at(part);
        room[done..done + part].copy_from_slice(next);
        done += part;
        front = later;
    }
    (front, behind)
}
