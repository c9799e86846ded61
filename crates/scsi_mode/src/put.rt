//! Bytes appended to others, which have room for them.

ghost use Rattle.std.specs.Prelude.{◌≡◌, ◌+◌, ◌++◌, ◌≤◌, length};

use arrayvec::ArrayVec;

/// Appends bytes to others.
pub(crate) fn put<const N: usize>(list: &mut ArrayVec<u8, N>, bytes: &[u8])
    requires { length list.old.items + length bytes.now ≤ N }
    ensures { list.new.items ≡ list.old.items ++ bytes.now }
{
    // There is room, so it does not fail.
    let _fits = list.try_extend_from_slice(bytes);
}
