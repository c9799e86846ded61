//! Writing answers into reserved room.

ghost use Rattle.std.specs.Prelude.{◌≡◌, ◌≤◌, ◌+◌, ◌++◌, length};
ghost use Rattle.iscsi_pdu.specs.Answer.{spelling};

use bytes::BytesMut;
use iscsi_pdu::Answer;

/// Writes an answer into room that was reserved for it.
pub(crate) fn put(buffer: &mut BytesMut, answer: &Answer)
    requires { length (spelling answer.now) ≤ buffer.old.spare }
    ensures written { buffer.new.items ≡ buffer.old.items ++ spelling answer.now }
    ensures spare { buffer.new.spare + length (spelling answer.now) ≡ buffer.old.spare }
{
    // There is room for it, so this does not fail.
    let _ = answer.write(buffer);
}
