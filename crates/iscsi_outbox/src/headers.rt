//! Headers in front of data that lies in pieces.

ghost use Rattle.std.specs.Prelude.{◌≡◌, ◌<◌, ◌^◌, length, flat_map};
ghost use Rattle.std.specs.List.{enumerate_from};
ghost use Rattle.scsi_sense.specs.Given.{gathered, IsLaid};
ghost use Rattle.iscsi_transfer.specs.DataIn.{pieces_of};
ghost use Rattle.iscsi_outbox.specs.Answer.{AreAligned, AreEven, shorter, unpadded};

use crate::cursor::put_over;
use crate::limits::Limits;
use crate::shared::SharedFields;
use bytes::BytesMut;
use iscsi_transfer::{piece_at, piece_count};
use scsi_sense::HEADROOM;

/// Writes the headers of a command's Data-Ins into the room in front of its pieces. They lie in the buffer as they are
/// sent, `count` of them, with `size` bytes of data. No byte of the data is moved.
pub(crate) fn put_headers(
    buffer: &mut BytesMut,
    count: usize,
    size: usize,
    shared: SharedFields,
    limits: Limits,
)
    requires limits { AreAligned limits }
    requires even { AreEven limits }
    requires laid { IsLaid (shorter limits) count buffer.old.items }
    requires size { size ≡ length (gathered (shorter limits) count buffer.old.items) }
    requires short { size < 2 ^ 32 }
    ensures items { buffer.new.items ≡ flat_map (unpadded shared (gathered (shorter limits) count buffer.old.items))
        (enumerate_from 0 (pieces_of size limits.burst limits.segment)) }
    ensures long { length buffer.new.items ≡ length buffer.old.items }
    ensures spare { buffer.new.spare ≡ buffer.old.spare }
{
    let mut at = 0;
    for number in 0..piece_count(size, limits.burst, limits.segment) {
        let piece = piece_at(size, limits.burst, limits.segment, number);
        let begins = at + HEADROOM;
        let ends = begins + piece.length;
        let header = shared.header(number, piece, &buffer.as_slice()[begins..ends]);
        put_over(buffer, at, &header);
        at = ends;
    }
}
