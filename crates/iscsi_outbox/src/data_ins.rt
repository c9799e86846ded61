//! The answer to a command that returned data.

ghost use Rattle.std.specs.Prelude.{◌≡◌, ◌<◌, ◌≤◌, ◌+◌, ◌^◌, length, drop};
ghost use Rattle.scsi_sense.specs.Given.{headroom, gathered, IsLaid};
ghost use Rattle.iscsi_pdu.specs.Answer.{spelling};
ghost use Rattle.iscsi_outbox.specs.Answer.{AreAligned, answered, AreEven, shorter};
ghost use Rattle.iscsi_outbox.specs.Offered.{AreWhole};

use crate::cursor::Cursor;
use crate::headers::put_headers;
use crate::limits::Limits;
use crate::put::put;
use crate::shared::SharedFields;
use crate::unsent::Unsent;
use bytes::BytesMut;
use iscsi_pdu::{Answer, padding};
use iscsi_transfer::piece_count;
use scsi_sense::HEADROOM;
use std::marker::Model;

/// The answer to a command that returned data: its SCSI Data-Ins (RFC 7143 §11.7) and the PDU after them. It is sent
/// from where the data lies: no byte of it is copied. Clauses see its bytes.
#[derive(Drop)]
pub struct DataIns {
    cursor: Cursor,
    rest: usize,
}

impl Model for DataIns {
    ghost use Rattle.std.specs.Prelude.{◌≡◌, List, ℕ, length};
    ghost use Rattle.iscsi_outbox.specs.Cursor.{left, IsReady};
    ghost use Rattle.iscsi_outbox.specs.Offered.{AreWhole};

    ghost Value = { List ℕ };

    ghost view = { λ d. left d.cursor };

    ghost invariant = { λ d. IsReady d.cursor × (d.rest ≡ length (left d.cursor)) × AreWhole (left d.cursor) };
}

impl DataIns {
    /// Creates the answer from data that lies in a buffer after room for a header ([`HEADROOM`]). Its Data-Ins have the
    /// fields of `shared`. `last`, which ends the answer, is appended to the data. Allocates no memory.
    pub fn new(buffer: BytesMut, shared: SharedFields, limits: Limits, last: &Answer) -> DataIns
        requires room { headroom ≤ length buffer.items }
        requires short { length (drop headroom buffer.items) < 2 ^ 32 }
        requires spare { length (spelling last.now) + 3 ≤ buffer.spare }
        requires limits { AreAligned limits }
        ensures { result ≡ answered shared limits (drop headroom buffer.items) (spelling last.now) }
    {
        let length = buffer.len() - HEADROOM;
        let count = piece_count(length, limits.burst, limits.segment);
        let rest = HEADROOM * count + length + padding(length) + last.length();
        DataIns {
            cursor: Cursor::new(buffer, shared, limits, last),
            rest,
        }
    }

    /// Creates the answer from data that lies in a buffer in `count` pieces, just as they are sent, each after room for
    /// its header. Their length but for the last is that of [`Limits::piece`]. All headers are written at once, and
    /// `last`, which ends the answer, is appended, so that all of it lies together. Allocates no memory.
    pub fn in_pieces(
        mut buffer: BytesMut,
        count: usize,
        shared: SharedFields,
        limits: Limits,
        last: &Answer,
    ) -> DataIns
        requires even { AreEven limits }
        requires laid { IsLaid (shorter limits) count buffer.items }
        requires short { length (gathered (shorter limits) count buffer.items) < 2 ^ 32 }
        requires spare { length (spelling last.now) + 3 ≤ buffer.spare }
        requires limits { AreAligned limits }
        ensures { result ≡ answered shared limits (gathered (shorter limits) count buffer.items) (spelling last.now) }
    {
        let size = buffer.len() - HEADROOM * count;
        put_headers(&mut buffer, count, size, shared, limits);
        buffer.extend_reserved(&[0; 3][..padding(size)]);
        put(&mut buffer, last);
        let rest = buffer.len();
        DataIns {
            cursor: Cursor::ready(buffer, shared, limits),
            rest,
        }
    }

    /// Begins to send the answer.
    pub(crate) fn into_unsent(self) -> Unsent
        ensures same { result ≡ self }
        ensures whole { AreWhole self }
    {
        Unsent {
            cursor: self.cursor,
            rest: self.rest,
        }
    }
}
