//! The fields that all SCSI Data-Ins of a command have in common.

ghost use Rattle.std.specs.Prelude.{◌≡◌, ◌<◌, ◌≤◌, ◌^◌, length};
ghost use Rattle.iscsi_pdu.specs.DataIn.{data_in_header};
ghost use Rattle.iscsi_pdu.specs.Segment.{most_data};
ghost use Rattle.iscsi_outbox.specs.Answer.{fields_with};

use iscsi_pdu::DataIn;
use iscsi_transfer::Piece;
use scsi_sense::HEADROOM;

/// The fields that all SCSI Data-Ins of a command have in common (RFC 7143 §11.7).
#[derive(Clone, Copy)]
pub struct SharedFields {
    /// The Initiator Task Tag of the command.
    pub initiator_task_tag: u32,
    pub exp_cmd_sn: u32,
    pub max_cmd_sn: u32,
}

impl SharedFields {
    /// Returns the header of the Data-In that carries a piece, which has this number and these bytes.
    pub(crate) fn header(self, number: usize, piece: Piece, body: &[u8]) -> [u8; HEADROOM]
        requires number { number < 2 ^ 32 }
        requires offset { piece.offset < 2 ^ 32 }
        requires short { length body.now ≤ most_data }
        ensures { result ≡ data_in_header (fields_with self body.now (number, piece)) }
    {
        DataIn {
            is_final: piece.is_final,
            initiator_task_tag: self.initiator_task_tag,
            exp_cmd_sn: self.exp_cmd_sn,
            max_cmd_sn: self.max_cmd_sn,
            data_sn: number as u32,
            buffer_offset: piece.offset as u32,
            body,
        }
        .header()
    }
}
