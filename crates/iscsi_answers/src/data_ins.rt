//! The data of a command in SCSI Data-Ins (RFC 7143 §11.7).

ghost use Rattle.std.specs.Prelude.{◌≡◌, ◌≤◌, ◌<◌, ◌+◌, ◌++◌, Some, [], length, drop, flat_map, slice_get};
ghost use Rattle.scsi_sense.specs.Given.{headroom};
ghost use Rattle.iscsi_pdu.specs.Answer.{spelling};
ghost use Rattle.iscsi_pdu.specs.Segment.{most_data, segment};
ghost use Rattle.iscsi_login.specs.Values.{AreInRange};
ghost use Rattle.iscsi_transfer.specs.DataIn.{pieces_of, piece_count};
ghost use Rattle.iscsi_answers.specs.Answers.{sent_pieces, data_in as data_in_answer, data_answers, shared_fields};
ghost use Rattle.scsi_disk.specs.DiskCommands.{most_given};

use bytes::BytesMut;
use iscsi_login::Values;
use iscsi_outbox::{Outbox, SharedFields};
use iscsi_pdu::{Answer, DataIn, Frame, Stamp, padding};
use iscsi_transfer::{Piece, piece_at, piece_count};
use scsi_sense::HEADROOM;

/// Returns in how many pieces data of this length is sent.
pub(crate) fn count_of(values: &Values, length: usize) -> usize
    requires { AreInRange values.now }
    ensures { result ≡ piece_count length values.now.max_burst_length values.now.max_recv_data_segment_length }
{
    piece_count(
        length,
        values.max_burst_length as usize,
        values.max_recv_data_segment_length as usize,
    )
}

/// Returns the piece with this number, of data of this length.
fn piece_of(values: &Values, length: usize, number: usize) -> Piece
    requires values { AreInRange values.now }
    requires number { number < piece_count length values.now.max_burst_length values.now.max_recv_data_segment_length }
    ensures { slice_get (pieces_of length values.now.max_burst_length values.now.max_recv_data_segment_length) number ≡ Some result }
{
    piece_at(
        length,
        values.max_burst_length as usize,
        values.max_recv_data_segment_length as usize,
        number,
    )
}

/// Returns a SCSI Data-In with a piece of a command's data (RFC 7143 §11.7).
fn data_in<'a>(
    numbers: Stamp,
    frame: &Frame,
    sent: &'a [u8],
    data_sn: usize,
    piece: Piece,
) -> DataIn<'a>
    requires within { piece.offset + piece.length ≤ length sent.now }
    requires short { piece.length ≤ most_data }
    requires sent { length sent.now ≤ most_given }
    requires data_sn { data_sn < most_given }
    ensures { Answer.DataIn result ≡ data_in_answer numbers frame.now sent.now (data_sn, piece) }
{
    DataIn {
        is_final: piece.is_final,
        initiator_task_tag: frame.header.initiator_task_tag(),
        exp_cmd_sn: numbers.exp_cmd_sn,
        max_cmd_sn: numbers.max_cmd_sn,
        data_sn: data_sn as u32,
        buffer_offset: piece.offset as u32,
        body: &sent[piece.offset..piece.offset + piece.length],
    }
}

/// Returns the fields that all SCSI Data-Ins of a command have in common.
pub(crate) fn shared_fields(numbers: Stamp, frame: &Frame) -> SharedFields
    ensures { result ≡ shared_fields numbers frame.now }
{
    SharedFields {
        initiator_task_tag: frame.header.initiator_task_tag(),
        exp_cmd_sn: numbers.exp_cmd_sn,
        max_cmd_sn: numbers.max_cmd_sn,
    }
}

/// Writes the Data-Ins of a command into room that was reserved for them.
#[tactic(auto, unfolding(crate::specs::Answers::data_answers))]
pub(crate) fn put_data(
    out: &mut Outbox,
    numbers: Stamp,
    values: &Values,
    frame: &Frame,
    sent: &[u8],
)
    requires values { AreInRange values.now }
    requires short { length sent.now ≤ most_given }
    requires room { length (flat_map spelling (data_answers numbers values.now frame.now sent.now)) ≤ out.old.spare }
    ensures written { out.new.items ≡ out.old.items ++ flat_map spelling (data_answers numbers values.now frame.now sent.now) }
    ensures spare { out.new.spare + length (flat_map spelling (data_answers numbers values.now frame.now sent.now)) ≡ out.old.spare }
{
    let length = sent.len();
    for data_sn in 0..count_of(values, length) {
        let piece = piece_of(values, length, data_sn);
        let answer = Answer::DataIn(data_in(numbers, frame, sent, data_sn, piece));
        out.put(&answer);
    }
}

/// Writes a header into the room in front of data.
fn put_over(buffer: &mut BytesMut, header: &[u8; HEADROOM])
    requires { headroom ≤ length buffer.old.items }
    ensures items { buffer.new.items ≡ header.now ++ drop headroom buffer.old.items }
    ensures spare { buffer.new.spare ≡ buffer.old.spare }
{
    let room = &mut buffer.as_mut_slice()[0..HEADROOM];
    room.copy_from_slice(header);
}

/// Writes a header into the room in front of data, and the padding after the data.
fn put_header(buffer: &mut BytesMut, header: &[u8; HEADROOM])
    requires room { headroom ≤ length buffer.old.items }
    requires spare { 3 ≤ buffer.old.spare }
    ensures items { buffer.new.items ≡ header.now ++ segment (drop headroom buffer.old.items) }
    ensures spare { buffer.old.spare ≤ buffer.new.spare + 3 }
{
    let length = buffer.len() - HEADROOM;
    let padding = padding(length);
    put_over(buffer, header);
    buffer.extend_reserved(&[0; 3][..padding]);
}

/// Makes the Data-In of a command around its data, which is one piece and lies after room for a header. No byte of it
/// is copied.
fn put_around(buffer: &mut BytesMut, numbers: Stamp, values: &Values, frame: &Frame)
    requires values { AreInRange values.now }
    requires room { headroom ≤ length buffer.old.items }
    requires spare { 3 ≤ buffer.old.spare }
    requires short { length (drop headroom buffer.old.items) ≤ most_given }
    requires one { length (sent_pieces values.now (drop headroom buffer.old.items)) ≡ 1 }
    ensures written { buffer.new.items ≡ flat_map spelling (data_answers numbers values.now frame.now (drop headroom buffer.old.items)) }
    ensures spare { buffer.old.spare ≤ buffer.new.spare + 3 }
{
    let header = {
        let sent = &buffer.as_slice()[HEADROOM..];
        let piece = piece_of(values, sent.len(), 0);
        data_in(numbers, frame, sent, 0, piece).header()
    };
    put_header(buffer, &header);
}

/// Begins an empty outbox with a command's data, which is one piece, and with `last`, which ends the command. The data
/// lies in `buffer` after room for a header, and no byte of it is copied. Returns the buffer that was there.
pub(crate) fn put_alone(
    out: &mut Outbox,
    numbers: Stamp,
    values: &Values,
    frame: &Frame,
    mut buffer: BytesMut,
    last: &Answer,
) -> BytesMut
    requires values { AreInRange values.now }
    requires none { out.old.items ≡ [] }
    requires room { headroom ≤ length buffer.items }
    requires spare { length (spelling last.now) + 3 ≤ buffer.spare }
    requires short { length (drop headroom buffer.items) ≤ most_given }
    requires one { length (sent_pieces values.now (drop headroom buffer.items)) ≡ 1 }
    ensures { out.new.items ≡ flat_map spelling (data_answers numbers values.now frame.now (drop headroom buffer.items)) ++ spelling last.now }
{
    put_around(&mut buffer, numbers, values, frame);
    // There is room for it, so this does not fail.
    let _ = last.write(&mut buffer);
    out.begin_with(buffer)
}
