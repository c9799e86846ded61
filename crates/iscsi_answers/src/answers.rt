//! The answers to a command.

ghost use Rattle.std.specs.Prelude.{◌≡◌, ◌≤◌, ◌<◌, ◌+◌, ◌++◌, length, take, drop, option_map, flat_map};
ghost use Rattle.scsi_sense.specs.Given.{headroom, tailroom};
ghost use Rattle.scsi_sense.specs.Sense.{sense_bytes};
ghost use Rattle.iscsi_pdu.specs.Answer.{spelling};
ghost use Rattle.iscsi_login.specs.Values.{AreInRange};
ghost use Rattle.iscsi_outbox.specs.Answer.{AreAligned, answered};
ghost use Rattle.iscsi_answers.specs.Answers.{expected_length, data_sent, scsi_answer, command_answers, residual_of};
ghost use Rattle.scsi_disk.specs.DiskCommands.{most_given};
ghost use Rattle.iscsi_answers.specs.Room.{room_for};

use crate::data_ins::{count_of, put_alone, put_data, shared_fields};
use crate::making_room::{LONGEST_RESPONSE, is_long, limits_for};
use bytes::BytesMut;
use iscsi_login::Values;
use iscsi_outbox::{DataIns, Limits, Outbox, SharedFields};
use iscsi_pdu::{Answer, Frame, Residual, ScsiResponse, Stamp};
use scsi_sense::{Done, Given, HEADROOM};
use std::alloc::Global;

/// Returns by how many bytes more or less were moved than the initiator expected (RFC 7143 §11.4.5).
fn residual(expected: u32, moved: u32) -> Residual
    ensures { result ≡ residual_of expected moved }
{
    if moved > expected {
        Residual::Overflow(moved - expected)
    } else if moved < expected {
        Residual::Underflow(expected - moved)
    } else {
        Residual::None
    }
}

/// Returns the sense data of a command, if there is some.
fn sense_data(done: &Done) -> Option<[u8; 18]>
    ensures { result ≡ option_map sense_bytes done.now.sense }
{
    match &done.sense {
        None => None,
        Some(sense) => Some(sense.bytes()),
    }
}

/// Returns how many bytes the initiator expects. If the command returned data, that is none, unless it reads and does
/// not write.
fn expected(frame: &Frame, done: &Done) -> u32
    ensures { result ≡ expected_length frame.now done.now }
{
    let header = &frame.header;
    if done.given.is_empty() || header.is_read() && !header.is_write() {
        return header.expected_transfer_length();
    }
    0
}

/// Returns the SCSI Response of a command, which follows this number of Data-Ins (RFC 7143 §11.4).
#[tactic(auto, unfolding(crate::specs::Answers::scsi_answer))]
fn response(numbers: Stamp, frame: &Frame, done: &Done, data_ins: u32) -> Answer<'static>
    ensures value { result ≡ scsi_answer numbers frame.now done.now data_ins }
    ensures short { length (spelling result) ≤ LONGEST_RESPONSE }
    ensures some { 0 < length (spelling result) }
{
    Answer::ScsiResponse(ScsiResponse {
        initiator_task_tag: frame.header.initiator_task_tag(),
        stamp: numbers,
        status: done.status.number(),
        residual: residual(expected(frame, done), done.moved),
        exp_data_sn: data_ins,
        sense: sense_data(done),
    })
}

/// Returns how many bytes of data are sent to the initiator: of what the command returned, no more than it expects.
fn sent_length(frame: &Frame, done: &Done) -> usize
    ensures value { result ≡ length (data_sent frame.now done.now) }
    ensures data { take result done.now.given ≡ data_sent frame.now done.now }
    ensures within { result ≤ length done.now.given }
{
    (expected(frame, done) as usize).min(done.given.len())
}

/// Returns the buffer of a command's data, cut to the part that is sent.
fn sent_buffer(given: Given, sent: usize) -> BytesMut
    requires some { 0 < sent }
    requires within { sent ≤ length given }
    requires short { length given ≤ most_given }
    ensures data { drop headroom result.items ≡ take sent given }
    ensures room { length result.items ≡ headroom + sent }
    ensures spare { tailroom ≤ result.spare }
{
    let mut buffer = given.into_buffer();
    buffer.truncate(HEADROOM + sent);
    buffer
}

/// Returns the bytes of a command's data that are sent, where it lies together.
fn sent_slice(buffer: &BytesMut, sent: usize) -> &[u8]
    requires { sent ≤ length (drop headroom buffer.now.items) }
    ensures { result.now ≡ take sent (drop headroom buffer.now.items) }
{
    if sent == 0 {
        return &[];
    }
    &buffer.as_slice()[HEADROOM..HEADROOM + sent]
}

/// Returns the answers to a command that returned much data, of which `sent` bytes are sent, and `last`, which ends them.
/// No byte of the data is copied. If it lies in pieces as they are sent, all that is sent lies together.
fn long_answers(
    given: Given,
    sent: usize,
    shared: SharedFields,
    limits: Limits,
    last: &Answer,
) -> DataIns
    requires some { 0 < sent }
    requires within { sent ≤ length given }
    requires short { length given ≤ most_given }
    requires last { length (spelling last.now) ≤ LONGEST_RESPONSE }
    requires limits { AreAligned limits }
    ensures { result ≡ answered shared limits (take sent given) (spelling last.now) }
{
    let laid = match limits.piece() {
        Some(piece) if sent == given.len() => given.into_pieces(piece),
        _ => Err(given),
    };
    match laid {
        Ok((buffer, count)) => DataIns::in_pieces(buffer, count, shared, limits, last),
        Err(given) => DataIns::new(sent_buffer(given, sent), shared, limits, last),
    }
}

/// Queues a command's Data-Ins and its SCSI Response. There must be room for them
/// ([`make_room`](crate::make_room)), so no memory is allocated. Returns a buffer for reuse, if there is
/// one.
///
/// Large data, for which no such room was made, is queued without a copy. Small data that fits one PDU is sent from its
/// own buffer, if the queue is empty. Anything else is copied.
pub fn put_answers(
    alloc: Global,
    out: &mut Outbox,
    numbers: Stamp,
    values: &Values,
    frame: &Frame,
    done: Done,
) -> Option<BytesMut>
    requires values { AreInRange values.now }
    requires given { length done.given ≤ most_given }
    requires room { room_for values.now frame.now ≤ out.old.spare }
    requires slot { 1 ≤ out.old.slots }
    ensures { out.new.items ≡ out.old.items ++ flat_map spelling (command_answers numbers values.now frame.now done) }
{
    let sent = sent_length(frame, &done);
    let count = count_of(values, sent);
    let response = response(numbers, frame, &done, count as u32);
    if let Some(limits) = limits_for(values, frame, sent) {
        let shared = shared_fields(numbers, frame);
        let answers = long_answers(done.given, sent, shared, limits, &response);
        out.put_data(alloc, answers);
        return None;
    }
    if count == 1 && !is_long(frame) && out.is_empty() {
        let buffer = sent_buffer(done.given, sent);
        return Some(put_alone(out, numbers, values, frame, buffer, &response));
    }
    let buffer = done.given.into_buffer();
    put_data(out, numbers, values, frame, sent_slice(&buffer, sent));
    out.put(&response);
    Some(buffer)
}
