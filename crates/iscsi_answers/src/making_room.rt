//! Room for the answers to a command, made before the command is done.

ghost use Rattle.std.specs.Prelude.{◌≡◌, ◌≤◌, ◌<◌, ◌+◌, ◌*◌, nat_lt, is_some, IfSome, IfNone, OnOk};
ghost use Rattle.iscsi_login.specs.Values.{AreInRange};
ghost use Rattle.iscsi_outbox.specs.Answer.{AreAligned, limits_of, shorter};
ghost use Rattle.media_block.specs.Blocks.{block_length};
ghost use Rattle.scsi_disk.specs.DiskCommands.{most_given};
ghost use Rattle.iscsi_answers.specs.Room.{room_for, cuts_long, lies_in_pieces, most_copied, most_pieces, most_sent as most_data_sent};

use crate::data_ins::count_of;
use iscsi_login::Values;
use iscsi_outbox::{Limits, Outbox};
use iscsi_pdu::Frame;
use media_block::BLOCK_LENGTH;
use scsi_cdb::MOST_BLOCKS;
use target_limits::Memory;

/// The longest SCSI Response, in bytes: its header, and sense data with its length.
pub(crate) const LONGEST_RESPONSE: usize = 68;

/// The most bytes that a SCSI Data-In takes, not counting its data: its header and the padding.
const LONGEST_FRAME: usize = 51;

/// The most data that a command returns, in bytes.
const MOST_GIVEN: usize = MOST_BLOCKS as usize * BLOCK_LENGTH;

/// If a command may return more bytes than this, its data is sent from where it lies, provided that its pieces may be
/// as long.
const LONG: usize = 16_384;

/// The most data of such a command that is copied, in bytes.
const MOST_COPIED: usize = 2048;

/// Returns how much data may be sent in answer to a command, in bytes at most.
fn most_sent(frame: &Frame) -> usize
    ensures value { result ≡ most_data_sent frame.now }
    ensures bound { result ≤ most_given }
{
    let header = &frame.header;
    if !header.is_read() || header.is_write() {
        return 0;
    }
    MOST_GIVEN.min(header.expected_transfer_length() as usize)
}

/// Returns whether a command may return much data, so that its buffer may be large.
pub(crate) fn is_long(frame: &Frame) -> bool
    ensures { result ≡ nat_lt 16384 (most_data_sent frame.now) }
{
    most_sent(frame) > LONG
}

/// Returns the multiples at which data is cut that is sent from where it lies, or `None` if its pieces would be short
/// or padded.
fn long_limits(values: &Values) -> Option<Limits>
    requires { AreInRange values.now }
    ensures some { is_some result ≡ cuts_long values.now }
    ensures value { IfSome result (λ limits. limits ≡ limits_of values.now) }
    ensures aligned { IfSome result (λ limits. AreAligned limits) }
{
    let limits = Limits::of(values)?;
    if limits.burst < LONG || limits.segment < LONG {
        return None;
    }
    Some(limits)
}

/// Returns how much data of a command is copied, in bytes at most.
fn most_copied(values: &Values, frame: &Frame) -> usize
    requires { AreInRange values.now }
    ensures value { result ≡ most_copied values.now frame.now }
    ensures bound { result ≤ most_given }
{
    if is_long(frame) && long_limits(values).is_some() {
        return MOST_COPIED;
    }
    most_sent(frame)
}

/// Returns the multiples at which `sent` bytes of a command's data are cut, if they are sent from where they lie.
/// `None` means that they are copied, and that there is room for that.
pub(crate) fn limits_for(values: &Values, frame: &Frame, sent: usize) -> Option<Limits>
    requires values { AreInRange values.now }
    requires sent { sent ≤ most_data_sent frame.now }
    ensures copied { IfNone result (sent ≤ most_copied values.now frame.now) }
    ensures some { IfSome result (λ limits. 0 < sent) }
    ensures value { IfSome result (λ limits. limits ≡ limits_of values.now) }
    ensures aligned { IfSome result (λ limits. AreAligned limits) }
{
    if sent <= most_copied(values, frame) {
        return None;
    }
    long_limits(values)
}

/// Returns the length of the pieces in which the data of a command is to lie once it is read, in blocks. Each piece lies
/// after room for its header. `None` means that the data is to lie together: there may be little of it, or it is not cut
/// at whole blocks.
pub fn piece_for(values: &Values, frame: &Frame) -> Option<u32>
    requires { AreInRange values.now }
    ensures some { is_some result ≡ lies_in_pieces values.now frame.now }
    ensures value { IfSome result (λ piece. block_length * piece ≡ shorter (limits_of values.now)) }
{
    if !is_long(frame) {
        return None;
    }
    let piece = long_limits(values)?.piece()?;
    if piece % BLOCK_LENGTH != 0 {
        return None;
    }
    Some((piece / BLOCK_LENGTH) as u32)
}

/// Returns how many Data-Ins are copied for a command, at most.
fn most_pieces(values: &Values, frame: &Frame) -> usize
    requires { AreInRange values.now }
    ensures value { result ≡ most_pieces values.now frame.now }
    ensures bound { result ≤ most_given }
{
    count_of(values, most_copied(values, frame))
}

/// Returns how many bytes the answers to a command may take, at most, not counting data that is sent from where it
/// lies.
pub(crate) fn room_for(values: &Values, frame: &Frame) -> usize
    requires { AreInRange values.now }
    ensures { result ≡ room_for values.now frame.now }
{
    most_pieces(values, frame) * LONGEST_FRAME + most_copied(values, frame) + LONGEST_RESPONSE
}

/// Makes room for all answers to a command. If an allocation fails, what waits stays the same.
pub fn make_room(out: &mut Outbox, values: &Values, frame: &Frame) -> Result<(), Memory>
    requires { AreInRange values.now }
    ensures room { OnOk result (room_for values.now frame.now ≤ out.new.spare) }
    ensures slot { OnOk result (1 ≤ out.new.slots) }
    ensures same { out.new.items ≡ out.old.items }
{
    out.reserve(room_for(values, frame))?;
    Ok(())
}
