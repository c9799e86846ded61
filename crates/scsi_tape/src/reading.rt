//! The commands that return data.

ghost use Rattle.std.specs.Prelude.{◌≡◌, ◌≤◌, ℕ, List, [], length, drop, IfOk, OnErr};
ghost use Rattle.scsi_sense.specs.Given.{headroom, tailroom};
ghost use Rattle.scsi_sense.specs.Done.{good_with};
ghost use Rattle.scsi_cdb.specs.Record.{most_record};
ghost use Rattle.scsi_cdb.specs.declared.tape.TapeCommand.TheVariants.{ReadBlockLimits, Read, ReadFixed, ReadPosition};
ghost use Rattle.scsi_tape.specs.Commands.{position_data, is_told, given_with, record_outcome, read_outcome, fixed_outcome};
ghost use Rattle.scsi_tape.specs.CameOut.{IsTapeDone};
ghost use Rattle.media_tape.specs.declared.outcome.Passed.TheVariants.{Record};

use crate::sense::{self, end_of_data, filemark, read_failed};
use crate::tape_unit::TapeUnit;
use bytes::BytesMut;
use media_store::Store;
use media_tape::{FixedEnd, FixedRead, Passed};
use scsi_cdb::{FixedBlocks, IncorrectLength};
use scsi_sense::{Done, Given, HEADROOM, Sense, Status, TAILROOM};
use std::alloc::Global;
use std::mem;
use target_limits::Memory;

/// READ BLOCK LIMITS data: the greatest length of a record in bytes, and the least.
const BLOCK_LIMITS: [u8; 6] = [0x00, 0x10, 0x00, 0x00, 0x00, 0x01];

/// Returns READ POSITION data in the short form for a position in records and filemarks.
fn position_data(position: u64, is_early: bool) -> [u8; 20]
    ensures { result ≡ position_data position is_early }
{
    let flags = if position == 0 {
        0x80
    } else if is_early {
        0x40
    } else {
        0x00
    };
    let at = (position.min(u64::from(u32::MAX)) as u32).to_be_bytes();
    [
        flags, 0, 0, 0, at[0], at[1], at[2], at[3], at[0], at[1], at[2], at[3], 0, 0, 0, 0, 0, 0,
        0, 0,
    ]
}

/// Returns GOOD with these bytes, copied into an empty buffer after room for a header.
fn good_with_front(alloc: Global, buffer: &mut BytesMut, bytes: &[u8]) -> Result<Done, Memory>
    requires empty { buffer.old.items ≡ [] }
    requires few { length bytes.now ≤ most_record }
    ensures done { IfOk result (λ done. done ≡ good_with bytes.now) }
    ensures given { IfOk result (λ done. length done.given ≤ most_record) }
{
    buffer.reserve(HEADROOM + bytes.len() + TAILROOM)?;
    buffer.extend_reserved(&[0; HEADROOM]);
    buffer.extend_reserved(bytes);
    let filled = mem::replace(buffer, BytesMut::new(alloc));
    Ok(Done::good_with(Given::in_place(filled)))
}

/// Returns whether a READ reports that the record's length differs from the length requested.
fn is_told(incorrect_length: IncorrectLength, asked: u32, actual: u32) -> bool
    ensures { result ≡ is_told incorrect_length asked actual }
{
    match incorrect_length {
        IncorrectLength::Told => actual != asked,
        IncorrectLength::ToldIfLonger => asked < actual,
        IncorrectLength::Suppressed => false,
    }
}

/// Returns CHECK CONDITION with data.
fn given_with(sense: Sense, given: Given) -> Done
    requires { length given ≤ most_record }
    ensures { result ≡ given_with sense given }
{
    let moved = given.len() as u32;
    Done {
        status: Status::CheckCondition,
        sense: Some(sense),
        given,
        moved,
    }
}

/// Reports a record of this length. The buffer has room for a header, then the part that was requested, then room for
/// what is sent after it.
fn record_read(
    alloc: Global,
    buffer: &mut BytesMut,
    asked: u32,
    incorrect_length: IncorrectLength,
    actual: u32,
) -> Done
    requires few { length (drop headroom buffer.old.items) ≤ most_record }
    requires room { tailroom ≤ buffer.old.spare }
    ensures told { result ≡ record_outcome asked incorrect_length actual (drop headroom buffer.old.items) }
    ensures given { length result.given ≤ most_record }
{
    let given = Given::in_place(mem::replace(buffer, BytesMut::new(alloc)));
    if is_told(incorrect_length, asked, actual) {
        given_with(sense::incorrect_length(asked.wrapping_sub(actual)), given)
    } else {
        Done::good_with(given)
    }
}

/// Reports what READ passed.
fn told(
    alloc: Global,
    buffer: &mut BytesMut,
    asked: u32,
    incorrect_length: IncorrectLength,
    passed: Passed,
) -> Done
    requires asked { length (drop headroom buffer.old.items) ≤ asked }
    requires few { length (drop headroom buffer.old.items) ≤ most_record }
    requires room { (actual : ℕ) → passed ≡ Record actual → tailroom ≤ buffer.old.spare }
    ensures told { result ≡ read_outcome asked incorrect_length passed (drop headroom buffer.old.items) }
    ensures given { length result.given ≤ most_record }
{
    match passed {
        Passed::Nothing => Done::good(alloc),
        Passed::Record(actual) => record_read(alloc, buffer, asked, incorrect_length, actual),
        Passed::Filemark => Done::check_condition(alloc, filemark(asked)),
        Passed::EndOfData => Done::check_condition(alloc, end_of_data(asked)),
    }
}

/// Reports READ of `count` fixed blocks. The buffer has room for a header, then the blocks that were read, then room
/// for what is sent after them.
fn told_of_blocks(alloc: Global, buffer: &mut BytesMut, count: u32, read: FixedRead) -> Done
    requires few { length (drop headroom buffer.old.items) ≤ most_record }
    requires room { tailroom ≤ buffer.old.spare }
    requires within { read.given ≤ count }
    ensures told { result ≡ fixed_outcome count read (drop headroom buffer.old.items) }
    ensures given { length result.given ≤ most_record }
{
    let given = Given::in_place(mem::replace(buffer, BytesMut::new(alloc)));
    let left = count - read.given;
    match read.ended {
        FixedEnd::Whole => Done::good_with(given),
        FixedEnd::Filemark => given_with(filemark(left), given),
        FixedEnd::EndOfData => given_with(end_of_data(left), given),
        FixedEnd::Length(_) => given_with(sense::incorrect_length(left), given),
    }
}

impl<S: Store> TapeUnit<S> {
    /// Reads a record, of which `asked` bytes are requested (READ (6)). If an allocation fails, nothing changes.
    pub(crate) fn read(
        &mut self,
        alloc: Global,
        buffer: &mut BytesMut,
        asked: u32,
        incorrect_length: IncorrectLength,
    ) -> Result<Done, Memory>
        requires { buffer.old.items ≡ [] }
        ensures done { IfOk result (λ done. (bytes : List ℕ) → IsTapeDone (Read asked incorrect_length) bytes self.old self.new done) }
        ensures given { IfOk result (λ done. length done.given ≤ most_record) }
        ensures err { OnErr result (self.new ≡ self.old) }
    {
        if asked == 0 {
            return Ok(Done::good(alloc));
        }
        buffer.extend_from_slice(&[0; HEADROOM])?;
        match self.tape.read(asked, buffer, TAILROOM as u32)? {
            Ok(passed) => Ok(told(alloc, buffer, asked, incorrect_length, passed)),
            Err(_) => Ok(read_failed(alloc)),
        }
    }

    /// Reads fixed blocks (READ (6)). If an allocation fails, nothing changes.
    pub(crate) fn read_fixed(
        &mut self,
        alloc: Global,
        buffer: &mut BytesMut,
        blocks: FixedBlocks,
    ) -> Result<Done, Memory>
        requires { buffer.old.items ≡ [] }
        ensures done { IfOk result (λ done. (bytes : List ℕ) → IsTapeDone (ReadFixed blocks) bytes self.old self.new done) }
        ensures given { IfOk result (λ done. length done.given ≤ most_record) }
        ensures err { OnErr result (self.new ≡ self.old) }
    {
        let count = blocks.count();
        if count == 0 {
            return Ok(Done::good(alloc));
        }
        buffer.extend_from_slice(&[0; HEADROOM])?;
        let done = self
            .tape
            .read_fixed(count, blocks.block_length(), buffer, TAILROOM as u32)?;
        match done {
            Ok(read) => Ok(told_of_blocks(alloc, buffer, count, read)),
            Err(_) => Ok(read_failed(alloc)),
        }
    }

    /// Returns the limits of a record's length (READ BLOCK LIMITS).
    pub(crate) fn read_block_limits(
        &self,
        alloc: Global,
        buffer: &mut BytesMut,
    ) -> Result<Done, Memory>
        requires { buffer.old.items ≡ [] }
        ensures done { IfOk result (λ done. (bytes : List ℕ) → IsTapeDone ReadBlockLimits bytes self.now self.now done) }
        ensures given { IfOk result (λ done. length done.given ≤ most_record) }
    {
        good_with_front(alloc, buffer, &BLOCK_LIMITS)
    }

    /// Returns the position in the short form (READ POSITION).
    pub(crate) fn read_position(&self, alloc: Global, buffer: &mut BytesMut) -> Result<Done, Memory>
        requires { buffer.old.items ≡ [] }
        ensures done { IfOk result (λ done. (bytes : List ℕ) → IsTapeDone ReadPosition bytes self.now self.now done) }
        ensures given { IfOk result (λ done. length done.given ≤ most_record) }
    {
        let bytes = position_data(self.tape.position(), self.tape.is_early());
        good_with_front(alloc, buffer, &bytes)
    }
}
