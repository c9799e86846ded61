//! The tape of a unit, and any command to it.

ghost use Rattle.std.specs.Prelude.{◌≡◌, ◌≤◌, [], true, length, IsTrue, IfOk, OnErr};
ghost use Rattle.scsi_cdb.specs.Record.{most_record};
ghost use Rattle.scsi_tape.specs.State.{not_ready, opened_unit};
ghost use Rattle.scsi_tape.specs.Commands.{bytes_needed};
ghost use Rattle.scsi_tape.specs.CameOut.{IsTapeDone, tape_done, is_steady, IsTrustedTape, AreSynced};

use bytes::BytesMut;
use media_store::Store;
use media_tape::Tape;
use scsi_cdb::{Need, TapeCommand};
use scsi_sense::{Condition, Done, Sense};
use std::alloc::Global;
use std::marker::Model;
use target_limits::Memory;

/// Returns the number of bytes of data that a command needs. Of a longer payload the first bytes are used.
pub fn bytes_needed(command: &TapeCommand) -> usize
    ensures { result ≡ bytes_needed command.now }
{
    match command {
        TapeCommand::Write(record) => record.bytes() as usize,
        TapeCommand::WriteFixed(blocks) => blocks.bytes() as usize,
        TapeCommand::Rewind
        | TapeCommand::ReadBlockLimits
        | TapeCommand::Read { .. }
        | TapeCommand::ReadFixed(_)
        | TapeCommand::WriteFilemarks(_)
        | TapeCommand::Space { .. }
        | TapeCommand::SpaceToEndOfData
        | TapeCommand::Erase
        | TapeCommand::LoadUnload { .. }
        | TapeCommand::Locate(_)
        | TapeCommand::ReadPosition => 0,
    }
}

/// A tape, whether its writes have succeeded so far, and the length of its fixed blocks.
#[derive(Drop)]
pub struct TapeUnit<S: Store> {
    pub(crate) tape: Tape<S>,
    pub(crate) is_working: bool,
    /// In bytes; 0 if it has none.
    pub(crate) block_length: u32,
}

impl<S: Store> Model for TapeUnit<S> {
    ghost use Rattle.scsi_tape.specs.State.{TapeUnitState};

    ghost Value = { TapeUnitState };

    ghost view = { λ unit. record { tape = unit.tape; is_working = unit.is_working; block_length = unit.block_length } };
}

impl<S: Store> TapeUnit<S> {
    /// Returns a tape that was just opened, which has no fixed block length.
    pub fn new(tape: Tape<S>) -> TapeUnit<S>
        ensures { result ≡ opened_unit tape }
    {
        TapeUnit {
            tape,
            is_working: true,
            block_length: 0,
        }
    }

    /// Returns whether the tape is loaded.
    pub fn is_loaded(&self) -> bool
        ensures { result ≡ self.now.tape.is_loaded }
    {
        self.tape.is_loaded()
    }

    /// Returns the length of its fixed blocks in bytes, 0 if it has none (SSC-4 "Fixed-block transfers").
    pub fn block_length(&self) -> u32
        ensures { result ≡ self.now.block_length }
    {
        self.block_length
    }

    /// Sets the length of its fixed blocks.
    pub fn set_block_length(&mut self, block_length: u32)
        ensures { self.new ≡ record self.old { block_length = block_length } }
    {
        self.block_length = block_length;
    }

    /// Returns why an operation with this need cannot be done now, or `None`. After a failed write that is INTERNAL
    /// TARGET FAILURE; if the tape is not loaded, MEDIUM NOT PRESENT.
    pub fn not_ready(&self, need: Need) -> Option<Sense>
        ensures { result ≡ not_ready need self.now }
    {
        match need {
            Need::Nothing => None,
            Need::Working | Need::Ready if !self.is_working => {
                Some(Sense::new(Condition::InternalTargetFailure))
            }
            Need::Ready if !self.tape.is_loaded() => Some(Sense::new(Condition::MediumNotPresent)),
            Need::Working | Need::Ready => None,
        }
    }

    /// Carries out a command with the data that it needs, in a buffer that is empty. Data that it returns lies in the
    /// buffer after room for a header, and before room for what is sent after it. If it returns none, the buffer is
    /// left as it is. If an allocation fails, nothing changes; if the store fails, the sense data reports it.
    pub fn carry_out(
        &mut self,
        alloc: Global,
        buffer: &mut BytesMut,
        command: TapeCommand,
        data: &[u8],
    ) -> Result<Done, Memory>
        requires empty { buffer.old.items ≡ [] }
        requires enough { bytes_needed command ≤ length «data».now }
        ensures done { IfOk result (IsTapeDone command «data».now self.old self.new) }
        ensures exact { IfOk result (λ done. IsTrustedTape self.old.tape self.new.tape → (self.new, done) ≡ tape_done command «data».now self.old) }
        ensures sure { IfOk result (λ done. IsTrue self.old.tape.honest → IsTrue (is_steady self.old.tape)
            → (self.new, done) ≡ tape_done command «data».now self.old) }
        ensures synced { IfOk result (AreSynced command self.new.tape) }
        ensures given { IfOk result (λ done. length done.given ≤ most_record) }
        ensures err { OnErr result (self.new ≡ self.old) }
    {
        self.by_command(alloc, buffer, command, data)
    }

    /// Calls the function of each command.
    fn by_command(
        &mut self,
        alloc: Global,
        buffer: &mut BytesMut,
        command: TapeCommand,
        data: &[u8],
    ) -> Result<Done, Memory>
        requires empty { buffer.old.items ≡ [] }
        requires enough { bytes_needed command ≤ length «data».now }
        ensures done { IfOk result (IsTapeDone command «data».now self.old self.new) }
        ensures given { IfOk result (λ done. length done.given ≤ most_record) }
        ensures err { OnErr result (self.new ≡ self.old) }
    {
        match command {
            TapeCommand::Rewind => Ok(self.rewind(alloc)),
            TapeCommand::ReadBlockLimits => self.read_block_limits(alloc, buffer),
            TapeCommand::Read {
                length: asked,
                incorrect_length,
            } => self.read(alloc, buffer, asked, incorrect_length),
            TapeCommand::ReadFixed(blocks) => self.read_fixed(alloc, buffer, blocks),
            TapeCommand::Write(record) => self.write(alloc, record, data),
            TapeCommand::WriteFixed(blocks) => self.write_fixed(alloc, blocks, data),
            TapeCommand::WriteFilemarks(count) => self.write_filemarks(alloc, count),
            TapeCommand::Space { code, distance } => Ok(self.space(alloc, code, distance)),
            TapeCommand::SpaceToEndOfData => Ok(self.space_to_end_of_data(alloc)),
            TapeCommand::Erase => Ok(self.erase(alloc)),
            TapeCommand::LoadUnload { load } => Ok(self.load_unload(alloc, load)),
            TapeCommand::Locate(number) => Ok(self.locate(alloc, number)),
            TapeCommand::ReadPosition => self.read_position(alloc, buffer),
        }
    }
}
