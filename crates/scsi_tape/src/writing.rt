//! The commands that write to the tape, or cut it.

ghost use Rattle.std.specs.Prelude.{◌≡◌, ◌≤◌, ℕ, List, [], false, length, IfOk, OnErr};
ghost use Rattle.scsi_sense.specs.Done.{check_condition};
ghost use Rattle.scsi_cdb.specs.declared.tape.TapeCommand.TheVariants.{Write, WriteFixed, WriteFilemarks, Erase};
ghost use Rattle.scsi_cdb.specs.FixedBlocks.{bytes_of};
ghost use Rattle.media_tape.specs.Fixed.{IsPart};
ghost use Rattle.scsi_tape.specs.TapeSense.{write_error};
ghost use Rattle.scsi_tape.specs.Commands.{write_outcome, fixed_write_outcome, marks_outcome};
ghost use Rattle.scsi_tape.specs.CameOut.{IsTapeDone};

use crate::sense::{early_warning, overflow};
use crate::tape_unit::TapeUnit;
use media_store::Store;
use media_tape::{FixedWritten, Written};
use scsi_cdb::{FixedBlocks, RecordLength};
use scsi_sense::{Condition, Done, Sense};
use std::alloc::Global;
use target_limits::Memory;

/// Reports how WRITE of `count` bytes ended.
fn written(alloc: Global, count: u32, written: Written) -> Done
    ensures told { result ≡ write_outcome count written }
    ensures given { result.given ≡ [] }
{
    match written {
        Written::Whole => Done::good_taking(alloc, count),
        Written::Early => {
            let mut done = Done::check_condition(alloc, early_warning());
            done.moved = count;
            done
        }
        Written::Refused => Done::check_condition(alloc, overflow(count)),
    }
}

/// Reports how WRITE of these fixed blocks ended.
fn blocks_written(alloc: Global, blocks: FixedBlocks, written: FixedWritten) -> Done
    requires { IsPart blocks.count written }
    ensures told { result ≡ fixed_write_outcome blocks written }
    ensures given { result.given ≡ [] }
{
    match written {
        FixedWritten::Whole => Done::good_taking(alloc, blocks.bytes()),
        FixedWritten::Early => {
            let mut done = Done::check_condition(alloc, early_warning());
            done.moved = blocks.bytes();
            done
        }
        FixedWritten::Part(some) => {
            let mut done = Done::check_condition(alloc, overflow(blocks.count() - some));
            done.moved = some * blocks.block_length();
            done
        }
    }
}

/// Reports how WRITE FILEMARKS of `count` filemarks ended.
fn marked(alloc: Global, count: u32, written: Written) -> Done
    ensures told { result ≡ marks_outcome count written }
    ensures given { result.given ≡ [] }
{
    match written {
        Written::Whole => Done::good(alloc),
        Written::Early => Done::check_condition(alloc, early_warning()),
        Written::Refused => Done::check_condition(alloc, overflow(count)),
    }
}

impl<S: Store> TapeUnit<S> {
    /// Marks the unit as failed, after a write, a cut or a sync failed, and returns WRITE ERROR.
    fn write_failed(&mut self, alloc: Global) -> Done
        ensures unit { self.new ≡ record self.old { is_working = false } }
        ensures told { result ≡ check_condition write_error }
    {
        self.is_working = false;
        Done::check_condition(alloc, Sense::new(Condition::WriteError))
    }

    /// Writes a record, whose data comes first in `data` (WRITE (6)). If an allocation fails, nothing changes.
    pub(crate) fn write(
        &mut self,
        alloc: Global,
        size: RecordLength,
        data: &[u8],
    ) -> Result<Done, Memory>
        requires { size ≤ length «data».now }
        ensures done { IfOk result (IsTapeDone (Write size) «data».now self.old self.new) }
        ensures given { IfOk result (λ done. done.given ≡ []) }
        ensures err { OnErr result (self.new ≡ self.old) }
    {
        let count = size.bytes();
        if count == 0 {
            return Ok(Done::good(alloc));
        }
        match self.tape.write(&data[..count as usize])? {
            Ok(ended) => Ok(written(alloc, count, ended)),
            Err(_) => Ok(self.write_failed(alloc)),
        }
    }

    /// Writes fixed blocks, whose data comes first in `data` (WRITE (6)). If an allocation fails, nothing changes.
    pub(crate) fn write_fixed(
        &mut self,
        alloc: Global,
        blocks: FixedBlocks,
        data: &[u8],
    ) -> Result<Done, Memory>
        requires { bytes_of blocks ≤ length «data».now }
        ensures done { IfOk result (IsTapeDone (WriteFixed blocks) «data».now self.old self.new) }
        ensures given { IfOk result (λ done. done.given ≡ []) }
        ensures err { OnErr result (self.new ≡ self.old) }
    {
        let count = blocks.count();
        if count == 0 {
            return Ok(Done::good(alloc));
        }
        let front = &data[..blocks.bytes() as usize];
        match self.tape.write_fixed(count, blocks.block_length(), front)? {
            Ok(ended) => Ok(blocks_written(alloc, blocks, ended)),
            Err(_) => Ok(self.write_failed(alloc)),
        }
    }

    /// Writes filemarks (WRITE FILEMARKS (6)). Waits until everything written is on the medium, even if there is no
    /// filemark to write. If an allocation fails, nothing changes.
    pub(crate) fn write_filemarks(&mut self, alloc: Global, count: u32) -> Result<Done, Memory>
        ensures done { IfOk result (λ done. (bytes : List ℕ) → IsTapeDone (WriteFilemarks count) bytes self.old self.new done) }
        ensures given { IfOk result (λ done. done.given ≡ []) }
        ensures err { OnErr result (self.new ≡ self.old) }
    {
        match self.tape.marks(count)? {
            Ok(ended) => Ok(marked(alloc, count, ended)),
            Err(_) => Ok(self.write_failed(alloc)),
        }
    }

    /// Erases the tape from the position on (ERASE (6)).
    pub(crate) fn erase(&mut self, alloc: Global) -> Done
        ensures done { (bytes : List ℕ) → IsTapeDone Erase bytes self.old self.new result }
        ensures given { result.given ≡ [] }
    {
        match self.tape.erase() {
            Ok(()) => Done::good(alloc),
            Err(_) => self.write_failed(alloc),
        }
    }
}
