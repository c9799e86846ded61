//! WRITE and WRITE FILEMARKS of a tape.

ghost use Rattle.std.specs.Prelude.{◌≡◌, ◌≢◌, ◌+◌, ◌*◌, ◌≤◌, ◌<◌, [], length, nat_lt, true, false, if◌then◌else◌, ◌||◌, IsTrue, IsOk, IfOk, OnOk, OnErr};
ghost use Rattle.media_store.specs.Failures.{counted, risen};
ghost use Rattle.media_tape.specs.Items.{most_bytes, size_of, is_tape};
ghost use Rattle.media_tape.specs.Tape.{IsSizedAs, IsWrittenTo, size_told, write_told, tape_written, written_synced, marks_told, marked_synced, tape_marked, lost, erased};
ghost use Rattle.media_tape.specs.Fixed.{fixed_written_told, tape_written_fixed, fixed_synced, IsPart};
ghost use Rattle.media_tape.specs.Writing.{AreWhole, bytes_of, part_told, put_if_told, put_synced};
ghost use Rattle.media_tape.specs.declared.outcome.FixedWritten.TheVariants as fixed_written;
ghost use Rattle.media_tape.specs.declared.outcome.Written.TheVariants as written;

use crate::outcome::{FixedWritten, Written};
use crate::tape::Tape;
use crate::write::{Objects, cut_at, spelled, write_objects};
use media_store::{Store, StoreFault};
use std::alloc::AllocError;
use tape_index::MARK_SIZE;
use target_limits::Memory;

/// Returns `Early` if items that were written up to this place exceed the early mark, else `Whole`.
fn told(early_mark: u64, end: u64) -> Written
    ensures { result ≡ (if nat_lt early_mark end then written.Early else written.Whole) }
{
    if early_mark < end {
        Written::Early
    } else {
        Written::Whole
    }
}

/// Returns the outcome of a write of `count` blocks, of which `fitting` were written with this outcome.
fn blocks_written(told: Written, fitting: u32, count: u32) -> FixedWritten
    ensures { result ≡ part_told told fitting count }
{
    match told {
        Written::Refused => FixedWritten::Part(0),
        Written::Early | Written::Whole if fitting < count => FixedWritten::Part(fitting),
        Written::Early => FixedWritten::Early,
        Written::Whole => FixedWritten::Whole,
    }
}

/// Returns whether something may stand after a position among `count` items.
fn is_longer(is_torn: bool, position: u64, count: u64) -> bool
    ensures { result ≡ (is_torn || nat_lt position count) }
{
    is_torn || position < count
}

impl<S: Store> Tape<S> {
    /// Writes a record in place of everything after the position (SSC-4 "WRITE (6)"). A record of no bytes changes
    /// nothing. If an allocation fails, nothing changes; if the store fails, the items before the position remain.
    pub fn write(&mut self, bytes: &[u8]) -> Result<Result<Written, StoreFault>, Memory>
        requires { length bytes.now ≤ most_bytes }
        ensures told { IfOk result (λ done. IfOk done (λ told. told ≡ write_told bytes.now self.old)) }
        ensures tape { IfOk result (λ done. OnOk done (IsTrue self.old.honest → self.new ≡ tape_written bytes.now self.old)) }
        ensures sized { IfOk result (λ done. OnOk done (IsSizedAs (tape_written bytes.now self.old) self.new)) }
        ensures failed { IfOk result (λ done. OnErr done (IsTrue self.old.honest → self.new ≡ lost self.new.tail false self.old)) }
        ensures kept { IfOk result (λ done. OnErr done (IsSizedAs (erased self.old) self.new)) }
        ensures between { IfOk result (λ done. OnErr done (IsTrue self.old.honest → IsTrue self.old.atomic → is_tape self.old.tail ≡ true
            → is_tape self.new.tail ≡ true)) }
        ensures refused { IfOk result (λ done. IfOk done (λ told. told ≡ written.Refused → self.new ≡ self.old)) }
        ensures synced { IfOk result (λ done. IfOk done (λ told. bytes.now ≢ [] → self.new.synced ≡ written_synced told self.old.synced)) }
        ensures unsynced { IfOk result (λ done. OnErr done (self.new.synced ≡ false)) }
        ensures fits { IfOk result (λ done. OnErr done (size_of self.old.before + (length bytes.now + 8) ≤ self.old.capacity)) }
        ensures honest { self.new.honest ≡ self.old.honest }
        ensures rest { IfOk result (λ done. IsWrittenTo done self.old self.new) }
        ensures succeeds { IfOk result (λ done. IsTrue self.old.steady → self.old.capacity ≤ self.old.reach → IsOk done) }
        ensures err { OnErr result (self.new ≡ self.old) }
    {
        if bytes.is_empty() {
            return Ok(Ok(Written::Whole));
        }
        let length = bytes.len() as u32;
        let spelled = spelled(self.alloc, bytes, 1, length)?;
        let (count, size) = (1, length + MARK_SIZE);
        let done = self.put(&Objects::Records {
            spelled,
            count,
            size,
        })?;
        Ok(done)
    }

    /// Writes `count` records of one length, here called blocks, in place of everything after the position (SSC-4
    /// "WRITE (6)", FIXED). It writes as many as fit within the capacity, in one call of the store. If none fits, or
    /// there are no bytes, nothing changes. If an allocation fails, nothing changes; if the store fails, the items
    /// before the position remain.
    pub fn write_fixed(
        &mut self,
        count: u32,
        block_length: u32,
        bytes: &[u8],
    ) -> Result<Result<FixedWritten, StoreFault>, Memory>
        requires whole { length bytes.now ≡ count * block_length }
        requires few { count * block_length ≤ most_bytes }
        ensures told { IfOk result (λ done. IfOk done (λ told. told ≡ fixed_written_told count block_length self.old)) }
        ensures tape { IfOk result (λ done. OnOk done (IsTrue self.old.honest
            → self.new ≡ tape_written_fixed count block_length bytes.now self.old)) }
        ensures sized { IfOk result (λ done. OnOk done (IsSizedAs (tape_written_fixed count block_length bytes.now self.old) self.new)) }
        ensures failed { IfOk result (λ done. OnErr done (IsTrue self.old.honest → self.new ≡ lost self.new.tail false self.old)) }
        ensures kept { IfOk result (λ done. OnErr done (IsSizedAs (erased self.old) self.new)) }
        ensures between { IfOk result (λ done. OnErr done (IsTrue self.old.honest → IsTrue self.old.atomic → is_tape self.old.tail ≡ true
            → is_tape self.new.tail ≡ true)) }
        ensures part { IfOk result (λ done. IfOk done (λ told. IsPart count told)) }
        ensures refused { IfOk result (λ done. IfOk done (λ told. told ≡ fixed_written.Part 0 → self.new ≡ self.old)) }
        ensures synced { IfOk result (λ done. IfOk done (λ told. bytes.now ≢ [] → self.new.synced ≡ fixed_synced told self.old.synced)) }
        ensures unsynced { IfOk result (λ done. OnErr done (self.new.synced ≡ false)) }
        ensures fits { IfOk result (λ done. OnErr done (size_of self.old.before + (block_length + 8) ≤ self.old.capacity)) }
        ensures honest { self.new.honest ≡ self.old.honest }
        ensures rest { IfOk result (λ done. IsWrittenTo done self.old self.new) }
        ensures succeeds { IfOk result (λ done. IsTrue self.old.steady → self.old.capacity ≤ self.old.reach → IsOk done) }
        ensures err { OnErr result (self.new ≡ self.old) }
    {
        if bytes.is_empty() {
            return Ok(Ok(FixedWritten::Whole));
        }
        let size = block_length + MARK_SIZE;
        let room = self.capacity - self.index.place_of(self.position);
        let fitting = (room / u64::from(size)).min(u64::from(count)) as u32;
        if fitting == 0 {
            return Ok(Ok(FixedWritten::Part(0)));
        }
        let spelled = spelled(self.alloc, bytes, fitting, block_length)?;
        let blocks = Objects::Records {
            spelled,
            count: fitting,
            size,
        };
        let done = self.put(&blocks)?;
        match done {
            Ok(told) => Ok(Ok(blocks_written(told, fitting, count))),
            Err(fault) => Ok(Err(fault)),
        }
    }

    /// Writes filemarks in place of everything after the position, and waits until everything is on the medium (SSC-4
    /// "WRITE FILEMARKS (6)"). If an allocation fails, nothing changes; if the store fails, the items before the
    /// position remain.
    pub fn marks(&mut self, count: u32) -> Result<Result<Written, StoreFault>, Memory>
        ensures told { IfOk result (λ done. IfOk done (λ told. told ≡ marks_told count self.old)) }
        ensures tape { IfOk result (λ done. OnOk done (IsTrue self.old.honest → self.new ≡ tape_marked count self.old)) }
        ensures sized { IfOk result (λ done. OnOk done (IsSizedAs (tape_marked count self.old) self.new)) }
        ensures failed { IfOk result (λ done. OnErr done (IsTrue self.old.honest → count ≢ 0 → self.new ≡ lost self.new.tail false self.old)) }
        ensures kept { IfOk result (λ done. OnErr done (count ≢ 0 → IsSizedAs (erased self.old) self.new)) }
        ensures between { IfOk result (λ done. OnErr done (IsTrue self.old.honest → IsTrue self.old.atomic → is_tape self.old.tail ≡ true
            → is_tape self.new.tail ≡ true)) }
        ensures none { IfOk result (λ done. IfOk done (λ told. count ≡ 0
            → (told ≡ written.Whole) × (self.new ≡ record self.old { synced = true }))) }
        ensures none_failed { IfOk result (λ done. OnErr done (count ≡ 0 → self.new ≡ record self.old { synced = false; failures = risen self.old.failures })) }
        ensures refused { IfOk result (λ done. IfOk done (λ told. told ≡ written.Refused → self.new ≡ self.old)) }
        ensures synced { IfOk result (λ done. IfOk done (λ told. self.new.synced ≡ marked_synced told self.old.synced)) }
        ensures unsynced { IfOk result (λ done. OnErr done (self.new.synced ≡ false)) }
        ensures fits { IfOk result (λ done. OnErr done (count ≢ 0
            → size_of self.old.before + 8 * count ≤ self.old.capacity)) }
        ensures honest { self.new.honest ≡ self.old.honest }
        ensures rest { IfOk result (λ done. IsWrittenTo done self.old self.new) }
        ensures succeeds { IfOk result (λ done. IsTrue self.old.steady → self.old.capacity ≤ self.old.reach → IsOk done) }
        ensures err { OnErr result (self.new ≡ self.old) }
    {
        if count == 0 {
            return Ok(self.sync());
        }
        let done = self.put(&Objects::Filemarks(count))?;
        Ok(done)
    }

    /// Puts objects in place of everything after the position, unless they would exceed the capacity. If an allocation
    /// fails, nothing changes; if the store fails, the items before the position remain.
    fn put(&mut self, objects: &Objects) -> Result<Result<Written, StoreFault>, AllocError>
        requires { AreWhole objects.now }
        ensures told { IfOk result (λ done. IfOk done (λ told. told ≡ size_told (length (bytes_of objects.now)) self.old)) }
        ensures tape { IfOk result (λ done. OnOk done (IsTrue self.old.honest
            → self.new ≡ put_if_told objects.now (size_told (length (bytes_of objects.now)) self.old) self.old)) }
        ensures sized { IfOk result (λ done. OnOk done (IsSizedAs
            (put_if_told objects.now (size_told (length (bytes_of objects.now)) self.old) self.old) self.new)) }
        ensures failed { IfOk result (λ done. OnErr done (IsTrue self.old.honest → self.new ≡ lost self.new.tail false self.old)) }
        ensures kept { IfOk result (λ done. OnErr done (IsSizedAs (erased self.old) self.new)) }
        ensures between { IfOk result (λ done. OnErr done (IsTrue self.old.honest → IsTrue self.old.atomic → is_tape self.old.tail ≡ true
            → is_tape self.new.tail ≡ true)) }
        ensures refused { IfOk result (λ done. IfOk done (λ told. told ≡ written.Refused → self.new ≡ self.old)) }
        ensures synced { IfOk result (λ done. IfOk done (λ told. self.new.synced ≡ put_synced objects.now told self.old.synced)) }
        ensures unsynced { IfOk result (λ done. OnErr done (self.new.synced ≡ false)) }
        ensures fits { IfOk result (λ done. OnErr done (size_of self.old.before + length (bytes_of objects.now) ≤ self.old.capacity)) }
        ensures honest { self.new.honest ≡ self.old.honest }
        ensures rest { IfOk result (λ done. IsWrittenTo done self.old self.new) }
        ensures succeeds { IfOk result (λ done. IsTrue self.old.steady → self.old.capacity ≤ self.old.reach → IsOk done) }
        ensures err { OnErr result (self.new ≡ self.old) }
    {
        let size = objects.size();
        let place = self.index.place_of(self.position);
        if self.capacity - place < size {
            return Ok(Ok(Written::Refused));
        }
        self.index.reserve_one()?;
        let is_longer = is_longer(self.is_torn, self.position, self.index.count());
        // What stands after the position is lost, even if a call fails.
        self.index.truncate(self.position);
        match write_objects(&mut self.store, place, is_longer, objects) {
            Ok(()) => {
                self.is_torn = false;
                self.index
                    .push_reserved(objects.each_size(), objects.many());
                self.position = self.index.count();
                Ok(Ok(told(self.early_mark, place + size)))
            }
            Err(fault) => {
                self.is_torn = true;
                Ok(Err(fault))
            }
        }
    }

    /// Waits until everything is on the medium.
    fn sync(&mut self) -> Result<Written, StoreFault>
        ensures whole { IfOk result (λ told. (told ≡ written.Whole) × (self.new ≡ record self.old { synced = true })) }
        ensures failed { OnErr result (self.new ≡ record self.old { synced = false; failures = risen self.old.failures }) }
        ensures succeeds { IsTrue self.old.steady → IsOk result }
    {
        self.store.sync()?;
        Ok(Written::Whole)
    }

    /// Removes everything after the position (SSC-4 "ERASE (6)"). If it fails, the items before the position remain.
    pub fn erase(&mut self) -> Result<(), StoreFault>
        ensures tape { OnOk result (IsTrue self.old.honest → self.new ≡ erased self.old) }
        ensures sized { IsSizedAs (erased self.old) self.new }
        ensures failed { OnErr result (IsTrue self.old.honest → self.new ≡ lost self.new.tail false self.old) }
        ensures between { OnErr result (IsTrue self.old.honest → IsTrue self.old.atomic → is_tape self.old.tail ≡ true
            → is_tape self.new.tail ≡ true) }
        ensures honest { self.new.honest ≡ self.old.honest }
        ensures rest { self.new ≡ record self.old {
          before = self.new.before;
          after = self.new.after;
          tail = self.new.tail;
          synced = false;
          failures = counted result self.old.failures;
        } }
        ensures succeeds { IsTrue self.old.steady → IsTrue self.old.honest → IsOk result }
    {
        let place = self.index.place_of(self.position);
        self.index.truncate(self.position);
        self.is_torn = true;
        cut_at(&mut self.store, place, true)?;
        self.is_torn = false;
        Ok(())
    }
}
