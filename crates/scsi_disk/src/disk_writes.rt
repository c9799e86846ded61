//! The commands that write to disks, or ask what stands on them.

ghost use Rattle.std.specs.Prelude.{◌≡◌, ◌+◌, ◌*◌, ◌<◌, ◌≤◌, ℕ, List, [], length, take, false, IsTrue, IsOk, OnOk, OnErr};
ghost use Rattle.media_block.specs.Blocks.{block_length, blocks_of};
ghost use Rattle.scsi_sense.specs.Done.{check_condition};
ghost use Rattle.scsi_cdb.specs.declared.command.DiskCommand.TheVariants.{Write, VerifyData, SynchronizeCache, WriteSame, CompareAndWrite};
ghost use Rattle.scsi_disk.specs.DiskDevice.{disk_view};
ghost use Rattle.scsi_disk.specs.DiskCommands.{IsDiskDone, miscompare as miscompare_sense, unrecovered_read, write_error};
ghost use Rattle.scsi_disk.specs.DiskWrites.{IsWritten, IsTorn};

use crate::disk_device::DiskDevice;
use data_parts::Data;
use media_block::{BLOCK_LENGTH, Disk};
use media_store::{Store, StoreFault};
use scsi_cdb::{AnyRange, BlockRange, ComparedRange, SameRange};
use scsi_sense::{Condition, Done, Sense};
use std::alloc::Global;

/// Returns CHECK CONDITION with UNRECOVERED READ ERROR.
pub(crate) fn read_failed(alloc: Global) -> Done
    ensures { result ≡ check_condition unrecovered_read }
{
    Done::check_condition(alloc, Sense::new(Condition::UnrecoveredReadError))
}

/// Returns CHECK CONDITION with MISCOMPARE DURING VERIFY OPERATION and the offset of the first byte that differs.
fn miscompare(alloc: Global, at: u32) -> Done
    ensures { result ≡ check_condition (miscompare_sense at) }
{
    let mut sense = Sense::new(Condition::MiscompareDuringVerifyOperation);
    sense.information = Some(at);
    Done::check_condition(alloc, sense)
}

/// Writes one block or more, whose bytes are the first of the data. With FUA, waits until they are on the medium.
fn write_through<S: Store>(
    disk: &mut Disk<S>,
    first: u64,
    count: u32,
    data: &Data,
    force_unit_access: bool,
) -> Result<(), StoreFault>
    requires range { first + count ≤ length disk.old.blocks }
    requires enough { block_length * count ≤ length «data».now }
    requires some { 0 < count }
    ensures written { OnOk result (IsWritten first (blocks_of count (take (block_length * count) «data».now)) force_unit_access disk.old disk.new) }
    ensures torn { OnErr result (IsTorn first count disk.old disk.new) }
    ensures succeeds { IsTrue disk.old.steady → IsTrue disk.old.honest → IsOk result }
{
    disk.write_parts(first, u64::from(count), data)?;
    if force_unit_access {
        disk.sync()?;
    }
    Ok(())
}

impl<S: Store> DiskDevice<S> {
    /// Returns CHECK CONDITION with WRITE ERROR. The disk is not ready from now on.
    fn write_failed(&mut self, alloc: Global) -> Done
        ensures disk { disk_view self.new ≡ record (disk_view self.old) { is_ready = false } }
        ensures told { result ≡ check_condition write_error }
    {
        self.is_ready = false;
        Done::check_condition(alloc, Sense::new(Condition::WriteError))
    }

    /// Executes a WRITE of blocks that the disk has. Their bytes are the first of the data.
    pub(crate) fn write(
        &mut self,
        alloc: Global,
        range: BlockRange,
        force_unit_access: bool,
        data: &Data,
    ) -> Done
        requires range { range.first + range.count ≤ length self.old.disk.blocks }
        requires enough { block_length * range.count ≤ length «data».now }
        ensures done { IsDiskDone (Write range force_unit_access) «data».now (disk_view self.old) (disk_view self.new) result }
        ensures given { result.given ≡ [] }
    {
        let count = range.count();
        if count == 0 {
            return Done::good(alloc);
        }
        let length = BLOCK_LENGTH * count as usize;
        match write_through(
            &mut self.disk,
            range.first(),
            count,
            data,
            force_unit_access,
        ) {
            Ok(()) => Done::good_taking(alloc, length as u32),
            Err(_) => self.write_failed(alloc),
        }
    }

    /// Executes a WRITE SAME to blocks that the disk has. The block is the first of the data.
    pub(crate) fn write_same(&mut self, alloc: Global, range: SameRange, data: &[u8]) -> Done
        requires range { range.first + range.count ≤ length self.old.disk.blocks }
        requires enough { block_length ≤ length «data».now }
        ensures done { IsDiskDone (WriteSame range) «data».now (disk_view self.old) (disk_view self.new) result }
        ensures given { result.given ≡ [] }
    {
        let block = &data[..BLOCK_LENGTH];
        match self
            .disk
            .write_same(range.first(), u64::from(range.count()), block)
        {
            Ok(()) => Done::good_taking(alloc, BLOCK_LENGTH as u32),
            Err(_) => self.write_failed(alloc),
        }
    }

    /// Executes a VERIFY of blocks that the disk has. The bytes that they should have are the first of the data. It stays a
    /// call, as [`DiskDevice::compare_and_write`] does.
    #[inline(never)]
    pub(crate) fn verify_data(&mut self, alloc: Global, range: BlockRange, data: &Data) -> Done
        requires range { range.first + range.count ≤ length self.old.disk.blocks }
        requires enough { block_length * range.count ≤ length «data».now }
        ensures done { IsDiskDone (VerifyData range) «data».now (disk_view self.old) (disk_view self.new) result }
        ensures given { result.given ≡ [] }
    {
        let count = range.count();
        if count == 0 {
            return Done::good(alloc);
        }
        let length = BLOCK_LENGTH * count as usize;
        match self
            .disk
            .compare_parts(range.first(), u64::from(count), data)
        {
            Ok(None) => Done::good_taking(alloc, length as u32),
            Ok(Some(at)) => miscompare(alloc, at as u32),
            Err(_) => read_failed(alloc),
        }
    }

    /// Executes a COMPARE AND WRITE of blocks that the disk has. The bytes that they should have are the first of the
    /// data, and those to write follow. If the first differ from the blocks, writes nothing. It stays a call, since its
    /// values would lie on the stack of every command.
    #[inline(never)]
    pub(crate) fn compare_and_write(
        &mut self,
        alloc: Global,
        range: ComparedRange,
        force_unit_access: bool,
        data: &[u8],
    ) -> Done
        requires range { range.first + range.count ≤ length self.old.disk.blocks }
        requires enough { 2 * (block_length * range.count) ≤ length «data».now }
        ensures done { IsDiskDone (CompareAndWrite range force_unit_access) «data».now (disk_view self.old) (disk_view self.new) result }
        ensures given { result.given ≡ [] }
    {
        let count = range.count();
        if count == 0 {
            return Done::good(alloc);
        }
        let length = BLOCK_LENGTH * count as usize;
        match self
            .disk
            .compare(range.first(), u64::from(count), &data[..length])
        {
            Ok(None) => {}
            Ok(Some(at)) => return miscompare(alloc, at as u32),
            Err(_) => return read_failed(alloc),
        }
        let written = Data::whole(&data[length..]);
        match write_through(
            &mut self.disk,
            range.first(),
            count,
            &written,
            force_unit_access,
        ) {
            Ok(()) => Done::good_taking(alloc, 2 * length as u32),
            Err(_) => self.write_failed(alloc),
        }
    }

    /// Executes a SYNCHRONIZE CACHE. Waits for all that was written, whatever blocks are named.
    pub(crate) fn synchronize(&mut self, alloc: Global, range: AnyRange) -> Done
        ensures done { (bytes : List ℕ) → IsDiskDone (SynchronizeCache range) bytes (disk_view self.old) (disk_view self.new) result }
        ensures given { result.given ≡ [] }
    {
        match self.disk.sync() {
            Ok(()) => Done::good(alloc),
            Err(_) => self.write_failed(alloc),
        }
    }
}
