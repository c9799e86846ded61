//! The commands to disks.

ghost use Rattle.std.specs.Prelude.{◌≡◌, ◌+◌, ◌*◌, ◌<◌, ◌≤◌, ℕ, List, [], length, take, drop, IsTrue, IsOk, IfOk, OnOk, OnErr};
ghost use Rattle.std.specs.Int.{div_ceil};
ghost use Rattle.media_store.specs.Failures.{counted};
ghost use Rattle.media_block.specs.Blocks.{block_length, data_of};
ghost use Rattle.scsi_sense.specs.Given.{headroom, gathered, IsLaid};
ghost use Rattle.scsi_cdb.specs.declared.command.DiskCommand.TheVariants.{Read};
ghost use Rattle.scsi_disk.specs.DiskDevice.{disk_view, has_blocks};
ghost use Rattle.scsi_disk.specs.DiskCommands.{capacity_10 as capacity_10_data, capacity_16 as capacity_16_data, bytes_needed};
ghost use Rattle.scsi_disk.specs.DiskCommands.{range_named, IsDiskDone, most_given};

use crate::buffers::{Buffers, take};
use crate::disk_device::DiskDevice;
use crate::disk_writes::read_failed;
use crate::given::done_with_front;
use bytes::BytesMut;
use data_parts::Data;
use media_block::{BLOCK_LENGTH, Disk};
use media_store::{Store, StoreFault};
use scsi_cdb::{BlockRange, DiskCommand};
use scsi_sense::{Done, Given, HEADROOM, TAILROOM};
use std::alloc::Global;
use target_limits::Memory;

/// Returns the READ CAPACITY (10) data of a disk with this number of blocks.
fn capacity_10(block_count: u64) -> [u8; 8]
    requires { 0 < block_count }
    ensures { result ≡ capacity_10_data block_count }
{
    let last = ((block_count - 1).min(u64::from(u32::MAX)) as u32).to_be_bytes();
    let length = (BLOCK_LENGTH as u32).to_be_bytes();
    [
        last[0], last[1], last[2], last[3], length[0], length[1], length[2], length[3],
    ]
}

/// Returns the READ CAPACITY (16) data of a disk with this number of blocks. It reports no protection information and
/// no provisioning.
fn capacity_16(block_count: u64) -> [u8; 32]
    requires { 0 < block_count }
    ensures { result ≡ capacity_16_data block_count }
{
    let last = (block_count - 1).to_be_bytes();
    let length = (BLOCK_LENGTH as u32).to_be_bytes();
    [
        last[0], last[1], last[2], last[3], last[4], last[5], last[6], last[7], length[0],
        length[1], length[2], length[3], 0, 0, 0, 0, 0, 0, 0, 0, 0, 0, 0, 0, 0, 0, 0, 0, 0, 0, 0,
        0,
    ]
}

/// Appends room for a header, and blocks that are read after it. The room is not filled before.
fn read_piece<S: Store>(
    disk: &mut Disk<S>,
    first: u64,
    count: u32,
    buffer: &mut BytesMut,
) -> Result<(), StoreFault>
    requires range { first + count ≤ length disk.old.blocks }
    requires room { headroom + block_length * count ≤ buffer.old.spare }
    ensures front { take (length buffer.old.items) buffer.new.items ≡ buffer.old.items }
    ensures length { length buffer.new.items ≡ length buffer.old.items + (headroom + block_length * count) }
    ensures spare { buffer.new.spare + (headroom + block_length * count) ≡ buffer.old.spare }
    ensures read { OnOk result (IsTrue disk.new.honest
        → drop (length buffer.old.items + headroom) buffer.new.items ≡ data_of disk.old.blocks first count) }
    ensures back { IsTrue disk.new.honest → IsTrue disk.old.honest }
    ensures disk { disk.new ≡ record disk.old { failures = counted result disk.old.failures; honest = disk.new.honest } }
    ensures succeeds { IsTrue disk.old.steady → IsTrue disk.old.honest → IsOk result × (disk.new ≡ disk.old) }
{
    let start = buffer.len() + HEADROOM;
    buffer.advance_mut(HEADROOM + BLOCK_LENGTH * count as usize);
    let bytes = &mut buffer.as_mut_slice()[start..];
    disk.read(first, u64::from(count), bytes)
}

/// Reads blocks into an empty buffer that has room for them and for headers. They lie in `pieces` pieces, each after room
/// for a header. All but the last have `piece` blocks.
fn read_into<S: Store>(
    disk: &mut Disk<S>,
    range: BlockRange,
    piece: u32,
    pieces: u32,
    buffer: &mut BytesMut,
) -> Result<(), StoreFault>
    requires range { range.first + range.count ≤ length disk.old.blocks }
    requires some { 0 < range.count }
    requires piece { 1 ≤ piece }
    requires pieces { pieces ≡ div_ceil range.count piece }
    requires empty { buffer.old.items ≡ [] }
    requires room { headroom * pieces + block_length * range.count ≤ buffer.old.spare }
    ensures laid { OnOk result (IsLaid (block_length * piece) pieces buffer.new.items) }
    ensures length { OnOk result (length (gathered (block_length * piece) pieces buffer.new.items) ≡ block_length * range.count) }
    ensures spare { OnOk result (buffer.new.spare + (headroom * pieces + block_length * range.count) ≡ buffer.old.spare) }
    ensures read { OnOk result (IsTrue disk.new.honest
        → gathered (block_length * piece) pieces buffer.new.items ≡ data_of disk.old.blocks range.first range.count) }
    ensures back { IsTrue disk.new.honest → IsTrue disk.old.honest }
    ensures disk { disk.new ≡ record disk.old { failures = counted result disk.old.failures; honest = disk.new.honest } }
    ensures succeeds { IsTrue disk.old.steady → IsTrue disk.old.honest → IsOk result × (disk.new ≡ disk.old) }
{
    // So the number of each block fits a `u64`.
    prove!(range.first() < disk.block_count());
    for number in 0..pieces {
        let before = number * piece;
        let count = piece.min(range.count() - before);
        read_piece(disk, range.first() + u64::from(before), count, buffer)?;
    }
    Ok(())
}

impl<S: Store> DiskDevice<S> {
    /// Executes a READ of blocks that the disk has. Makes the room for the data first, with room for a header before
    /// each piece and for what is sent after them, so that a failed allocation changes nothing.
    fn read(&mut self, alloc: Global, used: &mut Buffers, range: BlockRange) -> Result<Done, Memory>
        requires { range.first + range.count ≤ length self.old.disk.blocks }
        ensures done { IfOk result (λ done. (bytes : List ℕ) → IsDiskDone (Read range) bytes (disk_view self.old) (disk_view self.new) done) }
        ensures given { IfOk result (λ done. length done.given ≤ most_given) }
        ensures err { OnErr result (disk_view self.new ≡ disk_view self.old) }
    {
        let count = range.count();
        if count == 0 {
            return Ok(Done::good(alloc));
        }
        let piece = used.piece_for(count);
        let pieces = count.div_ceil(piece);
        let room = HEADROOM * pieces as usize + BLOCK_LENGTH * count as usize + TAILROOM;
        let mut buffer = take(alloc, used, room)?;
        match read_into(&mut self.disk, range, piece, pieces, &mut buffer) {
            Ok(()) => Ok(Done::good_with(Given::in_pieces(
                buffer,
                BLOCK_LENGTH * piece as usize,
                pieces as usize,
            ))),
            Err(_) => Ok(read_failed(alloc)),
        }
    }

    /// Executes a command on blocks that the disk has, with the data that it needs. If the store fails, the answer says
    /// so.
    pub fn carry_out(
        &mut self,
        alloc: Global,
        used: &mut Buffers,
        command: DiskCommand,
        data: &Data,
    ) -> Result<Done, Memory>
        requires range { IsTrue (has_blocks (disk_view self.old) (range_named command)) }
        requires enough { bytes_needed command ≤ length «data».now }
        ensures done { IfOk result (IsDiskDone command «data».now (disk_view self.old) (disk_view self.new)) }
        ensures given { IfOk result (λ done. length done.given ≤ most_given) }
        ensures err { OnErr result (disk_view self.new ≡ disk_view self.old) }
    {
        let mut room = Vec::new(alloc);
        match command {
            DiskCommand::Read(range) => self.read(alloc, used, range),
            DiskCommand::ReadCapacity10 => {
                let bytes = capacity_10(self.disk.block_count());
                done_with_front(alloc, &bytes, bytes.len() as u32)
            }
            DiskCommand::ReadCapacity16 { allocation_length } => {
                let bytes = capacity_16(self.disk.block_count());
                done_with_front(alloc, &bytes, allocation_length)
            }
            DiskCommand::Write {
                range,
                force_unit_access,
            } => Ok(self.write(alloc, range, force_unit_access, data)),
            DiskCommand::Verify(_) => Ok(Done::good(alloc)),
            DiskCommand::VerifyData(range) => Ok(self.verify_data(alloc, range, data)),
            DiskCommand::SynchronizeCache(range) => Ok(self.synchronize(alloc, range)),
            DiskCommand::WriteSame(range) => {
                Ok(self.write_same(alloc, range, data.joined(&mut room)?))
            }
            DiskCommand::CompareAndWrite {
                range,
                force_unit_access,
            } => Ok(self.compare_and_write(
                alloc,
                range,
                force_unit_access,
                data.joined(&mut room)?,
            )),
        }
    }
}
