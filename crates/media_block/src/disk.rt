//! The calls on a disk.

ghost use Rattle.std.specs.Prelude.{◌≡◌, ◌+◌, ◌*◌, ◌<◌, ◌≤◌, ◌==◌, length, take, replicate, true, false, is_ok, if◌then◌else◌, IsTrue, IsOk, IfOk, IfSome, IfErr, OnOk, OnErr};
ghost use Rattle.media_store.specs.Failures.{counted};
ghost use Rattle.media_block.specs.Fault.{failures_after};
ghost use Rattle.media_block.specs.Blocks.{block_length, blocks_of, is_disk, disk_of, data_of, replaced, first_difference, AreWhole, KeepsOthers, HasCompared};

use crate::data::write_data;
use crate::difference::{compare_data, difference_from};
use crate::fault::{DiskOpenFault, NotOpened};
use crate::part::{LONG_PART_LENGTH, PART, PART_LENGTH, repeated};
use data_parts::Data;
use media_store::{Store, StoreFault};
use std::marker::Model;

/// The length of a block in bytes.
pub const BLOCK_LENGTH: usize = 512;

/// Logical blocks of 512 bytes over a store. Places and lengths are in blocks.
#[derive(Drop)]
pub struct Disk<S: Store> {
    store: S,
    block_count: u64,
}

impl<S: Store> Model for Disk<S> {
    ghost use Rattle.std.specs.Prelude.{◌≡◌, ◌*◌, ◌<◌, ◌^◌, IsTrue, length};
    ghost use Rattle.media_block.specs.Blocks.{DiskState, blocks_of, block_length};

    ghost Value = { DiskState };

    ghost view = { λ disk. record {
      blocks = blocks_of disk.block_count
          (S.Store.content disk.store);
      synced = S.Store.synced disk.store;
      failures = S.Store.failures disk.store;
      honest = S.Store.honest disk.store;
      steady = S.Store.steady disk.store;
    } };

    ghost invariant = { λ disk. (block_length * disk.block_count < 2 ^ 64)
        × (IsTrue (S.Store.honest disk.store) → length (S.Store.content disk.store) ≡ block_length * disk.block_count)
        × (0 < disk.block_count) };
}

impl<S: Store> Disk<S> {
    /// Opens a store as a disk, or returns it with the reason why it is not opened.
    pub fn open(mut store: S) -> Result<Disk<S>, NotOpened<S>>
        ensures blocks { IfOk result (λ disk. IsTrue disk.honest → disk.blocks ≡ disk_of (S.Store.content store)) }
        ensures disk { IfOk result (λ disk. IsTrue disk.honest → is_disk (S.Store.content store) ≡ true) }
        ensures synced { IfOk result (λ disk. disk.synced ≡ S.Store.synced store) }
        ensures failures { IfOk result (λ disk. disk.failures ≡ S.Store.failures store) }
        ensures back { IfOk result (λ disk. IsTrue disk.honest → IsTrue (S.Store.honest store)) }
        ensures steady { IfOk result (λ disk. disk.steady ≡ S.Store.steady store) }
        ensures stays { IfOk result (λ disk. IsTrue (S.Store.steady store) → disk.honest ≡ S.Store.honest store) }
        ensures succeeds { IsTrue (S.Store.steady store) → IsTrue (S.Store.honest store) → is_disk (S.Store.content store) ≡ true → IsOk result }
        ensures length { IfErr result (λ refused. refused.fault ≡ DiskOpenFault.Length
            → IsTrue (S.Store.honest refused.store) → is_disk (S.Store.content store) ≡ false) }
        ensures counted { IfErr result (λ refused. S.Store.failures refused.store ≡ failures_after refused.fault (S.Store.failures store)) }
        ensures given_back { IfErr result (λ refused. S.Store.content refused.store ≡ S.Store.content store) }
        ensures synced_back { IfErr result (λ refused. S.Store.synced refused.store ≡ S.Store.synced store) }
        ensures back_refused { IfErr result (λ refused. IsTrue (S.Store.honest refused.store) → IsTrue (S.Store.honest store)) }
    {
        let Ok(length) = store.len() else {
            return Err(NotOpened {
                fault: DiskOpenFault::Device,
                store,
            });
        };
        if length == 0 || length % BLOCK_LENGTH as u64 != 0 {
            return Err(NotOpened {
                fault: DiskOpenFault::Length,
                store,
            });
        }
        Ok(Disk {
            store,
            block_count: length / BLOCK_LENGTH as u64,
        })
    }

    /// Returns the number of blocks, which is at least one.
    pub fn block_count(&self) -> u64
        ensures count { result ≡ length self.now.blocks }
        ensures some { 0 < result }
        ensures whole { IsTrue self.now.honest → AreWhole self.now.blocks }
    {
        self.block_count
    }

    /// Reads blocks into a buffer of their length.
    pub fn read(&mut self, first: u64, count: u64, bytes: &mut [u8]) -> Result<(), StoreFault>
        requires range { first + count ≤ length self.old.blocks }
        requires room { length bytes.old ≡ block_length * count }
        ensures read { OnOk result (IsTrue self.new.honest → bytes.new ≡ data_of self.old.blocks first count) }
        ensures agreed { OnOk result (bytes.new ≡ data_of self.old.blocks first count → self.new.honest ≡ self.old.honest) }
        ensures none { count ≡ 0 → IsOk result × (self.new ≡ self.old) }
        ensures back { IsTrue self.new.honest → IsTrue self.old.honest }
        ensures disk { self.new ≡ record self.old { failures = counted result self.old.failures; honest = self.new.honest } }
        ensures succeeds { IsTrue self.old.steady → IsTrue self.old.honest → IsOk result × (self.new ≡ self.old) }
    {
        if count == 0 {
            return Ok(());
        }
        self.store.read_at(BLOCK_LENGTH as u64 * first, bytes)
    }

    /// Writes blocks. If it fails, these blocks may hold any bytes.
    pub fn write(&mut self, first: u64, count: u64, bytes: &[u8]) -> Result<(), StoreFault>
        requires range { first + count ≤ length self.old.blocks }
        requires whole { length bytes.now ≡ block_length * count }
        ensures written { OnOk result (IsTrue self.old.honest
            → self.new.blocks ≡ replaced first (blocks_of count bytes.now) self.old.blocks) }
        ensures torn { OnErr result (IsTrue self.old.honest → KeepsOthers first count self.old.blocks self.new.blocks) }
        ensures none { count ≡ 0 → IsOk result × (self.new ≡ self.old) }
        ensures length { length self.new.blocks ≡ length self.old.blocks }
        ensures synced { self.new.synced ≡ (if count == 0 then self.old.synced else false) }
        ensures failures { self.new.failures ≡ counted result self.old.failures }
        ensures honest { self.new.honest ≡ self.old.honest }
        ensures steady { self.new.steady ≡ self.old.steady }
        ensures succeeds { IsTrue self.old.steady → IsTrue self.old.honest → IsOk result }
    {
        self.write_parts(first, count, &Data::whole(bytes))
    }

    /// Writes blocks from the first bytes of the data, which may lie in several slices. If it fails, these blocks may
    /// hold any bytes.
    pub fn write_parts(&mut self, first: u64, count: u64, data: &Data) -> Result<(), StoreFault>
        requires range { first + count ≤ length self.old.blocks }
        requires enough { block_length * count ≤ length «data».now }
        ensures written { OnOk result (IsTrue self.old.honest
            → self.new.blocks ≡ replaced first (blocks_of count (take (block_length * count) «data».now)) self.old.blocks) }
        ensures torn { OnErr result (IsTrue self.old.honest → KeepsOthers first count self.old.blocks self.new.blocks) }
        ensures none { count ≡ 0 → IsOk result × (self.new ≡ self.old) }
        ensures length { length self.new.blocks ≡ length self.old.blocks }
        ensures synced { self.new.synced ≡ (if count == 0 then self.old.synced else false) }
        ensures failures { self.new.failures ≡ counted result self.old.failures }
        ensures honest { self.new.honest ≡ self.old.honest }
        ensures steady { self.new.steady ≡ self.old.steady }
        ensures succeeds { IsTrue self.old.steady → IsTrue self.old.honest → IsOk result }
    {
        if count == 0 {
            return Ok(());
        }
        write_data(
            &mut self.store,
            BLOCK_LENGTH as u64 * first,
            BLOCK_LENGTH as u64 * count,
            data,
        )
    }

    /// Returns the least index at which bytes differ from those of the blocks.
    pub fn compare(
        &mut self,
        first: u64,
        count: u64,
        bytes: &[u8],
    ) -> Result<Option<usize>, StoreFault>
        requires range { first + count ≤ length self.old.blocks }
        requires whole { length bytes.now ≡ block_length * count }
        ensures compared { IfOk result (λ at. IsTrue self.new.honest
            → at ≡ first_difference (data_of self.old.blocks first count) bytes.now) }
        ensures within { IfOk result (λ at. IfSome at (λ n. n < length bytes.now)) }
        ensures none { count ≡ 0 → IsOk result }
        ensures back { IsTrue self.new.honest → IsTrue self.old.honest }
        ensures disk { self.new ≡ record self.old { failures = counted result self.old.failures; honest = self.new.honest } }
        ensures succeeds { IsTrue self.old.steady → IsTrue self.old.honest → IsOk result × (self.new ≡ self.old) }
    {
        self.compare_parts(first, count, &Data::whole(bytes))
    }

    /// Returns the least index at which the first bytes of the data, which may lie in several slices, differ from those
    /// of the blocks.
    pub fn compare_parts(
        &mut self,
        first: u64,
        count: u64,
        data: &Data,
    ) -> Result<Option<usize>, StoreFault>
        requires range { first + count ≤ length self.old.blocks }
        requires enough { block_length * count ≤ length «data».now }
        ensures compared { IfOk result (λ at. IsTrue self.new.honest
            → at ≡ first_difference (data_of self.old.blocks first count) (take (block_length * count) «data».now)) }
        ensures within { IfOk result (λ at. IfSome at (λ n. n < block_length * count)) }
        ensures none { count ≡ 0 → IsOk result }
        ensures back { IsTrue self.new.honest → IsTrue self.old.honest }
        ensures disk { self.new ≡ record self.old { failures = counted result self.old.failures; honest = self.new.honest } }
        ensures succeeds { IsTrue self.old.steady → IsTrue self.old.honest → IsOk result × (self.new ≡ self.old) }
    {
        if let Some(held) = self.lend(first, count) {
            return Ok(difference_from(held, data));
        }
        // No larger buffer is filled than a few blocks need.
        match count {
            0..=1 => self.compare_in(first, count, data, &mut [0; BLOCK_LENGTH]),
            2..=PART => self.compare_few(first, count, data),
            _ => self.compare_many(first, count, data),
        }
    }

    /// Lends the data of blocks, if the store holds it in memory.
    fn lend(&self, first: u64, count: u64) -> Option<&[u8]>
        requires range { first + count ≤ length self.now.blocks }
        ensures whole { IfSome result (λ bytes. length bytes.now ≡ block_length * count) }
        ensures lent { IfSome result (λ bytes. bytes.now ≡ data_of self.now.blocks first count) }
    {
        // With this the disk's invariant shows that the place of each block fits a u64.
        let _ = &self.block_count;
        self.store
            .lend(BLOCK_LENGTH as u64 * first, BLOCK_LENGTH * count as usize)
    }

    /// Compares a few blocks. It stays a call, since its buffer would lie on the stack of every command.
    #[inline(never)]
    fn compare_few(
        &mut self,
        first: u64,
        count: u64,
        data: &Data,
    ) -> Result<Option<usize>, StoreFault>
        requires range { first + count ≤ length self.old.blocks }
        requires enough { block_length * count ≤ length «data».now }
        ensures { HasCompared first count (take (block_length * count) «data».now) result self.old self.new }
    {
        self.compare_in(first, count, data, &mut [0; PART_LENGTH])
    }

    /// Compares many blocks. It stays a call, as [`Disk::compare_few`] does.
    #[inline(never)]
    fn compare_many(
        &mut self,
        first: u64,
        count: u64,
        data: &Data,
    ) -> Result<Option<usize>, StoreFault>
        requires range { first + count ≤ length self.old.blocks }
        requires enough { block_length * count ≤ length «data».now }
        ensures { HasCompared first count (take (block_length * count) «data».now) result self.old self.new }
    {
        self.compare_in(first, count, data, &mut [0; LONG_PART_LENGTH])
    }

    /// Compares blocks, which are read into a buffer, with the first bytes of the data.
    fn compare_in(
        &mut self,
        first: u64,
        count: u64,
        data: &Data,
        held: &mut [u8],
    ) -> Result<Option<usize>, StoreFault>
        requires range { first + count ≤ length self.old.blocks }
        requires enough { block_length * count ≤ length «data».now }
        requires room { 0 < length held.old }
        ensures { HasCompared first count (take (block_length * count) «data».now) result self.old self.new }
    {
        compare_data(
            &mut self.store,
            BLOCK_LENGTH as u64 * first,
            BLOCK_LENGTH as u64 * count,
            data,
            held,
        )
    }

    /// Writes the same block to `count` places. If it fails, these blocks may hold any bytes. It stays a call, as
    /// [`Disk::compare_few`] does.
    #[inline(never)]
    pub fn write_same(&mut self, first: u64, count: u64, block: &[u8]) -> Result<(), StoreFault>
        requires range { first + count ≤ length self.old.blocks }
        requires whole { length block.now ≡ block_length }
        ensures written { OnOk result (IsTrue self.old.honest
            → self.new.blocks ≡ replaced first (replicate count block.now) self.old.blocks) }
        ensures torn { OnErr result (IsTrue self.old.honest → KeepsOthers first count self.old.blocks self.new.blocks) }
        ensures none { count ≡ 0 → IsOk result }
        ensures length { length self.new.blocks ≡ length self.old.blocks }
        ensures synced { self.new.synced ≡ (if count == 0 then self.old.synced else false) }
        ensures failures { self.new.failures ≡ counted result self.old.failures }
        ensures honest { self.new.honest ≡ self.old.honest }
        ensures steady { self.new.steady ≡ self.old.steady }
        ensures succeeds { IsTrue self.old.steady → IsTrue self.old.honest → IsOk result }
    {
        // With this the disk's invariant shows that the place of each block fits a u64.
        let _ = &self.block_count;
        let copies = repeated(block);
        let mut number = 0;
        while number < count {
            let part = (count - number).min(PART);
            let bytes = &copies[..BLOCK_LENGTH * part as usize];
            self.write(first + number, part, bytes)?;
            number += part;
        }
        Ok(())
    }

    /// Waits until what was written is on the medium.
    pub fn sync(&mut self) -> Result<(), StoreFault>
        ensures disk { self.new ≡ record self.old { synced = is_ok result; failures = counted result self.old.failures } }
        ensures succeeds { IsTrue self.old.steady → IsOk result }
    {
        self.store.sync()
    }
}
