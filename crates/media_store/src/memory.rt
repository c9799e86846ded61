//! A store in memory.

ghost use Rattle.std.specs.Prelude.{◌≡◌, ◌+◌, ◌≤◌, ◌↔◌, ◌++◌, take, drop, length, vec_capacity, replicate, true, false, IsOk, IsSome, IsTrue, IfOk, IfSome, OnOk, OnErr, slice_range};
ghost use Rattle.media_store.specs.Content.{resized, written};
ghost use Rattle.media_store.specs.Failures.{risen};

use crate::fault::{StoreFault, count};
use crate::store::Store;
use std::alloc::{AllocError, Global};
use std::marker::Model;

/// Bytes in memory. All the memory that they may ever need is allocated when the store is made, so
/// that a call fails only where its range goes past that.
#[derive(Drop)]
pub struct MemStore {
    content: Vec<u8>,
    /// How many bytes the content may have. The vector has this capacity.
    most: usize,
    synced: bool,
    failures: u64,
}

impl Model for MemStore {
    ghost use Rattle.std.specs.Prelude.{◌≤◌, length, vec_capacity};
    ghost use Rattle.media_store.specs.States.{MemoryState};

    ghost Value = { MemoryState };

    ghost view = { λ store. record { content = store.content.items; most = store.most; synced = store.synced; failures = store.failures } };

    ghost invariant = { λ store. (length store.content.items ≤ store.most) × (store.most ≤ vec_capacity store.content) };
}

impl MemStore {
    /// Returns a store of `len` zero bytes that may grow up to `most` bytes.
    pub fn new(alloc: Global, len: usize, most: usize) -> Result<MemStore, AllocError>
        requires { len ≤ most }
        ensures { IfOk result (λ store. store ≡ record { content = replicate len 0; most = most; synced = false; failures = 0 }) }
    {
        let mut content = Vec::with_capacity(alloc, most)?;
        content.resize(len, 0)?;
        Ok(MemStore {
            content,
            most,
            synced: false,
            failures: 0,
        })
    }
}

/// Gives the content a length for which there is room.
fn resize(content: &mut Vec<u8>, len: usize)
    requires { len ≤ vec_capacity content.old }
    ensures resized { content.new.items ≡ resized len content.old.items }
    ensures room { vec_capacity content.old ≤ vec_capacity content.new }
{
    // There is room, so no allocation is tried that could fail.
    let _resized = content.resize(len, 0);
}

/// Writes bytes over those that stand there.
fn overwrite(content: &mut Vec<u8>, at: usize, bytes: &[u8])
    requires { at + length bytes.now ≤ length content.old.items }
    ensures written { content.new.items ≡ take at content.old.items ++ (bytes.now ++ drop (at + length bytes.now) content.old.items) }
    ensures room { vec_capacity content.old ≤ vec_capacity content.new }
{
    content[at..at + bytes.len()].copy_from_slice(bytes);
}

/// Writes bytes after all that stand there, if there is room for them.
fn append(content: &mut Vec<u8>, bytes: &[u8])
    requires { length content.old.items + length bytes.now ≤ vec_capacity content.old }
    ensures written { content.new.items ≡ content.old.items ++ bytes.now }
    ensures room { vec_capacity content.old ≤ vec_capacity content.new }
{
    // There is room, so no allocation is tried that could fail.
    let _appended = content.extend_from_slice(bytes);
}

/// Writes bytes into the content, where there is room for them.
fn write(content: &mut Vec<u8>, at: usize, bytes: &[u8])
    requires { at + length bytes.now ≤ vec_capacity content.old }
    ensures written { content.new.items ≡ written at bytes.now content.old.items }
    ensures room { vec_capacity content.old ≤ vec_capacity content.new }
{
    if bytes.is_empty() {
        return;
    }
    if at == content.len() {
        // As a tape is written. No zeros are put there first.
        append(content, bytes);
        return;
    }
    let end = at + bytes.len();
    if content.len() < end {
        resize(content, end);
    }
    overwrite(content, at, bytes);
}

/// Returns whether a range of this length lies below an end.
fn is_below(at: u64, length: usize, end: usize) -> bool
    ensures { IsTrue result ↔ (at + length ≤ end) }
{
    at as usize <= end && length <= end - at as usize
}

impl Store for MemStore {
    ghost content = { λ store. store.content };

    ghost synced = { λ store. store.synced };

    ghost failures = { λ store. store.failures };

    ghost honest = { λ _. true };

    ghost steady = { λ _. true };

    ghost reach = { λ store. store.most };

    ghost atomic = { λ _. true };

    fn len(&mut self) -> Result<u64, StoreFault>
        ensures value { result ≡ Ok (length self.old.content) }
        ensures after { self.new ≡ self.old }
    {
        Ok(self.content.len() as u64)
    }

    fn read_at(&mut self, at: u64, buf: &mut [u8]) -> Result<(), StoreFault>
        ensures within { IsOk result ↔ (at + length buf.old ≤ length self.old.content) }
        ensures ok { OnOk result (buf.new ≡ slice_range self.old.content at (at + length buf.old)) }
        ensures after_ok { OnOk result (self.new ≡ self.old) }
        ensures after_err { OnErr result (self.new ≡ record self.old { failures = risen self.old.failures }) }
    {
        if !is_below(at, buf.len(), self.content.len()) {
            return Err(count(&mut self.failures));
        }
        let at = at as usize;
        buf.copy_from_slice(&self.content[at..at + buf.len()]);
        Ok(())
    }

    fn lend(&self, at: u64, len: usize) -> Option<&[u8]>
        ensures within { IsSome result ↔ (at + len ≤ length self.now.content) }
        ensures lent { IfSome result (λ bytes. bytes.now ≡ slice_range self.now.content at (at + len)) }
    {
        if !is_below(at, len, self.content.len()) {
            return None;
        }
        let at = at as usize;
        Some(&self.content[at..at + len])
    }

    fn write_at(&mut self, at: u64, bytes: &[u8]) -> Result<(), StoreFault>
        ensures within { IsOk result ↔ (at + length bytes.now ≤ self.old.most) }
        ensures room { length self.old.content ≤ self.old.most }
        ensures ok { OnOk result (self.new ≡ record self.old { content = written at bytes.now self.old.content; synced = false }) }
        ensures err { OnErr result (self.new ≡ record self.old { synced = false; failures = risen self.old.failures }) }
    {
        self.synced = false;
        if !is_below(at, bytes.len(), self.most) {
            return Err(count(&mut self.failures));
        }
        write(&mut self.content, at as usize, bytes);
        Ok(())
    }

    fn set_len(&mut self, len: u64) -> Result<(), StoreFault>
        ensures within { IsOk result ↔ (len ≤ self.old.most) }
        ensures room { length self.old.content ≤ self.old.most }
        ensures ok { OnOk result (self.new ≡ record self.old { content = resized len self.old.content; synced = false }) }
        ensures err { OnErr result (self.new ≡ record self.old { synced = false; failures = risen self.old.failures }) }
    {
        self.synced = false;
        if !is_below(len, 0, self.most) {
            return Err(count(&mut self.failures));
        }
        resize(&mut self.content, len as usize);
        Ok(())
    }

    fn sync(&mut self) -> Result<(), StoreFault>
        ensures ok { IsOk result }
        ensures after { self.new ≡ record self.old { synced = true } }
    {
        self.synced = true;
        Ok(())
    }
}
