//! The store that keeps the bytes of a disk or a tape.

use data_parts::Data;
use media_store::{FileStore, MemStore, Store, StoreFault, SystemFile};

/// A store in memory, or a store `F` in a file.
#[derive(Drop)]
pub enum MediumStore<F: Store> {
    Memory(MemStore),
    File(F),
}

/// A store in memory, or in a file of the system. `S` stands for what the files hold when they are opened.
pub type SystemStore<S> = MediumStore<FileStore<SystemFile, S>>;

impl<F: Store> Store for MediumStore<F> {
    ghost use Rattle.target_units.specs.Store.{by_kind};
    ghost use Rattle.std.specs.Prelude.{true};

    ghost content = { by_kind (λ store. store.content) F.Store.content };

    ghost synced = { by_kind (λ store. store.synced) F.Store.synced };

    ghost failures = { by_kind (λ store. store.failures) F.Store.failures };

    ghost honest = { by_kind (λ _. true) F.Store.honest };

    ghost steady = { by_kind (λ _. true) F.Store.steady };

    ghost reach = { by_kind (λ store. store.most) F.Store.reach };

    ghost atomic = { by_kind (λ _. true) F.Store.atomic };

    fn len(&mut self) -> Result<u64, StoreFault> {
        match self {
            MediumStore::Memory(store) => store.len(),
            MediumStore::File(store) => store.len(),
        }
    }

    fn read_at(&mut self, at: u64, buf: &mut [u8]) -> Result<(), StoreFault> {
        match self {
            MediumStore::Memory(store) => store.read_at(at, buf),
            MediumStore::File(store) => store.read_at(at, buf),
        }
    }

    fn lend(&self, at: u64, len: usize) -> Option<&[u8]> {
        match self {
            MediumStore::Memory(store) => store.lend(at, len),
            MediumStore::File(store) => store.lend(at, len),
        }
    }

    fn write_at(&mut self, at: u64, bytes: &[u8]) -> Result<(), StoreFault> {
        match self {
            MediumStore::Memory(store) => store.write_at(at, bytes),
            MediumStore::File(store) => store.write_at(at, bytes),
        }
    }

    fn write_parts(&mut self, at: u64, count: u64, data: &Data) -> Result<(), StoreFault> {
        match self {
            MediumStore::Memory(store) => store.write_parts(at, count, data),
            MediumStore::File(store) => store.write_parts(at, count, data),
        }
    }

    fn set_len(&mut self, len: u64) -> Result<(), StoreFault> {
        match self {
            MediumStore::Memory(store) => store.set_len(len),
            MediumStore::File(store) => store.set_len(len),
        }
    }

    fn sync(&mut self) -> Result<(), StoreFault> {
        match self {
            MediumStore::Memory(store) => store.sync(),
            MediumStore::File(store) => store.sync(),
        }
    }
}
