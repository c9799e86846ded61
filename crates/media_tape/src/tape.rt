//! The calls on a tape.

ghost use Rattle.std.specs.Prelude.{◌≡◌, ◌≤◌, [], length, true, IsTrue, IfOk, IfErr};
ghost use Rattle.media_tape.specs.Items.{items_of, is_tape, size_of};
ghost use Rattle.media_tape.specs.Fault.{failures_after, Explains};
ghost use Rattle.media_tape.specs.Tape.{located_at, located_told, is_early};
ghost use Rattle.media_tape.specs.Space.{spaced_told, tape_spaced, tape_ended};
ghost use Rattle.media_tape.specs.declared.fault.TapeOpenFault.TheVariants.{OutOfMemory};

use crate::fault::{NotOpened, TapeOpenFault};
use crate::outcome::Located;
use crate::walk::walk;
use media_store::Store;
use std::alloc::Global;
use std::marker::Model;
use tape_index::{Direction, Index, Over, Spaced};

/// Records and filemarks in a store, and a position among them. Lengths and sizes are in bytes.
#[derive(Drop)]
pub struct Tape<S: Store> {
    pub(crate) store: S,
    pub(crate) capacity: u64,
    pub(crate) early_mark: u64,
    pub(crate) is_loaded: bool,
    /// The sizes of the items, and so their places.
    pub(crate) index: Index,
    /// The number of items before the position.
    pub(crate) position: u64,
    /// Whether the last write or cut failed, so that something may stand after the items.
    pub(crate) is_torn: bool,
    pub(crate) alloc: Global,
}

impl<S: Store> Model for Tape<S> {
    ghost use Rattle.std.specs.Prelude.{take, drop, sum};
    ghost use Rattle.media_tape.specs.Items.{items_sized};
    ghost use Rattle.media_tape.specs.Tape.{TapeState, IsIndexed};

    ghost Value = { TapeState };

    ghost view = { λ tape. record {
      before = take tape.position (items_sized tape.index.sizes (S.Store.content tape.store));
      after = drop tape.position (items_sized tape.index.sizes (S.Store.content tape.store));
      tail = drop (sum tape.index.sizes) (S.Store.content tape.store);
      is_loaded = tape.is_loaded;
      capacity = tape.capacity;
      early_mark = tape.early_mark;
      synced = S.Store.synced tape.store;
      failures = S.Store.failures tape.store;
      honest = S.Store.honest tape.store;
      steady = S.Store.steady tape.store;
      reach = S.Store.reach tape.store;
      atomic = S.Store.atomic tape.store;
    } };

    ghost invariant = { λ tape. IsIndexed (S.Store.honest tape.store) (S.Store.content tape.store) tape.index.sizes tape.is_torn tape.position tape.capacity };
}

impl<S: Store> Tape<S> {
    /// Opens a store as a loaded tape with this capacity and early mark, and its position before all items. If that
    /// fails, it returns the store.
    pub fn open(
        alloc: Global,
        mut store: S,
        capacity: u64,
        early_mark: u64,
    ) -> Result<Tape<S>, NotOpened<S>>
        ensures before { IfOk result (λ tape. tape.before ≡ []) }
        ensures after { IfOk result (λ tape. IsTrue tape.honest → tape.after ≡ items_of (S.Store.content store)) }
        ensures tail { IfOk result (λ tape. IsTrue tape.honest → tape.tail ≡ []) }
        ensures tape { IfOk result (λ tape. IsTrue tape.honest → is_tape (S.Store.content store) ≡ true) }
        ensures fits { IfOk result (λ tape. IsTrue tape.honest → length (S.Store.content store) ≤ capacity) }
        ensures sized { IfOk result (λ tape. size_of tape.after ≤ capacity) }
        ensures set { IfOk result (λ tape. (tape.is_loaded ≡ true) × (tape.capacity ≡ capacity) × (tape.early_mark ≡ early_mark)) }
        ensures synced { IfOk result (λ tape. tape.synced ≡ S.Store.synced store) }
        ensures failures { IfOk result (λ tape. tape.failures ≡ S.Store.failures store) }
        ensures steady { IfOk result (λ tape. tape.steady ≡ S.Store.steady store) }
        ensures reach { IfOk result (λ tape. tape.reach ≡ S.Store.reach store) }
        ensures atomic { IfOk result (λ tape. tape.atomic ≡ S.Store.atomic store) }
        ensures back { IfOk result (λ tape. IsTrue tape.honest → IsTrue (S.Store.honest store)) }
        ensures stays { IfOk result (λ tape. IsTrue (S.Store.steady store) → IsTrue (S.Store.honest store) → IsTrue tape.honest) }
        ensures succeeds { IsTrue (S.Store.steady store) → IsTrue (S.Store.honest store) → is_tape (S.Store.content store) ≡ true
            → length (S.Store.content store) ≤ capacity → IfErr result (λ refused. refused.fault ≡ OutOfMemory) }
        ensures explained { IfErr result (λ refused. IsTrue (S.Store.honest refused.store)
            → Explains (S.Store.content store) capacity refused.fault) }
        ensures counted { IfErr result (λ refused. S.Store.failures refused.store ≡ failures_after refused.fault (S.Store.failures store)) }
        ensures given_back { IfErr result (λ refused. S.Store.content refused.store ≡ S.Store.content store) }
        ensures synced_back { IfErr result (λ refused. S.Store.synced refused.store ≡ S.Store.synced store) }
        ensures back_refused { IfErr result (λ refused. IsTrue (S.Store.honest refused.store) → IsTrue (S.Store.honest store)) }
    {
        let Ok(end) = store.len() else {
            return Err(NotOpened {
                fault: TapeOpenFault::Device,
                store,
            });
        };
        let index = match walk(alloc, &mut store, end) {
            Ok(index) => index,
            Err(fault) => return Err(NotOpened { fault, store }),
        };
        let place = index.end();
        if place < end {
            return Err(NotOpened {
                fault: TapeOpenFault::TornEnd(place),
                store,
            });
        }
        if capacity < end {
            return Err(NotOpened {
                fault: TapeOpenFault::TooLong,
                store,
            });
        }
        Ok(Tape {
            store,
            capacity,
            early_mark,
            is_loaded: true,
            index,
            position: 0,
            is_torn: false,
            alloc,
        })
    }

    /// Returns the number of items before the position (SSC-4 "READ POSITION").
    pub fn position(&self) -> u64
        ensures { result ≡ length self.now.before }
    {
        self.position
    }

    /// Sets the position after `number` items, or after all if there are fewer (SSC-4 "LOCATE (10)"). It calls no
    /// store.
    pub fn locate(&mut self, number: u64) -> Located
        ensures told { result ≡ located_told number self.old }
        ensures tape { self.new ≡ located_at number self.old }
    {
        let count = self.index.count();
        if count < number {
            self.position = count;
            return Located::EndOfData;
        }
        self.position = number;
        Located::There
    }

    /// Moves the position over `count` records or filemarks, or until spacing ends before that (SSC-4 "SPACE (6)"). It
    /// calls no store.
    pub fn space(&mut self, toward: Direction, over: Over, count: u32) -> Spaced
        ensures told { result ≡ spaced_told toward over count self.old }
        ensures tape { self.new ≡ tape_spaced toward over count self.old }
    {
        let ended = self.index.space(toward, over, self.position, count);
        self.position = ended.number;
        ended.told
    }

    /// Sets the position after all items (SSC-4 "SPACE (6)", end of data). It calls no store.
    pub fn space_to_end(&mut self)
        ensures { self.new ≡ tape_ended self.old }
    {
        self.position = self.index.count();
    }

    /// Returns whether the items before the position exceed the early warning mark.
    pub fn is_early(&self) -> bool
        ensures { result ≡ is_early self.now }
    {
        self.early_mark < self.index.place_of(self.position)
    }

    /// Sets the position before all items (SSC-4 "REWIND").
    pub fn rewind(&mut self)
        ensures { self.new ≡ located_at 0 self.old }
    {
        self.position = 0;
    }

    /// Loads or unloads the tape, and rewinds it (SSC-4 "LOAD UNLOAD").
    pub fn load(&mut self, is_loaded: bool)
        ensures { self.new ≡ record (located_at 0 self.old) { is_loaded = is_loaded } }
    {
        self.rewind();
        self.is_loaded = is_loaded;
    }

    /// Returns whether the tape is loaded.
    pub fn is_loaded(&self) -> bool
        ensures { result ≡ self.now.is_loaded }
    {
        self.is_loaded
    }
}
