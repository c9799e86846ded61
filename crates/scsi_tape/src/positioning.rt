//! The commands that set the position, or load the tape.

ghost use Rattle.std.specs.Prelude.{◌≡◌, ℕ, List, []};
ghost use Rattle.scsi_cdb.specs.declared.tape.TapeCommand.TheVariants.{Rewind, Space, SpaceToEndOfData, LoadUnload, Locate};
ghost use Rattle.scsi_tape.specs.Commands.{over_of, toward, space_outcome, locate_outcome};
ghost use Rattle.scsi_tape.specs.CameOut.{IsTapeDone};

use crate::sense::{beginning, end_of_data, filemark};
use crate::tape_unit::TapeUnit;
use media_store::Store;
use media_tape::{Direction, Located, Over, Spaced};
use scsi_cdb::{Distance, SpaceCode};
use scsi_sense::{Condition, Done, Sense};
use std::alloc::Global;

/// Returns what SPACE passes over: records or filemarks.
fn over(code: SpaceCode) -> Over
    ensures { result ≡ over_of code }
{
    match code {
        SpaceCode::LogicalBlocks => Over::Records,
        SpaceCode::Filemarks => Over::Filemarks,
    }
}

/// Returns the direction of a distance.
fn toward(distance: Distance) -> Direction
    ensures { result ≡ toward distance }
{
    if distance.is_backward {
        Direction::Backward
    } else {
        Direction::Forward
    }
}

/// Reports how SPACE ended; CHECK CONDITION carries the count that is left.
fn spaced(alloc: Global, spaced: Spaced) -> Done
    ensures told { result ≡ space_outcome spaced }
    ensures given { result.given ≡ [] }
{
    match spaced {
        Spaced::Whole => Done::good(alloc),
        Spaced::Filemark(left) => Done::check_condition(alloc, filemark(left)),
        Spaced::EndOfData(left) => Done::check_condition(alloc, end_of_data(left)),
        Spaced::Beginning(left) => Done::check_condition(alloc, beginning(left)),
    }
}

/// Reports how LOCATE ended.
fn located(alloc: Global, located: Located) -> Done
    ensures told { result ≡ locate_outcome located }
    ensures given { result.given ≡ [] }
{
    match located {
        Located::There => Done::good(alloc),
        Located::EndOfData => {
            Done::check_condition(alloc, Sense::new(Condition::EndOfDataDetected))
        }
    }
}

impl<S: Store> TapeUnit<S> {
    /// Carries out REWIND.
    pub(crate) fn rewind(&mut self, alloc: Global) -> Done
        ensures done { (bytes : List ℕ) → IsTapeDone Rewind bytes self.old self.new result }
        ensures given { result.given ≡ [] }
    {
        self.tape.rewind();
        Done::good(alloc)
    }

    /// Carries out LOAD UNLOAD.
    pub(crate) fn load_unload(&mut self, alloc: Global, load: bool) -> Done
        ensures done { (bytes : List ℕ) → IsTapeDone (LoadUnload load) bytes self.old self.new result }
        ensures given { result.given ≡ [] }
    {
        self.tape.load(load);
        Done::good(alloc)
    }

    /// Spaces over logical blocks or filemarks (SPACE (6)). It calls no store.
    pub(crate) fn space(&mut self, alloc: Global, code: SpaceCode, distance: Distance) -> Done
        ensures done { (bytes : List ℕ) → IsTapeDone (Space code distance) bytes self.old self.new result }
        ensures given { result.given ≡ [] }
    {
        let ended = self
            .tape
            .space(toward(distance), over(code), distance.count);
        spaced(alloc, ended)
    }

    /// Spaces to the end of data (SPACE (6)).
    pub(crate) fn space_to_end_of_data(&mut self, alloc: Global) -> Done
        ensures done { (bytes : List ℕ) → IsTapeDone SpaceToEndOfData bytes self.old self.new result }
        ensures given { result.given ≡ [] }
    {
        self.tape.space_to_end();
        Done::good(alloc)
    }

    /// Locates a logical object by its number (LOCATE (10)). It calls no store.
    pub(crate) fn locate(&mut self, alloc: Global, number: u32) -> Done
        ensures done { (bytes : List ℕ) → IsTapeDone (Locate number) bytes self.old self.new result }
        ensures given { result.given ≡ [] }
    {
        let ended = self.tape.locate(u64::from(number));
        located(alloc, ended)
    }
}
