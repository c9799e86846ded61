//! What remains after a run.

ghost use Rattle.std.specs.Prelude.{◌≡◌, [], None, Some};

use call_record::Record;
use iscsi_ports::MioPorts;
use iscsi_target::Target;
use media_store::Start;
use standard_streams::Streams;
use target_units::{Refused, SystemStore};

/// Ports that were served, and the target that served them.
#[derive(Drop)]
pub struct Served<S: Start> {
    pub ports: MioPorts,
    pub target: Target<SystemStore<S>>,
}

/// What remains after a run. With it the clauses state what the system reported, and whether the target is sound.
#[derive(Drop)]
pub struct Left<S: Start> {
    /// What stands in for standard streams that were closed. It is kept until the program ends.
    pub streams: Streams,
    /// What the system reported about the configuration's file.
    pub told: Record,
    /// What is left of the file of a unit that was not opened.
    pub refused: Refused<S>,
    /// What the system reported about an address that is not listened on.
    pub unbound: Record,
    /// What the system reported about the log.
    pub logged: Record,
    /// The target of a replay.
    pub replayed: Option<Target<SystemStore<S>>>,
    pub served: Option<Served<S>>,
}

impl<S: Start> Left<S> {
    /// Returns what remains before anything is done: nothing.
    pub fn new() -> Left<S>
        ensures told { result.told.calls ≡ [] }
        ensures replayed { result.replayed ≡ None }
        ensures served { result.served ≡ None }
    {
        Left {
            streams: Streams::none(),
            told: Record::new(),
            refused: Refused::Nothing,
            unbound: Record::new(),
            logged: Record::new(),
            replayed: None,
            served: None,
        }
    }

    /// Forgets what was noted of an address and of the log.
    pub fn forget_start(&mut self)
        ensures told { self.new.told.calls ≡ self.old.told.calls }
        ensures streams { self.new.streams ≡ self.old.streams }
        ensures unbound { self.new.unbound.calls ≡ [] }
        ensures logged { self.new.logged.calls ≡ [] }
    {
        self.unbound = Record::new();
        self.logged = Record::new();
    }

    // The drop of what was served is long wherever it stands, so it stands in a function of its own.

    /// Keeps ports that were served, and the target that served them.
    pub fn keep_served(&mut self, served: Served<S>)
        ensures told { self.new.told.calls ≡ self.old.told.calls }
        ensures streams { self.new.streams ≡ self.old.streams }
        ensures logged { self.new.logged.calls ≡ self.old.logged.calls }
        ensures served { self.new.served ≡ Some served }
    {
        self.served = Some(served);
    }
}
