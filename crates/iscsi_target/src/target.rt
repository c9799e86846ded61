//! The target: the state of all connections and all units.

ghost use Rattle.std.specs.Prelude.{◌≡◌, ◌<◌, ◌≤◌, ◌+◌, ◌++◌, ◌∷◌, ℕ, List, [], true, false, not, length, IsOk, IfOk, IfErr, IfSome, IfNone, OnOk};
ghost use Rattle.iscsi_pdu.specs.Header.{header_length};
ghost use Rattle.iscsi_world.specs.Bounded.{Bounded};
ghost use Rattle.iscsi_world.specs.History.{Open, Bytes, Gone, Mark, History, plain, marked};
ghost use Rattle.iscsi_world.specs.World.{Setting, world};
ghost use Rattle.iscsi_world.specs.Machine.{LinkState, Machine, ReflectsSoundness, WhereSound, IsSure, Feeds, KeepsPart, free_link, opened_link, new_machine, link_at, with_link, closed, is_reading, is_settled, is_with, target_in, is_open_at, is_closing, want_of};
ghost use Rattle.iscsi_target.specs.Feeding.{LendsRoomAt, LacksRoom, TakesPiece};
ghost use Rattle.iscsi_target.specs.Rooms.{filled_in};
ghost use Rattle.iscsi_target.specs.Known.{known_in};
ghost use Rattle.iscsi_world.specs.Stands.{Stands, StandsAfter, IsStarved, with_sent};
ghost use Rattle.iscsi_world.specs.Serving.{Takes, first_starved, ended_unless, starved_by};

use crate::config::Config;
use data_parts::SpareBuffers;
use iscsi_connection::{Connection, Connections};
use iscsi_framer::FrameRoom;
use iscsi_login::{Directory, is_same_target};
use iscsi_world::{Phase, Starved};
use media_store::Store;
use scsi_unit::Units;
use std::alloc::Global;
use std::marker::Model;
use target_limits::Memory;

/// An iSCSI target, as RFC 7143 defines it. Connections bring bytes and carry answers.
///
/// The caller opens a connection under a free number below 64, feeds what arrives on it, sends what waits, and
/// reports its end.
///
/// The promises about answers and units hold if the stores of all units are honest and no call of one has failed
/// (`WhereSound`). A target that is sound after a call was sound before it
/// ([`sound_targets_were_sound`](crate::laws::sound_targets_were_sound)).
pub struct Target<S: Store> {
    pub(crate) alloc: Global,
    pub(crate) directory: Directory,
    pub(crate) units: Vec<Units<S>>,
    pub(crate) connections: Connections,
    /// The next connection to release room that it does not need.
    pub(crate) resting: usize,
}

impl<S: Store> Model for Target<S> {
    ghost use Rattle.std.specs.Prelude.{◌≡◌, length};
    ghost use Rattle.std.specs.List.{All};
    ghost use Rattle.iscsi_world.specs.Machine.{LinkState, Machine, IsWithin};

    ghost Value = { Machine };

    ghost view = { λ t. record { directory = t.directory; units = t.units.items; links = t.connections } };

    ghost invariant = { λ t. (length t.connections ≡ 64) × (length t.units.items ≡ length t.directory.names)
        × All (λ (link : LinkState). IsWithin (length t.units.items) link.phase) t.connections };
}

// Dropped by a call of its own, so that code that drops a target does not take its units and connections apart.
impl<S: Store + Drop> Drop for Target<S> {
    fn drop(self) {
        let Target {
            alloc: _alloc,
            directory: _directory,
            units: _units,
            connections: _connections,
            resting: _resting,
        } = self;
    }
}

impl<S: Store + Drop> Target<S> {
    /// Returns a target with these units, one list for each target of the configuration in order. No connection is
    /// open.
    pub fn new(alloc: Global, config: Config, units: Vec<Units<S>>) -> Result<Target<S>, Memory>
        requires { length units.items ≡ length config.targets.items }
        ensures made { IfOk result (λ target. target ≡ new_machine (known_in config) units.items) }
        ensures stands { IfOk result (λ target. Stands (record { directory = known_in config; units = units.items }) (λ _. 0) target []) }
        ensures bounded { IfOk result (λ target. Bounded target) }
    {
        let connections = Connections::free(alloc)?;
        Ok(Target {
            alloc,
            directory: Directory {
                targets: config.targets,
                portal: config.listen,
            },
            units,
            connections,
            resting: 0,
        })
    }
}

impl<S: Store> Target<S> {
    /// Opens a connection under a free number. Allocates nothing and does not fail; it returns what every event does.
    pub fn open(&mut self, c: usize) -> Result<(), Starved>
        requires in_range { c < 64 }
        requires free { is_open_at self.old c ≡ false }
        ensures ok { IsOk result }
        ensures now { self.new ≡ with_link self.old c (opened_link c) }
        ensures count { length self.old.links ≡ 64 }
        ensures each { ReflectsSoundness self.old self.new }
        ensures sure { IsSure self.old → IsSure self.new }
        ensures always { (s : Setting) (sent : ℕ → ℕ) (h : History) → Stands s sent self.old h
            → Stands s (with_sent sent c 0) self.new (h ++ plain (Open c) ∷ []) }
        ensures bounded { Bounded self.old → Bounded self.new }
    {
        self.connections.put(c, Connection::opened(self.alloc, c));
        Ok(())
    }

    /// Takes the next piece of a connection's bytes, of any length. Each frame that becomes whole is carried out and
    /// answered. Bytes on a closing connection are not read.
    ///
    /// `Starved`: an allocation failed. The connection that it names is closing from then on; the others go on.
    pub fn feed(&mut self, c: usize, piece: &[u8]) -> Result<(), Starved>
        requires in_range { c < 64 }
        requires open { is_open_at self.old c ≡ true }
        ensures stands { OnOk result ((s : Setting) (sent : ℕ → ℕ) (h : History) → WhereSound self.old (Stands s sent self.old h)
            → WhereSound self.new (Stands s sent self.new (h ++ plain (Bytes c piece.now) ∷ []))) }

        // Failed allocations are marks on the event, and only these are.
        ensures starved { IfErr result (λ starved. (s : Setting) (sent : ℕ → ℕ) (h : History) → WhereSound self.old (Stands s sent self.old h)
            → WhereSound self.new ((marks : List Mark) × IsStarved s (world s h) (Bytes c piece.now) starved.connection marks
            × Stands s sent self.new (h ++ marked marks (Bytes c piece.now) ∷ []))) }

        // This holds of every target, whatever its stores do: the commands came out as these comings say.
        ensures came { (s : Setting) (sent : ℕ → ℕ) (h : History) → Stands s sent self.old h
            → StandsAfter s sent h (Bytes c piece.now) (first_starved result) self.new }
        ensures each { ReflectsSoundness self.old self.new }
        ensures sure { IsSure self.old → IsSure self.new }
        ensures feeds { Feeds c self.old self.new }
        ensures part { KeepsPart c self.old self.new }
        ensures closing { IfErr result (λ starved. is_closing (link_at self.new starved.connection).phase ≡ true) }

        // If no more comes than is wanted, no connection makes the target hold more than it may.
        ensures bounded { length piece.now ≤ want_of (link_at self.old c) → Bounded self.old → Bounded self.new }
        ensures empty { piece.now ≡ [] → IsOk result }
        ensures idle { is_closing (link_at self.old c).phase ≡ true → IsOk result }
    {
        if piece.is_empty() {
            return Ok(());
        }
        if !self.reads(c) {
            return Ok(());
        }
        let taken = self.take_piece(c, piece);
        self.forget_unneeded(c);
        taken
    }

    /// Lends the buffer of the PDU that is half read on a connection to a reader, who is to fill `room` bytes of it with
    /// the next bytes of the connection, so that they are not copied. Then [`Target::feed_room`] or
    /// [`Target::return_room`] is to be called before anything else. Returns `None`, and changes nothing, if no buffer
    /// with this room is at hand; then [`Target::feed`] takes the bytes.
    pub fn lend_room(&mut self, c: usize, room: usize) -> Option<FrameRoom>
        requires { c < 64 }
        ensures lent { IfSome result (λ lent. LendsRoomAt c lent room self.old self.new) }
        ensures count { length self.old.links ≡ 64 }
        ensures none { IfNone result (self.new ≡ self.old) }
    {
        if !self.reads(c) {
            return None;
        }
        match self.home(c) {
            Some(target) => self.lend_for(c, room, target),
            None => self.lend_with(c, room, &mut SpareBuffers::new(self.alloc)),
        }
    }

    /// Takes back the buffer that [`Target::lend_room`] lent, of which the reader has filled `count` bytes. These are the
    /// next piece of the connection's bytes, which is taken as by [`Target::feed`].
    pub fn feed_room(&mut self, c: usize, lent: FrameRoom, count: usize) -> Result<(), Starved>
        requires in_range { c < 64 }
        requires reads { is_reading (link_at self.old c).phase ≡ true }
        requires header { length (link_at self.old c).half ≡ header_length }
        requires within { lent.from + count ≤ length lent.buffer.items }
        ensures { (before : Machine) → LacksRoom c lent before self.old → TakesPiece c (filled_in lent count) result before self.new }
    {
        self.take_room(c, lent, count);
        self.take_filled(c)
    }

    /// Takes back the buffer that [`Target::lend_room`] lent to a reader to whom nothing came.
    pub fn return_room(&mut self, c: usize, lent: FrameRoom)
        requires in_range { c < 64 }
        requires reads { is_reading (link_at self.old c).phase ≡ true }
        requires header { length (link_at self.old c).half ≡ header_length }
        requires within { lent.from ≤ length lent.buffer.items }
        ensures same { (before : Machine) → LacksRoom c lent before self.old → self.new ≡ before }
        ensures still { is_open_at self.new c ≡ true }
    {
        self.take_room(c, lent, 0);
    }

    /// Removes a connection that has ended, and frees its number. What waits on it is dropped.
    pub fn gone(&mut self, c: usize)
        requires in_range { c < 64 }
        requires open { is_open_at self.old c ≡ true }
        ensures now { self.new ≡ with_link (closed self.old c) c free_link }
        ensures count { length self.old.links ≡ 64 }
        ensures each { ReflectsSoundness self.old self.new }
        ensures sure { IsSure self.old → IsSure self.new }
        ensures always { (s : Setting) (sent : ℕ → ℕ) (h : History) → Stands s sent self.old h
            → Stands s (with_sent sent c 0) self.new (h ++ plain (Gone c) ∷ []) }
        ensures bounded { Bounded self.old → Bounded self.new }
    {
        self.close(c);
        self.connections.put(c, Connection::free(self.alloc));
    }

    /// Returns whether the connection is closing: what waits is still sent, and nothing more is read.
    pub fn closing(&self, c: usize) -> bool
        requires in_range { c < 64 }
        requires open { is_open_at self.now c ≡ true }
        ensures { result ≡ is_closing (link_at self.now c).phase }
    {
        self.connections.at(c).phase().is_closing()
    }

    /// Returns whether the connection was opened and has not ended.
    pub fn is_open(&self, c: usize) -> bool
        requires { c < 64 }
        ensures { result ≡ is_open_at self.now c }
    {
        !self.connections.at(c).phase().is_free()
    }

    /// Returns how many bytes to read next: those missing of a header, or of its frame. Returns 0 if the connection
    /// is closing or more than 1,048,576 bytes wait.
    pub fn want(&self, c: usize) -> usize
        requires in_range { c < 64 }
        requires open { is_open_at self.now c ≡ true }
        ensures { result ≡ want_of (link_at self.now c) }
    {
        if self.connections.is_full(c) {
            return 0;
        }
        let connection = self.connections.at(c);
        if connection.phase().is_closing() {
            return 0;
        }
        connection.want()
    }

    /// Returns whether the connection's frames are read.
    pub(crate) fn reads(&self, c: usize) -> bool
        requires { c < 64 }
        ensures value { result ≡ is_reading (link_at self.now c).phase }
        ensures count { length self.now.links ≡ 64 }
    {
        self.connections.at(c).phase().reads()
    }

    /// Returns the target of the connection's session, if it has one.
    pub(crate) fn target_at(&self, c: usize) -> Option<usize>
        requires { c < 64 }
        ensures { result ≡ target_in (link_at self.now c).phase }
    {
        self.connections.at(c).target()
    }

    /// Returns whether the connection has a session with this target.
    pub(crate) fn is_with(&self, c: usize, target: usize) -> bool
        requires { c < 64 }
        ensures { result ≡ is_with target (link_at self.now c).phase }
    {
        is_same_target(self.target_at(c), Some(target))
    }

    /// Returns the lowest number, from `from` on, of a connection whose session has a command that can be done.
    pub(crate) fn next_unsettled(&mut self, from: usize) -> Option<usize>
        ensures same { self.new ≡ self.old }
        ensures found { IfSome result (λ c. (from ≤ c) × (c < 64)) }
        ensures before { IfSome result (λ c. (d : ℕ) → from ≤ d → d < c → is_settled (link_at self.old d).phase ≡ true) }
        ensures none { IfNone result ((d : ℕ) → from ≤ d → d < 64 → is_settled (link_at self.old d).phase ≡ true) }
        ensures count { length self.old.links ≡ 64 }
    {
        self.connections.next_unsettled(from)
    }

    /// Closes the connection and ends its session.
    #[tactic(auto, unfolding(iscsi_world::specs::Machine::closed, iscsi_world::specs::World::changed_units))]
    pub(crate) fn close(&mut self, c: usize)
        requires { c < 64 }
        ensures closed { self.new ≡ closed self.old c }
        ensures count { length self.old.links ≡ 64 }
    {
        let connection = self.connections.at_mut(c);
        if let Phase::FullFeature(session) = connection.phase() {
            let params = session.params();
            if let Some(target) = params.target {
                let units = &mut self.units[target];
                units.leave(&params.nexus);
            }
        }
        connection.shut();
    }

    /// Closes the connection because an allocation failed.
    pub(crate) fn starve(&mut self, c: usize) -> Starved
        requires { c < 64 }
        ensures closed { self.new ≡ closed self.old c }
        ensures count { length self.old.links ≡ 64 }
        ensures names { result.connection ≡ c }
    {
        self.close(c);
        Starved { connection: c }
    }

    /// Closes a session that does not go on.
    pub(crate) fn end_unless(
        &mut self,
        c: usize,
        goes_on: Result<bool, Memory>,
    ) -> Result<(), Starved>
        requires { c < 64 }
        ensures value { first_starved result ≡ starved_by c goes_on }
        ensures same { self.new ≡ ended_unless goes_on c self.old }
        ensures count { length self.old.links ≡ 64 }
    {
        // Reads a field, so that the type's invariant is known here (clause `count`).
        let _ = &self.alloc;
        match goes_on {
            Ok(true) => Ok(()),
            Ok(false) => {
                self.close(c);
                Ok(())
            }
            Err(Memory) => Err(self.starve(c)),
        }
    }
}
