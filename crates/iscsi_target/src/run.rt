//! A target that runs through a whole history.

ghost use Rattle.std.specs.Prelude.{All, ◌≡◌, ℕ, List, [], ◌∷◌, ◌++◌, true, length, map, IfOk, OnOk};
ghost use Rattle.iscsi_target.specs.Known.{known_in};
ghost use Rattle.iscsi_world.specs.History.{History, well_formed as is_well_formed, open_after, plain};
ghost use Rattle.iscsi_target.specs.Events.{event_view, events_view, plain_history};
ghost use Rattle.iscsi_world.specs.History as history;
ghost use Rattle.iscsi_world.specs.World.{Setting};
ghost use Rattle.iscsi_world.specs.Output.{outputs as outputs_of, media_in, media};
ghost use Rattle.iscsi_world.specs.Isolation.{GivesItsOwn};
ghost use Rattle.iscsi_world.specs.Stands.{Stands};
ghost use Rattle.iscsi_world.specs.Runs.{Runs, RunsThrough, MayCome, AreOpen, finished, ended};
ghost use Rattle.iscsi_target.specs.Rows.{seen};
ghost use Rattle.iscsi_world.specs.Machine.{WhereSound, IsSoundAt, IsSure};
ghost use Rattle.scsi_unit.specs.Units.{AreSure};

use crate::config::Config;
use crate::event::Event;
use crate::target::Target;
use media_store::Store;
use scsi_unit::Units;
use std::alloc::Global;
use target_limits::Memory;

/// The bytes answered in each life of a connection, in the order in which the lives began.
pub type Outputs = Vec<Vec<u8>>;

/// One life of a connection: its connection until it ends, and from then on the bytes that it was answered.
#[derive(Drop)]
pub(crate) struct Row {
    connection: Option<usize>,
    bytes: Vec<u8>,
}

impl Row {
    /// Keeps what waits on the connection, unless it has ended before.
    fn finish<S: Store>(&mut self, target: &Target<S>) -> Result<(), Memory>
        ensures { OnOk result (seen self.new ≡ finished target.now (seen self.old)) }
    {
        if let Some(c) = self.connection {
            target.copy_out(c, &mut self.bytes)?;
        }
        self.connection = None;
        Ok(())
    }

    /// Ends the row if it is of this connection.
    fn end<S: Store>(&mut self, target: &Target<S>, c: usize) -> Result<(), Memory>
        ensures { OnOk result (seen self.new ≡ ended target.now c (seen self.old)) }
    {
        if self.connection == Some(c) {
            self.finish(target)?;
        }
        Ok(())
    }
}

/// Ends a connection: what waits on it is kept.
fn end<S: Store>(target: &Target<S>, rows: &mut [Row], c: usize) -> Result<(), Memory>
    ensures { OnOk result (map seen rows.new ≡ map (ended target.now c) (map seen rows.old)) }
{
    for row in rows.iter_mut() {
        row.end(target, c)?;
    }
    Ok(())
}

/// Ends the history: what waits on the connections that are still open is kept.
fn finish<S: Store>(target: &Target<S>, rows: &mut [Row]) -> Result<(), Memory>
    ensures { OnOk result (map seen rows.new ≡ map (finished target.now) (map seen rows.old)) }
{
    for row in rows.iter_mut() {
        row.finish(target)?;
    }
    Ok(())
}

/// Returns the bytes of each row.
fn bytes_of(alloc: Global, rows: Vec<Row>) -> Result<Outputs, Memory>
    ensures { IfOk result (λ outputs. outputs.items ≡ map (λ row. row.bytes) rows.items) }
{
    let outputs = rows.into_iter().map(|row| row.bytes).collect(alloc)?;
    Ok(outputs)
}

/// Returns the bytes answered in each life.
fn outputs<S: Store>(
    alloc: Global,
    target: &Target<S>,
    mut rows: Vec<Row>,
) -> Result<Outputs, Memory>
    ensures { IfOk result (λ outputs. map (λ output. output.items) outputs.items ≡ map (λ row. (finished target.now row).bytes) (map seen rows.items)) }
{
    finish(target, rows.as_mut_slice())?;
    bytes_of(alloc, rows)
}

/// Applies one event that may come.
fn take_event<S: Store>(
    alloc: Global,
    target: &mut Target<S>,
    rows: &mut Vec<Row>,
    event: &Event,
) -> Result<(), Memory>
    requires { MayCome target.old (event_view event.now) }
    ensures runs { OnOk result ((s : Setting) (before : List ℕ) (h : History) → WhereSound target.old (Runs s target.old (map seen rows.old.items) before h)
        → WhereSound target.new (Runs s target.new (map seen rows.new.items) (open_after before (event_view event.now))
        (h ++ plain (event_view event.now) ∷ []))) }
    ensures through { OnOk result ((s : Setting) (before : List ℕ) (es : List history.Event)
        → RunsThrough s target.old (map seen rows.old.items) before es
        → RunsThrough s target.new (map seen rows.new.items) (open_after before (event_view event.now)) (es ++ event_view event.now ∷ [])) }
    ensures sure { OnOk result (IsSure target.old → IsSure target.new) }
    ensures open { OnOk result ((before : List ℕ) → AreOpen target.old before → AreOpen target.new (open_after before (event_view event.now))) }
{
    match event {
        Event::Open(c) => {
            target.open(*c)?;
            rows.push(Row {
                connection: Some(*c),
                bytes: Vec::new(alloc),
            })?;
        }
        Event::Bytes(c, piece) => target.feed(*c, piece.as_slice())?,
        Event::Gone(c) => {
            end(target, rows.as_mut_slice(), *c)?;
            target.gone(*c);
        }
    }
    Ok(())
}

impl<S: Store + Drop> Target<S> {
    /// Puts a new target through events that are [`well_formed`](crate::well_formed). Nothing is sent meanwhile.
    /// Returns:
    ///
    /// - the bytes answered in each life of a connection,
    /// - the target after the events; if it is sound, its media are those of the World.
    ///
    /// Each of its targets whose units are sound is isolated (`isolated`). The answers of the connections that name
    /// it, and what its units keep, are those of their own events alone.
    ///
    /// `Memory`: an allocation failed, also if that would only close a connection.
    pub fn run(
        alloc: Global,
        config: Config,
        units: Vec<Units<S>>,
        events: &[Event],
    ) -> Result<(Outputs, Target<S>), Memory>
        requires units { length units.items ≡ length config.targets.items }
        requires well_formed { is_well_formed (events_view events.now) ≡ true }
        ensures sure { IfOk result (λ r. All AreSure (units.items) → IsSure r.1) }
        ensures stands { IfOk result (λ r. WhereSound r.1 (Stands
            (record { directory = known_in config; units = units.items }) (λ _. 0) r.1 (plain_history events.now))) }
        ensures outputs { IfOk result (λ r. WhereSound r.1 (map (λ output. output.items) r.0.items
            ≡ outputs_of (record { directory = known_in config; units = units.items }) (plain_history events.now))) }
        ensures media { IfOk result (λ r. WhereSound r.1 ((number : ℕ)
            → media_in r.1.units number ≡ media (record { directory = known_in config; units = units.items })
            (plain_history events.now) number)) }
        ensures isolated { IfOk result (λ r. (number : ℕ) → IsSoundAt number r.1
            → GivesItsOwn (record { directory = known_in config; units = units.items }) number (events_view events.now)
            (map (λ output. output.items) r.0.items) r.1) }
    {
        let mut target = Target::new(alloc, config, units)?;
        let mut rows = Vec::new(alloc);
        for event in events {
            take_event(alloc, &mut target, &mut rows, event)?;
        }
        let outputs = outputs(alloc, &target, rows)?;
        Ok((outputs, target))
    }
}
