//! Laws of the definitions. The functions do nothing: their contracts are the laws.

ghost use Rattle.iscsi_world.specs.History.{ArrivalsInPieces};
ghost use Rattle.iscsi_world.specs.Isolation.{TargetsAreIsolated, TargetsSeeTheirOwn, StrangersAreAlone, EventsAreLocal};
ghost use Rattle.iscsi_world.specs.Bounded.{CallsKeepBounded};
ghost use Rattle.iscsi_world.specs.Moment.{SessionsAreAtRest};
ghost use Rattle.iscsi_world.specs.Laws.{AnswersStay, SureIsSound, SoundTargetsWereSound, SessionsFinishAsTaken, LiveTagsAreDistinct, OthersStay, OthersGoOn, FailedUnitsStayFailed};

/// States that the cutting of a connection's bytes into pieces does not matter. The frames that become whole are
/// those of the joined bytes, in order, followed by at most one header that names too much data.
pub fn arrivals_in_pieces()
    ensures { ArrivalsInPieces }
{}

/// States that what was answered stays answered, however the commands come out. Bytes begin and end no life of a
/// connection, and the answers of each life only grow.
pub fn answers_stay()
    ensures { AnswersStay }
{}

/// States that a target whose stores cannot fail is sound.
pub fn sure_is_sound()
    ensures { SureIsSound }
{}

/// States that a target that is sound after a call was sound before it, where the call says so of each of its targets
/// (clause `each`). What the call says of any target (`always`) then holds where it is sound.
#[tactic(auto, using(iscsi_world::proofs::Reflected::sound_targets_were_sound))]
pub fn sound_targets_were_sound()
    ensures { SoundTargetsWereSound }
{}

/// States that each session that goes on takes each request at most once. What is finished was taken, in the order in
/// which it was taken. This holds of every history, wherever allocations failed.
#[tactic(auto, using(iscsi_world::proofs::Lawful::sessions_finish_as_taken))]
pub fn sessions_finish_as_taken()
    ensures { SessionsFinishAsTaken }
{}

/// States that in each session that goes on no two requests that are not finished have one Initiator Task Tag (RFC 7143
/// §11.2.1.8), whether they are SCSI Commands or Task Management Function Requests. This holds of every history.
#[tactic(auto, using(iscsi_world::proofs::Lawful::live_tags_are_distinct))]
pub fn live_tags_are_distinct()
    ensures { LiveTagsAreDistinct }
{}

/// States that after each event nothing is due in any session that goes on. No taken request still has to act, and no
/// R2T has to be sent. No Task Management Function Request has to be answered, and no command can be done.
#[tactic(auto, using(iscsi_world::proofs::Moment::sessions_are_at_rest))]
pub fn sessions_are_at_rest()
    ensures { SessionsAreAtRest }
{}

/// States that the end of a session or connection changes no answer and no session of another connection. A session
/// ends after a violation, a step that failed or a Logout.
#[tactic(auto, using(iscsi_world::proofs::Lawful::others_stay))]
pub fn others_stay()
    ensures { OthersStay }
{}

/// States that a violation ends only its own session. Whatever bytes come on a connection, and whatever their event
/// does, each other connection that was read goes on being read. The exceptions are a failed allocation for it, and a
/// login that reinstates its session.
#[tactic(auto, using(iscsi_world::proofs::Sparing::others_go_on))]
pub fn others_go_on()
    ensures { OthersGoOn }
{}

/// States that targets are isolated, whatever others log in, break, reset or reserve elsewhere, if no allocation
/// fails:
///
/// - `named`: the answers of the connections that name a target, and its units, are what they are without all other
///   connections.
/// - `selected`: the same holds of any choice of connections that includes these and none that names another target.
/// - `strangers`: a connection that names no target is answered as if it were alone.
pub fn targets_are_isolated()
    ensures selected { TargetsAreIsolated }
    ensures named { TargetsSeeTheirOwn }
    ensures strangers { StrangersAreAlone }
{}

/// States that an event is local. Its effect on its own connection and on a target depends only on three things: that
/// target's units and connections, what came on the connection before, and the event. An event elsewhere has no
/// effect there.
#[tactic(auto, using(iscsi_world::proofs::Isolation::events_are_local))]
pub fn events_are_local()
    ensures { EventsAreLocal }
{}

/// States that no connection of a new target makes it hold more than it may. The same holds after connections open
/// and end, and after waiting bytes are sent. A clause of `feed` says the same of `feed`.
#[tactic(auto, using(iscsi_world::proofs::Wanting::calls_keep_bounded))]
pub fn calls_keep_bounded()
    ensures { CallsKeepBounded }
{}

/// States that a unit of which a write, a cut or a sync failed has failed ever after, whatever happens. So it is not ready
/// until it is opened again. What it answers meanwhile, `scsi_unit` says (`failed_units_stay_failed`).
#[tactic(auto, using(iscsi_world::proofs::Failed::failed_units_stay_failed))]
pub fn failed_units_stay_failed()
    ensures { FailedUnitsStayFailed }
{}
