//! Laws of every past that the steps of a session can reach. The functions do nothing: their contracts are the laws.

ghost use Rattle.iscsi_session.specs.Laws.{TakenOnce, FinishedAsTaken, DueInOrder, DoneInOrder, StepsAreLawful, R2tsAreSentAtOnce, NothingStaysDue, LiveTagsDiffer};

/// States that each request is taken once, and that requests are executed in the order in which they were taken. SCSI
/// Commands are finished in that order as they are done, and all other requests as they are executed.
#[tactic(auto, using(crate::proofs::Lawful::taken_once, crate::proofs::Lawful::finished_as_taken, crate::proofs::Lawful::due_in_order, crate::proofs::Lawful::done_in_order))]
pub fn requests_are_finished_as_taken()
    ensures once { TakenOnce }
    ensures finished { FinishedAsTaken }
    ensures due { DueInOrder }
    ensures done { DoneInOrder }
{}

/// States that a past stays lawful, whatever frame comes and whatever step fails.
#[tactic(auto, using(crate::proofs::Lawful::steps_are_lawful))]
pub fn steps_are_lawful()
    ensures { StepsAreLawful }
{}

/// States that all R2Ts that are due of a command are sent in one step, with one StatSN, which the next answer uses.
#[tactic(auto, using(crate::proofs::Asking::r2ts_are_sent_at_once))]
pub fn r2ts_are_sent_at_once()
    ensures { R2tsAreSentAtOnce }
{}

/// States that nothing is left to do between two frames. No request that was taken is to be executed, and no R2T to be
/// sent. No Task Management Function Request is to be answered, and no command to be done.
#[tactic(auto, using(crate::proofs::Due::nothing_stays_due))]
pub fn nothing_stays_due()
    ensures { NothingStaysDue }
{}

/// States that no SCSI Command and Task Management Function Request that are not finished have one Initiator Task Tag
/// (RFC 7143 §11.2.1.8). `steps_are_lawful` says the same of two of one kind.
#[tactic(auto, using(crate::proofs::Tags::live_tags_differ))]
pub fn live_tags_differ()
    ensures { LiveTagsDiffer }
{}
