//! The outcome of PERSISTENT RESERVE OUT, and whom it concerns.

ghost use Rattle.std.specs.Prelude.{◌≡◌};

use scsi_sense::{Attention, Condition, Nexus};
use std::alloc::Global;
use std::marker::Model;

/// How a command ended: its status, with its sense data.
#[derive(Clone, Copy)]
pub enum Ended {
    Good,
    ReservationConflict,
    CheckCondition(Condition),
}

/// A nexus with a unit attention to be established for it.
#[derive(Drop)]
pub struct Due {
    pub nexus: Nexus,
    pub attention: Attention,
}

/// The outcome of PERSISTENT RESERVE OUT, and the unit attentions that it establishes for others, at most one for each
/// nexus.
#[derive(Drop)]
pub struct Outcome {
    pub ended: Ended,
    pub due: Vec<Due>,
}

impl Model for Outcome {
    ghost use Rattle.scsi_reserve.specs.Ending.{Ending};

    ghost Value = { Ending };

    ghost view = { λ outcome. record { ended = outcome.ended; due = outcome.due.items } };
}

impl Outcome {
    ghost use Rattle.scsi_reserve.specs.Ending.{good_telling, ended_with};

    /// Returns GOOD.
    pub(crate) fn good(due: Vec<Due>) -> Outcome
        ensures { result ≡ good_telling due.items }
    {
        Outcome {
            ended: Ended::Good,
            due,
        }
    }

    /// Returns an outcome without attentions. It allocates nothing.
    pub(crate) fn new(alloc: Global, ended: Ended) -> Outcome
        ensures { result ≡ ended_with ended }
    {
        Outcome {
            ended,
            due: Vec::new(alloc),
        }
    }

    /// Returns CHECK CONDITION.
    pub(crate) fn refused(alloc: Global, condition: Condition) -> Outcome
        ensures { result ≡ ended_with (Ended.CheckCondition condition) }
    {
        Outcome::new(alloc, Ended::CheckCondition(condition))
    }
}
