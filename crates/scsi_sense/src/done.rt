//! The outcome of a command.

ghost use Rattle.std.specs.Prelude.{◌≡◌, ◌<◌, ◌^◌, length};
ghost use Rattle.scsi_sense.specs.Codes.{status_number};

use crate::given::Given;
use crate::sense::Sense;
use std::alloc::Global;
use std::marker::Model;

/// The status of a command (SAM-5 "Status codes").
#[derive(Clone, Copy)]
pub enum Status {
    Good = 0x00,
    CheckCondition = 0x02,
    ReservationConflict = 0x18,
}

impl Status {
    /// Returns its byte: 00h, 02h or 18h.
    pub fn number(self) -> u8
        ensures { result ≡ status_number self }
    {
        self as u8
    }
}

/// The outcome of a command: what is reported to its initiator.
#[derive(Drop)]
pub struct Done {
    pub status: Status,
    /// Present if the status is CHECK CONDITION.
    pub sense: Option<Sense>,
    /// The data returned, before it is truncated to the expected length.
    pub given: Given,
    /// The number of bytes that the command returned, or needed of what it was sent, from which the residual is
    /// computed.
    pub moved: u32,
}

impl Model for Done {
    ghost use Rattle.scsi_sense.specs.Done.{Outcome};

    ghost Value = { Outcome };

    ghost view = { λ done. record { status = done.status; sense = done.sense; given = done.given; moved = done.moved } };
}

impl Done {
    ghost use Rattle.scsi_sense.specs.Done.{good as good_outcome, good_with as good_outcome_with, good_taking as good_outcome_taking, check_condition as check_outcome};
    ghost use Rattle.scsi_sense.specs.Done.{reservation_conflict as conflict_outcome};

    /// Returns GOOD, with nothing moved. It allocates nothing.
    pub fn good(alloc: Global) -> Done
        ensures { result ≡ good_outcome }
    {
        Done {
            status: Status::Good,
            sense: None,
            given: Given::nothing(alloc),
            moved: 0,
        }
    }

    /// Returns GOOD with data.
    pub fn good_with(given: Given) -> Done
        requires { length given < 2 ^ 32 }
        ensures { result ≡ good_outcome_with given }
    {
        let moved = given.len() as u32;
        Done {
            status: Status::Good,
            sense: None,
            given,
            moved,
        }
    }

    /// Returns GOOD for a command that needed `count` bytes of what came with it. It allocates nothing.
    pub fn good_taking(alloc: Global, count: u32) -> Done
        ensures { result ≡ good_outcome_taking count }
    {
        Done {
            status: Status::Good,
            sense: None,
            given: Given::nothing(alloc),
            moved: count,
        }
    }

    /// Returns CHECK CONDITION with this sense data, and nothing moved. It allocates nothing.
    pub fn check_condition(alloc: Global, sense: Sense) -> Done
        ensures { result ≡ check_outcome sense }
    {
        Done {
            status: Status::CheckCondition,
            sense: Some(sense),
            given: Given::nothing(alloc),
            moved: 0,
        }
    }

    /// Returns RESERVATION CONFLICT, with nothing moved. It allocates nothing.
    pub fn reservation_conflict(alloc: Global) -> Done
        ensures { result ≡ conflict_outcome }
    {
        Done {
            status: Status::ReservationConflict,
            sense: None,
            given: Given::nothing(alloc),
            moved: 0,
        }
    }
}
