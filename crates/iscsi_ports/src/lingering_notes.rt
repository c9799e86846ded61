//! The calls on connections that linger, as they are noted: apart from those of the others, as they tell nothing.
//!
//! The first number of a note says which call it is of, and the second is 0 or the number of the failure
//! (`lingering_call_by`).

ghost use Rattle.std.specs.Prelude.{◌≡◌, ◌∷◌, []};
ghost use Rattle.iscsi_ports.specs.Lingering.{Shutting, Draining};

use crate::socket_failure::SocketFailure;
use call_record::Record;
use std::marker::Model;

/// Which call a note is of.
const SHUTTING: u64 = 0;

const DRAINING: u64 = 1;

/// In place of the number of a failure: the call succeeded.
const DONE: u64 = 0;

/// What was called. It is seen as the list of the calls, the newest first, and has no bytes.
#[derive(Drop)]
pub(crate) struct LingeringNotes {
    record: Record,
}

impl Model for LingeringNotes {
    ghost use Rattle.std.specs.Prelude.{List};
    ghost use Rattle.iscsi_ports.specs.Lingering.{LingeringCall, lingering_calls_of};

    ghost Value = { List LingeringCall };

    ghost view = { λ notes. lingering_calls_of notes.record.calls };
}

impl LingeringNotes {
    /// Returns notes of no call.
    pub(crate) fn new() -> LingeringNotes
        ensures { result ≡ [] }
    {
        LingeringNotes {
            record: Record::new(),
        }
    }

    /// Notes whether a connection was shut for writing and is watched, so that it is kept in this place.
    pub(crate) fn shut(&mut self, place: usize, is_kept: bool)
        ensures { self.new ≡ Shutting place is_kept ∷ self.old }
    {
        self.record
            .note(&[SHUTTING, DONE, place as u64], &[], &[is_kept]);
    }

    /// Notes what a read of the one in this place answered.
    pub(crate) fn drained(&mut self, place: usize, answer: Result<usize, SocketFailure>)
        ensures { self.new ≡ Draining (record { place = place; answer = answer }) ∷ self.old }
    {
        let (failure, count) = match answer {
            Ok(count) => (DONE, count as u64),
            Err(failure) => (failure.number(), 0),
        };
        self.record
            .note(&[DRAINING, failure, place as u64, count], &[], &[]);
    }
}
