//! A list of calls that only clauses read.

ghost use Rattle.std.specs.Prelude.{◌≡◌, List, [], ◌∷◌, ◌++◌};
ghost use Rattle.std.specs.Borrow.{ftrue};
ghost use Rattle.call_record.specs.Noted.{Noted};

use std::marker::{Model, PhantomData};

/// The noted calls, the newest first. It has no bytes.
#[derive(Drop)]
pub struct Record {
    marker: PhantomData<u8>,
    pub ghost calls: { List Noted },
}

impl Model for Record {
    ghost also_owns = { λ _. ftrue };
}

impl Record {
    /// Returns a record with no call in it.
    pub fn new() -> Record
        ensures { result.calls ≡ [] }
    {
        Record {
            marker: PhantomData,
        }
    }

    /// Notes a call: numbers, bytes and flags for what was asked and what was answered. The caller chooses their
    /// order.
    #[inline]
    pub fn note(&mut self, numbers: &[u64], bytes: &[u8], flags: &[bool])
        ensures { self.new.calls ≡ record { numbers = numbers.now; bytes = bytes.now; flags = flags.now } ∷ self.old.calls }
    {
        self.note_joined(numbers, bytes, &[], &[], &[], flags);
    }

    /// Notes a call as [`Record::note`] does, whose bytes lie in four slices. The body is empty.
    #[inline]
    pub fn note_joined(
        &mut self,
        _numbers: &[u64],
        _first: &[u8],
        _second: &[u8],
        _third: &[u8],
        _fourth: &[u8],
        _flags: &[bool],
    )
        ensures { self.new.calls ≡ record {
          numbers = _numbers.now;
          bytes = _first.now ++ (_second.now ++ (_third.now ++ _fourth.now));
          flags = _flags.now;
        } ∷ self.old.calls }
    {}
}
