//! The length of a record of a tape.

ghost use Rattle.std.specs.Prelude.{◌≡◌, ◌≤◌};
ghost use Rattle.scsi_cdb.specs.Record.{most_record, record_length_of};

use std::marker::Model;

/// The most bytes of one record.
pub const MOST_RECORD: u32 = 1_048_576;

/// The length of a record that is written, in bytes: at most [`MOST_RECORD`]. Clauses see the number.
#[derive(Clone, Copy)]
pub struct RecordLength {
    bytes: u32,
}

impl Model for RecordLength {
    ghost use Rattle.std.specs.Prelude.{ℕ, ◌≤◌, refl};
    ghost use Rattle.scsi_cdb.specs.Record.{most_record};

    ghost Value = { ℕ };

    ghost view = { λ length. length.bytes };

    ghost invariant = { λ length. length.bytes ≤ most_record };

    ghost inverse = { λ bytes. record { bytes = bytes } };

    ghost inverse_ok = { λ length is. refl };
}

impl RecordLength {
    /// Returns the length, or `None` if no record is that long.
    pub fn new(bytes: u32) -> Option<RecordLength>
        ensures { result ≡ record_length_of bytes }
    {
        if bytes > MOST_RECORD {
            return None;
        }
        Some(RecordLength { bytes })
    }

    /// Returns the length in bytes.
    pub fn bytes(self) -> u32
        ensures value { result ≡ self }
        ensures bound { result ≤ most_record }
    {
        self.bytes
    }
}
