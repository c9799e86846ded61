//! A Data-Out whose data nobody needed. Its header is kept, while clauses see all its bytes.

ghost use Rattle.std.specs.Prelude.{◌≡◌, ◌≤◌, ◌++◌, length};
ghost use Rattle.iscsi_pdu.specs.Header.{data_length, opcode_number};
ghost use Rattle.iscsi_pdu.specs.Segment.{most_data};
ghost use Rattle.iscsi_pdu.specs.Frames.{first_frame};
ghost use Rattle.iscsi_connection.specs.Passing.{bytes_noted, IsWhole};

use call_record::Record;
use iscsi_pdu::Header;
use std::marker::Model;

/// A whole Data-Out (RFC 7143 §11.7) whose data nobody needs. Its data is noted for clauses alone: what is kept is the
/// header.
#[derive(Drop)]
pub struct PassedDataOut {
    header: Header,
    /// The bytes after the header. No memory holds them.
    noted: Record,
}

impl Model for PassedDataOut {
    ghost use Rattle.std.specs.Prelude.{◌++◌};
    ghost use Rattle.iscsi_pdu.specs.Frames.{Frame, first_frame};
    ghost use Rattle.iscsi_connection.specs.Passing.{bytes_noted, IsWhole};

    ghost Value = { Frame };

    ghost view = { λ p. first_frame (p.header ++ bytes_noted p.noted.calls) };

    ghost invariant = { λ p. IsWhole p.header (bytes_noted p.noted.calls) };
}

impl PassedDataOut {
    /// Returns the Data-Out with this header and these bytes after it.
    pub(crate) fn new(header: Header, noted: Record) -> PassedDataOut
        requires { IsWhole header (bytes_noted noted.calls) }
        ensures { result ≡ first_frame (header ++ bytes_noted noted.calls) }
    {
        PassedDataOut { header, noted }
    }

    /// Returns the header.
    pub fn header(&self) -> &Header
        ensures header { result.now ≡ self.now.header }
        ensures out { opcode_number self.now.header ≡ 0x05 }
        ensures size { length self.now.body ≡ data_length self.now.header }
        ensures short { data_length self.now.header ≤ most_data }
    {
        &self.header
    }
}
