//! One direction of a connection, cut into headers and data segments as its bytes pass (RFC 7143 §11.2.1).

ghost use Rattle.std.specs.Prelude.{◌≤◌, ◌<◌, length};

use iscsi_pdu::{HEADER_LENGTH, Header, MOST_DATA, padding};

/// What the first bytes of a piece are.
#[derive(Clone, Copy)]
pub(crate) enum Part {
    /// The end of a header, which is whole now.
    Header,
    /// Data.
    Data,
    /// The front of a header, additional headers, or padding.
    Other,
}

/// The number of bytes at the front of a piece that are one part.
#[derive(Clone, Copy)]
pub(crate) struct Taken {
    pub(crate) count: usize,
    pub(crate) part: Part,
}

/// How far one direction has come. Nothing is kept of data segments.
#[derive(Clone, Copy)]
pub(crate) struct PduStream {
    header: [u8; HEADER_LENGTH],
    /// The number of bytes of the header that have come.
    come: usize,
    /// The numbers of bytes of additional headers, of data and of padding that are to come.
    additional: usize,
    data: usize,
    padding: usize,
    ghost range: { come ≤ 48 },
}

impl PduStream {
    /// Returns a direction at its beginning.
    pub(crate) fn new() -> PduStream {
        PduStream {
            header: [0; HEADER_LENGTH],
            come: 0,
            additional: 0,
            data: 0,
            padding: 0,
        }
    }

    /// Returns the header that came last.
    pub(crate) fn header(&self) -> &[u8; HEADER_LENGTH] {
        &self.header
    }

    /// Returns whether nothing has come after the last whole PDU.
    pub(crate) fn is_whole(&self) -> bool {
        self.come == 0
    }

    /// Returns whether the header that came last names more data than a PDU may have.
    pub(crate) fn is_long(&self) -> bool {
        self.come == HEADER_LENGTH && Header::new(self.header).data_length() > MOST_DATA
    }

    /// Takes the part with which a piece begins.
    pub(crate) fn take(&mut self, piece: &[u8]) -> Taken
        ensures { result.count ≤ length piece.now }
    {
        if self.come < HEADER_LENGTH {
            return self.take_header(piece);
        }
        let (count, part) = self.take_behind(piece.len());
        if self.additional == 0 && self.data == 0 && self.padding == 0 {
            self.come = 0;
        }
        Taken { count, part }
    }

    /// Takes bytes of the header.
    fn take_header(&mut self, piece: &[u8]) -> Taken
        requires { self.old.come < 48 }
        ensures { result.count ≤ length piece.now }
    {
        let count = piece.len().min(HEADER_LENGTH - self.come);
        self.header[self.come..self.come + count].copy_from_slice(&piece[..count]);
        self.come += count;
        if self.come < HEADER_LENGTH {
            return Taken {
                count,
                part: Part::Other,
            };
        }
        self.begin_behind();
        Taken {
            count,
            part: Part::Header,
        }
    }

    /// Begins what follows the header, by its lengths. A data segment is padded to a multiple of 4 (RFC 7143 §11.1).
    fn begin_behind(&mut self) {
        let header = Header::new(self.header);
        self.additional = header.additional_length();
        self.data = header.data_length();
        self.padding = padding(self.data);
        if self.additional == 0 && self.data == 0 {
            self.come = 0;
        }
    }

    /// Takes bytes of what follows a header, of a piece of this length.
    fn take_behind(&mut self, length: usize) -> (usize, Part)
        ensures { result.0 ≤ length }
    {
        if self.additional > 0 {
            let count = length.min(self.additional);
            self.additional -= count;
            return (count, Part::Other);
        }
        if self.data > 0 {
            let count = length.min(self.data);
            self.data -= count;
            return (count, Part::Data);
        }
        let count = length.min(self.padding);
        self.padding -= count;
        (count, Part::Other)
    }
}
