//! Of a half-read Data-Out that nobody needs only the header and the number of bytes are kept.

ghost use Rattle.std.specs.Prelude.{◌≡◌, ◌≤◌, length, take, true, false};
ghost use Rattle.iscsi_pdu.specs.Frames.{has_frame};
ghost use Rattle.iscsi_pdu.specs.Header.{header_length, data_length};
ghost use Rattle.iscsi_pdu.specs.Segment.{most_data};
ghost use Rattle.iscsi_connection.specs.Passing.{IsHalfRead};
ghost use Rattle.iscsi_world.specs.Machine.{is_reading};
ghost use Rattle.iscsi_connection.specs.Arriving.{IsUntaken, out_in};

use crate::connection::Connection;
use iscsi_pdu::{Header, MOST_DATA, padded};

impl Connection {
    /// Returns whether bytes have come after the header of a half-read Data-Out that no unfinished command takes.
    pub fn can_forget(&self) -> bool
        requires { has_frame self.now.half ≡ false }
        ensures reads { result ≡ true → is_reading self.now.phase ≡ true }
        ensures half { result ≡ true → IsHalfRead self.now.half }
        ensures untaken { result ≡ true → IsUntaken self.now.phase (out_in self.now.half) }
    {
        if !self.phase.reads() {
            return false;
        }
        match self.arriving.header() {
            Some(header) => self.has_begun(header) && !self.takes(&header),
            None => false,
        }
    }

    /// Returns whether this is the header of a Data-Out, and bytes have come after it.
    fn has_begun(&self, header: Header) -> bool
        requires reads { is_reading self.now.phase ≡ true }
        requires header { header ≡ take header_length self.now.half }
        requires there { header_length ≤ length self.now.half }
        requires part { has_frame self.now.half ≡ false }
        ensures half { result ≡ true → IsHalfRead self.now.half }
        ensures short { result ≡ true → data_length header ≤ most_data }
    {
        let data = header.data_length();
        header.is_data_out()
            && data <= MOST_DATA
            && self.want() < header.additional_length() + padded(data)
    }

    /// Counts the bytes of a half-read Data-Out from now on. None of them is kept.
    pub fn forget(&mut self)
        requires reads { is_reading self.old.phase ≡ true }
        requires half { IsHalfRead self.old.half }
        requires untaken { IsUntaken self.old.phase (out_in self.old.half) }
        ensures { self.new ≡ self.old }
    {
        self.arriving.pass_over();
    }
}
