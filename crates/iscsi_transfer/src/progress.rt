//! How far the data of a SCSI Command has come.

ghost use Rattle.std.specs.Prelude.{◌≡◌, ◌+◌, ◌*◌, ◌^◌, ◌<◌, ◌≤◌, [], ◌∷◌, length, replicate, true, IfErr, OnOk, OnErr, Some, None};
ghost use Rattle.iscsi_pdu.specs.DataOut.{data_sn};
ghost use Rattle.iscsi_pdu.specs.Frames.{Frame as FrameState};
ghost use Rattle.iscsi_transfer.specs.Payload.{announces, expected as expected_in};
ghost use Rattle.iscsi_transfer.specs.WriteData.{WriteDataState, blank, fault_of as fault_in, filled, grown, with_data, with_asked, allowed, due_asks, first, is_due, is_asked, is_whole as is_whole_in, wanted as wanted_in, next_ask, sequence_tag, sequence_end, lacks_data};
ghost use Rattle.iscsi_transfer.specs.Counted.{brought};

use crate::fault::DataFault;
use arrayvec::ArrayVec;
use iscsi_login::Values;
use iscsi_pdu::{Frame, Header, RESERVED_TAG};
use std::marker::Model;

/// The longest payload that R2Ts ask for, in bytes.
pub(crate) const MOST_WANTED: usize = 1_048_576;

/// The most R2Ts of a command that are open at a time. No login agrees on more.
pub const MOST_OPEN: usize = 4;

/// A part of a command's data for which an R2T asks (RFC 7143 §11.8).
#[derive(Clone, Copy)]
pub struct Ask {
    /// R2TSN: its place among the command's R2Ts, counted from 0.
    pub number: u32,
    /// Where it begins in the data, in bytes: the Buffer Offset.
    pub offset: u32,
    /// How many bytes are asked for: the Desired Data Transfer Length.
    pub length: u32,
}

/// How far the data of one SCSI Command has come (RFC 7143 §4.2.4.2), without the data itself: clauses see as many
/// zeros in its place. It is all that is kept of a command whose data is to be thrown away.
#[derive(Drop)]
pub struct Progress {
    /// How many bytes have come.
    length: usize,
    /// How many bytes the command takes.
    expected: usize,
    /// FirstBurstLength
    first_burst: usize,
    /// MaxBurstLength
    burst: usize,
    /// How many bytes came unsolicited.
    unsolicited: usize,
    /// More unsolicited Data-Outs are to come.
    is_open: bool,
    /// How many Data-Outs of the open sequence have come.
    sequence_length: usize,
    /// MaxOutstandingR2T
    outstanding: usize,
    /// The tags of the R2Ts whose data has not all come, in the order in which they were sent.
    open_tags: ArrayVec<u32, MOST_OPEN>,
}

impl Model for Progress {
    ghost use Rattle.std.specs.Prelude.{◌+◌, length as long, replicate};
    ghost use Rattle.iscsi_transfer.specs.WriteData.{WriteDataState, bursts_in};
    ghost use Rattle.iscsi_transfer.specs.Counted.{IsCounted};

    ghost Value = { WriteDataState };

    ghost view = { λ t. record {
      payload = replicate t.length 0;
      expected = t.expected;
      first_burst = t.first_burst;
      burst = t.burst;
      unsolicited = t.unsolicited;
      is_open = t.is_open;
      sequence_length = t.sequence_length;
      outstanding = t.outstanding;
      sent = bursts_in t.is_open t.length t.unsolicited t.burst + long t.open_tags.items;
      open_tags = t.open_tags.items;
    } };

    ghost invariant = { IsCounted };
}

/// Returns whether unsolicited Data-Outs follow the command: it has W and no F (RFC 7143 §11.3.1).
pub(crate) fn announces(command: &Frame) -> bool
    ensures { result ≡ announces command.now }
{
    command.header.is_write() && !command.header.is_final()
}

/// Returns how many bytes the command takes from the initiator.
pub(crate) fn expected(command: &Frame) -> usize
    ensures value { result ≡ expected_in command.now }
    ensures bound { result ≤ 4294967295 }
{
    if command.header.is_write() {
        command.header.expected_transfer_length() as usize
    } else {
        0
    }
}

impl Progress {
    /// Creates the progress of a SCSI Command that has just come.
    pub(crate) fn begun(command: &Frame, values: &Values) -> Progress
        requires burst { 1 ≤ values.now.max_burst_length }
        requires outstanding { values.now.max_outstanding_r2t ≤ 4 }
        requires fits { length command.now.body ≤ expected_in command.now }
        ensures { result ≡ record {
          payload = replicate (length command.now.body) 0;
          expected = expected_in command.now;
          first_burst = values.now.first_burst_length;
          burst = values.now.max_burst_length;
          unsolicited = length command.now.body;
          is_open = announces command.now;
          sequence_length = 0;
          outstanding = values.now.max_outstanding_r2t;
          sent = 0;
          open_tags = [];
        } }
    {
        let length = command.body.len();
        Progress {
            length,
            expected: expected(command),
            first_burst: values.first_burst_length as usize,
            burst: values.max_burst_length as usize,
            unsolicited: length,
            is_open: announces(command),
            sequence_length: 0,
            outstanding: values.max_outstanding_r2t as usize,
            open_tags: ArrayVec::new(),
        }
    }

    /// Returns how long the payload is to be.
    fn wanted(&self) -> usize
        ensures { result ≡ wanted_in self.now }
    {
        if self.expected <= MOST_WANTED {
            self.expected
        } else {
            self.unsolicited
        }
    }

    /// Returns whether the unsolicited data has ended, and more is wanted.
    pub fn lacks_data(&self) -> bool
        ensures { result ≡ lacks_data self.now }
    {
        !self.is_open && self.length < self.wanted()
    }

    /// Returns how many whole bursts have come after the unsolicited data, each for one R2T.
    fn filled(&self) -> usize
        ensures value { result ≡ filled self.now }
        ensures bound { self.now.unsolicited + result * self.now.burst ≤ length self.now.payload }
        ensures few { result ≤ 4294967295 }
        ensures counted { self.now.sent ≡ result + length self.now.open_tags }
    {
        if self.is_open {
            0
        } else {
            (self.length - self.unsolicited) / self.burst
        }
    }

    /// Returns where the burst begins that the payload has reached.
    fn next_offset(&self) -> usize
        ensures value { result ≡ (next_ask self.now).offset }
        ensures bound { result ≤ length self.now.payload }
    {
        self.unsolicited + self.filled() * self.burst
    }

    /// Returns the length of the burst that the payload has reached.
    fn next_length(&self) -> usize
        ensures { result ≡ (next_ask self.now).length }
    {
        self.burst
            .min(self.wanted().saturating_sub(self.next_offset()))
    }

    /// Returns the Target Transfer Tag of the open sequence.
    fn sequence_tag(&self) -> u32
        ensures { result ≡ sequence_tag self.now }
    {
        if self.is_open {
            RESERVED_TAG
        } else {
            self.open_tags.first().copied().unwrap_or(RESERVED_TAG)
        }
    }

    /// Returns where the open sequence ends at the latest.
    fn sequence_end(&self) -> usize
        ensures { result ≡ sequence_end self.now }
    {
        if self.is_open {
            self.first_burst.min(self.expected)
        } else {
            self.next_offset() + self.next_length()
        }
    }

    /// Returns how many R2Ts were sent.
    fn sent(&self) -> usize
        ensures value { result ≡ self.now.sent }
        ensures behind { filled self.now ≤ result }
    {
        self.filled() + self.open_tags.len()
    }

    /// Returns how many R2Ts may have been sent, with no more than MaxOutstandingR2T open (RFC 7143 §13.17).
    fn allowed(&self) -> usize
        ensures { result ≡ allowed self.now }
    {
        let bursts = self
            .wanted()
            .saturating_sub(self.unsolicited)
            .div_ceil(self.burst);
        bursts.min(self.filled() + self.outstanding)
    }

    /// Returns the first R2T that is due. The caller is to send it now, and then report its tag with
    /// [`Progress::asked`].
    pub fn due(&self) -> Option<Ask>
        ensures value { result ≡ first (due_asks self.now) }
        ensures few { length (due_asks self.now) ≤ 4 }
    {
        let number = self.sent();
        if !self.lacks_data() || self.allowed() <= number {
            return None;
        }
        let offset = self.unsolicited + number * self.burst;
        let length = self.burst.min(self.wanted() - offset);
        Some(Ask {
            number: number as u32,
            offset: offset as u32,
            length: length as u32,
        })
    }

    /// Returns whether an R2T is open: not all that it asked for has come.
    pub fn is_asked(&self) -> bool
        ensures { result ≡ is_asked self.now }
    {
        self.lacks_data() && !self.open_tags.is_empty()
    }

    /// Records that the first R2T that was due is sent, with this Target Transfer Tag.
    pub fn asked(&mut self, tag: u32)
        requires due { is_due self.old ≡ true }
        ensures { self.new ≡ with_asked (tag ∷ []) self.old }
    {
        self.open_tags.push(tag);
    }

    /// Returns what is wrong with a Data-Out of this command: the first of [`DataFault::TransferTag`],
    /// [`DataFault::DataSn`], [`DataFault::BufferOffset`], [`DataFault::TooMuch`] and [`DataFault::Final`] (RFC 7143 §11.7).
    #[tactic(auto, unfolding(crate::specs::WriteData::fault_of))]
    pub fn fault_of(&self, out: &Frame) -> Option<DataFault>
        ensures { result ≡ fault_in self.now out.now }
    {
        self.fault_by(&out.header, out.body.len())
    }

    /// Returns what is wrong with a Data-Out of this command, as [`Progress::fault_of`] does, by its header and the
    /// number of bytes that it brings.
    #[tactic(auto, unfolding(crate::specs::WriteData::fault_of))]
    pub fn fault_by(&self, header: &Header, size: usize) -> Option<DataFault>
        requires { size < 2 ^ 63 }
        ensures { (out : FrameState) → out.header ≡ header.now → length out.body ≡ size → result ≡ fault_in self.now out }
    {
        let is_expected = self.is_open || self.is_asked();
        let reached = self.length + size;
        let end = self.sequence_end();
        if !(is_expected && header.target_transfer_tag() == self.sequence_tag()) {
            Some(DataFault::TransferTag)
        } else if header.data_sn() as usize != self.sequence_length {
            Some(DataFault::DataSn)
        } else if header.buffer_offset() as usize != self.length {
            Some(DataFault::BufferOffset)
        } else if end < reached {
            Some(DataFault::TooMuch)
        } else if !self.is_open && header.is_final() != (reached == end) {
            Some(DataFault::Final)
        } else {
            None
        }
    }

    /// Accepts a Data-Out of this command, and throws its data away. If something is wrong with it
    /// ([`Progress::fault_of`]), nothing changes.
    pub fn data_out(&mut self, out: &Frame) -> Result<(), DataFault>
        ensures ok { OnOk result (self.new ≡ blank (with_data self.old out.now)) }
        ensures lawful { OnOk result (fault_in self.old out.now ≡ None) }
        ensures fault { IfErr result (λ fault. fault_in self.old out.now ≡ Some fault) }
        ensures err { OnErr result (self.new ≡ self.old) }
    {
        if let Some(fault) = self.fault_of(out) {
            return Err(fault);
        }
        self.accept(out);
        Ok(())
    }

    /// Accepts a Data-Out of this command with which nothing is wrong ([`Progress::fault_of`]), and throws its data away.
    pub fn accept(&mut self, out: &Frame)
        requires lawful { fault_in self.old out.now ≡ None }
        ensures { self.new ≡ blank (with_data self.old out.now) }
    {
        self.accept_by(&out.header, out.body.len());
    }

    /// Counts the data of a Data-Out, `size` bytes. Which R2Ts are open stays the same.
    fn grow(&mut self, header: &Header, size: usize)
        requires numbered { data_sn header.now ≡ self.old.sequence_length }
        requires short { length self.old.payload + size ≤ self.old.expected }
        ensures grown { record self.new { sent = self.old.sent } ≡ blank (grown self.old (brought header.now size)) }
    {
        let is_final = header.is_final();
        self.length += size;
        if self.is_open {
            self.unsolicited = self.length;
            self.is_open = !is_final;
        }
        self.sequence_length = if is_final {
            0
        } else {
            header.data_sn() as usize + 1
        };
    }

    /// Accepts a Data-Out of this command with which nothing is wrong, as [`Progress::accept`] does, by its header and the
    /// number of bytes that it brings. Its R2T is no longer open once all that it asked for has come.
    pub fn accept_by(&mut self, header: &Header, size: usize)
        requires lawful { fault_in self.old (brought header.now size) ≡ None }
        ensures { self.new ≡ blank (with_data self.old (brought header.now size)) }
    {
        // A burst has at least one byte, so the end of a sequence completes only one R2T.
        prove!(1 <= self.burst);
        let filled = self.filled();
        self.grow(header, size);
        if filled < self.filled() {
            self.open_tags.remove(0);
        }
    }

    /// Returns whether the payload is whole: no unsolicited Data-Out is to come, and nothing is to be asked for.
    pub fn is_whole(&self) -> bool
        ensures { result ≡ is_whole_in self.now }
    {
        !self.is_open && self.length == self.wanted()
    }
}
