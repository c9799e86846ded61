//! How far the data of a SCSI Command has come (RFC 7143 §4.2.4.2), by the headers that passed.

ghost use Rattle.std.specs.Prelude.{◌≤◌};

use crate::violation::{Bound, Violation};
use iscsi_pdu::{Header, RESERVED_TAG};

/// The most R2Ts that are kept of a command: four may be open (RFC 7143 §13.17), and the next one may be seen before the
/// Data-Out that ends the first is taken.
const MOST_ASKS: usize = 5;

/// An R2T.
#[derive(Clone, Copy)]
pub(crate) struct Ask {
    /// The Target Transfer Tag.
    pub(crate) tag: u32,
    /// The end of what it asks for in the data of the command.
    pub(crate) end: u32,
}

/// The content of a free place for an R2T.
const NO_ASK: Ask = Ask {
    tag: RESERVED_TAG,
    end: 0,
};

/// A sequence of Data-Outs that is open.
#[derive(Clone, Copy)]
struct Sequence {
    tag: u32,
    end: usize,
    bound: Bound,
}

/// How far the data of one command has come.
#[derive(Clone, Copy)]
pub(crate) struct Transfer {
    /// The number of bytes that the command takes.
    expected: usize,
    /// The number of bytes that have come.
    length: usize,
    /// Unsolicited Data-Outs are to come.
    is_open: bool,
    /// The number of Data-Outs of the open sequence that have come.
    sequence_length: u32,
    /// The R2Ts whose data has not all come, in the order in which they were sent.
    asks: [Ask; MOST_ASKS],
    count: usize,
    /// The number of R2Ts whose data has come, and that were not seen yet: they wait to be sent.
    unseen: usize,
    /// More R2Ts were seen than are kept.
    is_lossy: bool,
    ghost range: { count ≤ 5 },
}

/// Returns the number of bytes that a command takes (RFC 7143 §11.3.4).
pub(crate) fn expected(command: &Header) -> usize {
    if command.is_write() {
        command.expected_transfer_length() as usize
    } else {
        0
    }
}

/// Returns the lower of FirstBurstLength and what a command takes.
pub(crate) fn unsolicited_bound(first_burst: usize, expected: usize) -> (usize, Bound) {
    if first_burst <= expected {
        (first_burst, Bound::FirstBurstLength)
    } else {
        (expected, Bound::ExpectedLength)
    }
}

impl Transfer {
    /// Begins with a SCSI Command, by its header.
    pub(crate) fn begun(command: &Header) -> Transfer {
        Transfer {
            expected: expected(command),
            length: command.data_length(),
            is_open: command.is_write() && !command.is_final(),
            sequence_length: 0,
            asks: [NO_ASK; MOST_ASKS],
            count: 0,
            unseen: 0,
            is_lossy: false,
        }
    }

    /// Sees an R2T.
    pub(crate) fn ask(&mut self, ask: Ask) {
        if self.unseen > 0 {
            self.unseen -= 1;
        } else if self.count < MOST_ASKS {
            self.asks[self.count] = ask;
            self.count += 1;
        } else {
            self.is_lossy = true;
        }
    }

    /// Takes a Data-Out that broke no rule.
    pub(crate) fn take(&mut self, out: &Header) {
        self.length = self.length.saturating_add(out.data_length());
        if !out.is_final() {
            self.sequence_length = self.sequence_length.saturating_add(1);
            return;
        }
        self.sequence_length = 0;
        if self.is_open {
            self.is_open = false;
        } else {
            self.end_ask();
        }
    }

    /// Ends the first open R2T.
    fn end_ask(&mut self) {
        if self.count == 0 {
            self.unseen = self.unseen.saturating_add(1);
            return;
        }
        let [_, second, third, fourth, fifth] = self.asks;
        self.asks = [second, third, fourth, fifth, NO_ASK];
        self.count -= 1;
    }

    /// Returns the open sequence, if there is one.
    fn sequence(&self, first_burst: usize) -> Option<Sequence> {
        if self.is_open {
            let (end, bound) = unsolicited_bound(first_burst, self.expected);
            return Some(Sequence {
                tag: RESERVED_TAG,
                end,
                bound,
            });
        }
        if self.count == 0 {
            return None;
        }
        let Ask { tag, end } = self.asks[0];
        Some(Sequence {
            tag,
            end: end as usize,
            bound: Bound::Ask,
        })
    }

    /// Returns the first rule that a Data-Out breaks, in the order in which a target tests them (RFC 7143 §11.7). All
    /// answers before it must have been seen.
    pub(crate) fn violation_of(&self, out: &Header, first_burst: usize) -> Option<Violation> {
        if self.is_lossy || self.unseen > 0 {
            return None;
        }
        let tag = out.target_transfer_tag();
        let Some(sequence) = self.sequence(first_burst) else {
            return Some(Violation::NothingDue { tag });
        };
        if tag != sequence.tag {
            let due = sequence.tag;
            return Some(Violation::TransferTag { tag, due });
        }
        self.violation_in(&sequence, out)
    }

    /// Returns the first rule that a Data-Out of a sequence breaks.
    fn violation_in(&self, sequence: &Sequence, out: &Header) -> Option<Violation> {
        let (number, offset) = (out.data_sn(), out.buffer_offset() as usize);
        let reached = self.length.saturating_add(out.data_length());
        let (end, bound) = (sequence.end, sequence.bound);
        if number != self.sequence_length {
            let due = self.sequence_length;
            return Some(Violation::DataSn { number, due });
        }
        if offset != self.length {
            let due = self.length;
            return Some(Violation::BufferOffset { offset, due });
        }
        if end < reached {
            return Some(Violation::LongData {
                reached,
                end,
                bound,
            });
        }
        match (self.is_open, out.is_final(), reached == end) {
            (false, true, false) => Some(Violation::EarlyFinal { reached, end }),
            (false, false, true) => Some(Violation::NoFinal { end }),
            _ => None,
        }
    }
}
