//! The bytes of a connection that have come and are not taken.

ghost use Rattle.std.specs.Prelude.{◌≡◌, ◌+◌, ◌≤◌, ◌↔◌, ◌++◌, [], length, take, drop, true, false, IfOk, IfSome, IfNone, OnOk, OnErr};
ghost use Rattle.std.specs.Result.{IsErrOf};
ghost use Rattle.iscsi_pdu.specs.Header.{header_length};
ghost use Rattle.iscsi_pdu.specs.Frames.{has_frame, is_long, wanted};
ghost use Rattle.iscsi_world.specs.History.{arrivals};
ghost use Rattle.iscsi_world.specs.Machine.{GivesFrame};
ghost use Rattle.iscsi_world.specs.declared.phase.Phase.{Phase};
ghost use Rattle.iscsi_framer.specs.Framer.{HoldsNoMore};
ghost use Rattle.iscsi_connection.specs.Passing.{IsHalfRead};
ghost use Rattle.iscsi_connection.specs.Arriving.{frame_of, CanPass, IsUntaken, IsOfCounted, out_in};

use crate::passed::PassedDataOut;
use call_record::Record;
use data_parts::SpareBuffers;
use iscsi_framer::{FrameRoom, Framer, names_more};
use iscsi_pdu::{Frame, HEADER_LENGTH, Header, Part, PduFault};
use std::alloc::Global;
use std::marker::Model;
use std::mem;

/// A PDU that has come.
#[derive(Drop)]
pub enum Arrived {
    /// With all its data.
    Whole(Frame),
    /// A Data-Out whose data nobody needs: only its header is kept.
    Passed(PassedDataOut),
}

/// A PDU that was taken with the next bytes of a piece.
#[derive(Drop)]
pub struct Taken {
    /// The PDU.
    pub arrived: Arrived,
    /// How many bytes of the piece were used.
    pub used: usize,
}

/// The bytes of a connection that have come and are not taken. Of a Data-Out in front whose data nobody needs, only the
/// header and the number of bytes are kept. Clauses see all bytes.
#[derive(Drop)]
pub(crate) struct Arriving {
    framer: Framer,
    /// Whether a Data-Out in front is only counted.
    is_counted: bool,
    /// The bytes after its header, if it is. No memory holds them.
    noted: Record,
}

impl Model for Arriving {
    ghost use Rattle.std.specs.Prelude.{◌≡◌, ◌++◌, true, take, if◌then◌else◌};
    ghost use Rattle.iscsi_pdu.specs.Header.{header_length};
    ghost use Rattle.iscsi_connection.specs.Passing.{bytes_noted, IsCounted};
    ghost use Rattle.iscsi_connection.specs.Arriving.{ArrivingState};

    ghost Value = { ArrivingState };

    ghost view = { λ a. record {
      bytes = if a.is_counted then take header_length a.framer ++ bytes_noted a.noted.calls else a.framer;
      is_counted = a.is_counted;
    } };

    ghost invariant = { λ a. a.is_counted ≡ true → IsCounted a.framer (take header_length a.framer ++ bytes_noted a.noted.calls) };
}

impl Arriving {
    /// Returns no bytes. Allocates nothing.
    pub(crate) fn new(alloc: Global) -> Arriving
        ensures { result ≡ record { bytes = []; is_counted = false } }
    {
        Arriving {
            framer: Framer::new(alloc),
            is_counted: false,
            noted: Record::new(),
        }
    }

    /// Keeps a piece that ends before the PDU in front does, as [`Framer::keep_part`] does. Returns whether it did: if not,
    /// nothing is changed.
    pub(crate) fn keep_part(&mut self, piece: &[u8]) -> bool
        ensures kept { result ≡ true → self.new ≡ record self.old { bytes = self.old.bytes ++ piece.now } }
        ensures part { result ≡ true → arrivals (self.old.bytes ++ piece.now) ≡ [] }
        ensures passing { (phase : Phase) → CanPass phase self.old → CanPass phase self.new }
        ensures other { result ≡ false → self.new ≡ self.old }
    {
        if self.is_counted {
            return false;
        }
        self.framer.keep_part(piece)
    }

    /// Takes the PDU in front as [`Framer::take_alone`] does. Returns `None`, and changes nothing, also if it is only counted.
    #[inline(always)]
    pub(crate) fn take_alone(&mut self) -> Option<Frame>
        ensures given { IfSome result (λ frame. GivesFrame frame self.old.bytes []) }
        ensures no_more { IfSome result (λ _. HoldsNoMore self.old.bytes) }
        ensures left { IfSome result (λ _. self.new ≡ record { bytes = []; is_counted = false }) }
        ensures none { IfNone result (self.new ≡ self.old) }
    {
        if self.is_counted {
            return None;
        }
        self.framer.take_alone()
    }

    /// Takes the next bytes of a piece, up to the end of the PDU in front, and that PDU if it is whole with them. If it is
    /// not, all of the piece is kept, or its number of bytes. A fault changes nothing.
    pub(crate) fn take(
        &mut self,
        piece: &[u8],
        spares: &mut SpareBuffers,
    ) -> Result<Option<Taken>, PduFault>
        requires { HoldsNoMore self.old.bytes }
        ensures within { IfOk result (λ o. IfSome o (λ t. t.used ≤ length piece.now)) }
        ensures given { IfOk result (λ o. IfSome o (λ t. GivesFrame (frame_of t.arrived) (self.old.bytes ++ piece.now) (drop t.used piece.now))) }
        ensures left { IfOk result (λ o. IfSome o (λ _. self.new ≡ record { bytes = []; is_counted = false })) }
        ensures passed { IfOk result (λ o. IfSome o (λ t. IsOfCounted t.arrived self.old)) }
        ensures kept { IfOk result (λ o. IfNone o (self.new ≡ record self.old { bytes = self.old.bytes ++ piece.now })) }
        ensures part { IfOk result (λ o. IfNone o (arrivals (self.old.bytes ++ piece.now) ≡ [])) }
        ensures too_long { IsErrOf result PduFault.TooLong ↔ (is_long (self.old.bytes ++ piece.now) ≡ true) }
        ensures passing { (phase : Phase) → CanPass phase self.old → CanPass phase self.new }
        ensures err { OnErr result (self.new ≡ self.old) }
    {
        if self.is_counted {
            return self.count(piece);
        }
        let (used, frame) = self.framer.take_frame(piece, spares)?;
        let Some(frame) = frame else {
            return Ok(None);
        };
        Ok(Some(Taken {
            arrived: Arrived::Whole(frame),
            used,
        }))
    }

    /// Counts the next bytes of a Data-Out in front, as [`Arriving::take`] does.
    fn count(&mut self, piece: &[u8]) -> Result<Option<Taken>, PduFault>
        requires { self.old.is_counted ≡ true }
        ensures within { IfOk result (λ o. IfSome o (λ t. t.used ≤ length piece.now)) }
        ensures given { IfOk result (λ o. IfSome o (λ t. GivesFrame (frame_of t.arrived) (self.old.bytes ++ piece.now) (drop t.used piece.now))) }
        ensures left { IfOk result (λ o. IfSome o (λ _. self.new ≡ record { bytes = []; is_counted = false })) }
        ensures passed { IfOk result (λ o. IfSome o (λ t. IsOfCounted t.arrived self.old)) }
        ensures kept { IfOk result (λ o. IfNone o (self.new ≡ record self.old { bytes = self.old.bytes ++ piece.now })) }
        ensures part { IfOk result (λ o. IfNone o (arrivals (self.old.bytes ++ piece.now) ≡ [])) }
        ensures too_long { IsErrOf result PduFault.TooLong ↔ (is_long (self.old.bytes ++ piece.now) ≡ true) }
        ensures passing { (phase : Phase) → CanPass phase self.old → CanPass phase self.new }
        ensures err { OnErr result (self.new ≡ self.old) }
    {
        let mut used = 0;
        loop {
            let (more, part) = self.framer.take(&piece[used..])?;
            self.noted.note(&[], &piece[used..][..more], &[]);
            used += more;
            match part {
                Part::Data(_, _) => {}
                Part::End(header) => {
                    self.is_counted = false;
                    let noted = mem::replace(&mut self.noted, Record::new());
                    return Ok(Some(Taken {
                        arrived: Arrived::Passed(PassedDataOut::new(header, noted)),
                        used,
                    }));
                }
                Part::Nothing | Part::Frame(_) => return Ok(None),
            }
        }
    }

    /// Returns whether a piece may bring more of a PDU than its header, so that a buffer is of use: bytes are kept, or it
    /// begins with a header that names additional headers or data (RFC 7143 §11.2.1).
    pub(crate) fn wants_buffer(&self, piece: &[u8]) -> bool {
        piece.len() > HEADER_LENGTH && (names_more(piece) || !self.framer.is_empty())
    }

    /// Returns whether more is kept than one PDU.
    pub(crate) fn holds_more(&self) -> bool
        ensures no { result ≡ false → HoldsNoMore self.now.bytes }
        ensures yes { result ≡ true → has_frame self.now.bytes ≡ true }
    {
        if self.is_counted {
            return false;
        }
        self.framer.holds_more()
    }

    /// Takes all bytes, and those of a piece after them.
    pub(crate) fn take_all(&mut self, piece: &[u8]) -> Result<Vec<u8>, PduFault>
        requires { has_frame self.old.bytes ≡ true }
        ensures bytes { IfOk result (λ bytes. bytes.items ≡ self.old.bytes ++ piece.now) }
        ensures none { OnOk result (self.new ≡ record { bytes = []; is_counted = false }) }
        ensures err { OnErr result (self.new ≡ self.old) }
    {
        self.framer.take_all(piece)
    }

    /// Lends the buffer of a half-read PDU to a reader, as [`Framer::lend_room`] does.
    pub(crate) fn lend_room(&mut self, room: usize, spares: &mut SpareBuffers) -> Option<FrameRoom>
        ensures bytes { IfSome result (λ lent. self.old.bytes ≡ self.new.bytes ++ take lent.from lent.buffer.items) }
        ensures header { IfSome result (λ _. length self.new.bytes ≡ header_length) }
        ensures room { IfSome result (λ lent. lent.to ≡ lent.from + room) }
        ensures within { IfSome result (λ lent. lent.to ≤ length lent.buffer.items) }
        ensures counted { IfSome result (λ _. self.new.is_counted ≡ false) }
        ensures none { IfNone result (self.new ≡ self.old) }
    {
        if self.is_counted {
            return None;
        }
        self.framer.lend_room(room, spares)
    }

    /// Takes back the buffer of a half-read PDU, of which the reader has filled `count` bytes.
    pub(crate) fn take_room(&mut self, lent: FrameRoom, count: usize)
        requires header { length self.old.bytes ≡ header_length }
        requires within { lent.from + count ≤ length lent.buffer.items }
        ensures { self.new ≡ record { bytes = self.old.bytes ++ take (lent.from + count) lent.buffer.items; is_counted = false } }
    {
        self.framer.take_room(lent, count);
    }

    /// Returns the header of a half-read PDU whose bytes are all kept.
    pub(crate) fn header(&self) -> Option<Header>
        ensures some { IfSome result (λ h. (h ≡ take header_length self.now.bytes) × (header_length ≤ length self.now.bytes)) }
        ensures kept { IfSome result (λ _. self.now.is_counted ≡ false) }
    {
        if self.is_counted {
            return None;
        }
        self.framer.header()
    }

    /// Counts the bytes of a half-read Data-Out from now on, if that is possible. None of them is kept.
    pub(crate) fn pass_over(&mut self)
        requires { IsHalfRead self.old.bytes }
        ensures bytes { self.new.bytes ≡ self.old.bytes }
        ensures passing { (phase : Phase) → CanPass phase self.old → IsUntaken phase (out_in self.old.bytes) → CanPass phase self.new }
    {
        if self.is_counted {
            return;
        }
        let Some(bytes) = self.framer.after_header() else {
            return;
        };
        let mut noted = Record::new();
        noted.note(&[], bytes, &[]);
        // Nothing is given, as the Data-Out is not whole: its bytes are replaced by their number.
        if let Ok((_, Part::Nothing)) = self.framer.take(&[]) {
            self.noted = noted;
            self.is_counted = true;
        }
    }

    /// Returns how many bytes are missing of the next header, or of its PDU.
    pub(crate) fn want(&self) -> usize
        ensures { result ≡ wanted self.now.bytes }
    {
        self.framer.want()
    }
}
