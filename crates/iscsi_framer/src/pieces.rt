//! Frames are taken out of a piece, or the data of a Data-Out is lent from it.

ghost use Rattle.std.specs.Prelude.{◌≡◌, ◌<◌, ◌≤◌, ◌↔◌, ◌+◌, ℕ, List, [], ◌++◌, length, take, true, false, IsOk, IfOk, IfErr, IfSome, IfNone, OnOk, OnErr};
ghost use Rattle.std.specs.Result.{IsErrOf};
ghost use Rattle.iscsi_pdu.specs.Header.{header_length};
ghost use Rattle.iscsi_pdu.specs.Frames.{frame_length};
ghost use Rattle.iscsi_pdu.specs.Parts.{is_data_out, HoldsOne, Takes};
ghost use Rattle.iscsi_framer.specs.Framer.{LendsSome, HoldsNoMore, IsWholly, part_of};

use crate::frame_buffer::cut_front;
use crate::framer::{Framer, put};
use crate::front::Front;
use data_parts::SpareBuffers;
use iscsi_pdu::{Frame, HEADER_LENGTH, Header, MOST_DATA, Part, PduFault, padded};

/// Returns the part that a frame is, or that it is nothing if there is none.
fn part_of<'p>(frame: Option<Frame>) -> Part<'p>
    ensures { result ≡ part_of frame }
{
    match frame {
        Some(frame) => Part::Frame(frame),
        None => Part::Nothing,
    }
}

/// Returns whether a piece begins with a whole header that names additional headers or data (RFC 7143 §11.2.1), so that
/// its PDU is longer than its header.
#[tactic(auto, unfolding(iscsi_pdu::specs::Frames::frame_length))]
pub fn names_more(piece: &[u8]) -> bool
    ensures { (result ≡ true) ↔ ((header_length ≤ length piece.now) × (header_length < frame_length piece.now)) }
{
    piece.len() >= HEADER_LENGTH
        && (piece[4] != 0 || piece[5] != 0 || piece[6] != 0 || piece[7] != 0)
}

impl Framer {
    ghost use Rattle.iscsi_pdu.specs.Header.{header_length, data_length};
    ghost use Rattle.iscsi_pdu.specs.Segment.{most_data};
    ghost use Rattle.iscsi_pdu.specs.Frames.{has_frame, is_long, frame_length};

    /// Keeps a piece that ends before the PDU in front does, if no buffer has to be found for it. Returns whether it did: if
    /// not, nothing is changed.
    pub fn keep_part(&mut self, piece: &[u8]) -> bool
        ensures kept { result ≡ true → self.new ≡ self.old ++ piece.now }
        ensures part { result ≡ true → (has_frame (self.old ++ piece.now) ≡ false) × (is_long (self.old ++ piece.now) ≡ false) }
        ensures other { result ≡ false → self.new ≡ self.old }
    {
        let had = self.header.len();
        if piece.len() < HEADER_LENGTH - had {
            put(&mut self.header, piece);
            return true;
        }
        if had == HEADER_LENGTH {
            return self.keep_more(piece);
        }
        if piece.len() > HEADER_LENGTH - had || had == 0 && !names_more(piece) {
            return false;
        }
        self.keep_header(piece)
    }

    /// Keeps the end of a header as [`keep_part`](Framer::keep_part) does.
    fn keep_header(&mut self, piece: &[u8]) -> bool
        requires { length self.old + length piece.now ≡ header_length }
        ensures kept { result ≡ true → self.new ≡ self.old ++ piece.now }
        ensures part { result ≡ true → (has_frame (self.old ++ piece.now) ≡ false) × (is_long (self.old ++ piece.now) ≡ false) }
        ensures other { result ≡ false → self.new ≡ self.old }
    {
        let had = self.header.len();
        put(&mut self.header, piece);
        if let Front::Part = self.front() {
            return true;
        }
        self.header.truncate(had);
        false
    }

    /// Keeps bytes after a header as [`keep_part`](Framer::keep_part) does.
    #[inline(always)]
    fn keep_more(&mut self, piece: &[u8]) -> bool
        ensures kept { result ≡ true → self.new ≡ self.old ++ piece.now }
        ensures part { result ≡ true → (has_frame (self.old ++ piece.now) ≡ false) × (is_long (self.old ++ piece.now) ≡ false) }
        ensures other { result ≡ false → self.new ≡ self.old }
    {
        let Some(header) = self.header() else {
            return false;
        };
        let data = header.data_length();
        if data > MOST_DATA {
            return false;
        }
        let missing = (HEADER_LENGTH + header.additional_length() + padded(data)).saturating_sub(
            self.len(),
        );
        if piece.len() >= missing {
            return false;
        }
        self.behind.append_more(piece, missing)
    }

    /// Takes the frame in front, in the buffer in which it came, if it is whole and no byte has come after it. Returns `None`,
    /// and changes nothing, if not, or if its additional headers cannot be cut off as an allocation fails.
    #[inline(always)]
    pub fn take_alone(&mut self) -> Option<Frame>
        ensures given { IfSome result (λ frame. IsWholly frame self.old) }
        ensures left { IfSome result (λ _. self.new ≡ []) }
        ensures none { IfNone result (self.new ≡ self.old) }
    {
        match self.front() {
            Front::Alone => self.take_first().ok(),
            Front::Part | Front::Followed | Front::TooLong => None,
        }
    }

    /// Takes the next bytes of a piece, up to the end of a frame, and that frame if it is whole with them. Returns how
    /// many were used. Bytes that make no frame whole are all kept. Data goes into a spare buffer.
    ///
    /// May be called if no more than one PDU is kept ([`holds_more`](Framer::holds_more)), as after each call.
    pub fn take_frame(
        &mut self,
        piece: &[u8],
        spares: &mut SpareBuffers,
    ) -> Result<(usize, Option<Frame>), PduFault>
        requires { HoldsNoMore self.old }
        ensures within { IfOk result (λ r. r.0 ≤ length piece.now) }
        ensures given { IfOk result (λ r. IfSome r.1 (λ frame. IsWholly frame (self.old ++ take r.0 piece.now))) }
        ensures left { IfOk result (λ r. IfSome r.1 (λ _. self.new ≡ [])) }
        ensures none { IfOk result (λ r. IfNone r.1 (has_frame (self.old ++ piece.now) ≡ false)) }
        ensures kept { IfOk result (λ r. IfNone r.1 (self.new ≡ self.old ++ piece.now)) }
        ensures too_long { IsErrOf result PduFault.TooLong ↔ (is_long (self.old ++ piece.now) ≡ true) }
        ensures err { OnErr result (self.new ≡ self.old) }
    {
        let had = self.header.len();
        let (front, more) = piece.split_at(piece.len().min(HEADER_LENGTH - had));
        put(&mut self.header, front);
        match self.take_whole(more, spares) {
            Ok((used, frame)) => Ok((front.len() + used, frame)),
            Err(fault) => {
                self.header.truncate(had);
                Err(fault)
            }
        }
    }

    /// Takes the next bytes of a piece, like [`take_frame`](Framer::take_frame), after those of the first header.
    #[inline(always)]
    fn take_whole(
        &mut self,
        more: &[u8],
        spares: &mut SpareBuffers,
    ) -> Result<(usize, Option<Frame>), PduFault>
        requires first { length self.old < header_length → more.now ≡ [] }
        requires no_more { HoldsNoMore self.old }
        ensures within { IfOk result (λ r. r.0 ≤ length more.now) }
        ensures given { IfOk result (λ r. IfSome r.1 (λ frame. IsWholly frame (self.old ++ take r.0 more.now))) }
        ensures left { IfOk result (λ r. IfSome r.1 (λ _. self.new ≡ [])) }
        ensures none { IfOk result (λ r. IfNone r.1 (has_frame (self.old ++ more.now) ≡ false)) }
        ensures kept { IfOk result (λ r. IfNone r.1 (self.new ≡ self.old ++ more.now)) }
        ensures too_long { IsErrOf result PduFault.TooLong ↔ (is_long self.old ≡ true) }
        ensures err { OnErr result (self.new ≡ self.old) }
    {
        let Some(header) = self.header() else {
            return Ok((0, None));
        };
        let count = header.data_length();
        if count > MOST_DATA {
            return Err(PduFault::TooLong);
        }
        self.gather(header, more, spares)
    }

    /// Takes the next bytes of a piece. Returns how many were used, and what they brought. The data of a Data-Out is
    /// lent from the piece while its PDU arrives; any other PDU is kept until it is whole.
    ///
    /// May be called if no more than one Data-Out is kept, and of any other PDU less than all. That holds of a new
    /// framer, and after each call. After [`PduFault::TooLong`] the header is kept, and out of memory changes nothing.
    pub fn take<'p>(&mut self, piece: &'p [u8]) -> Result<(usize, Part<'p>), PduFault>
        requires { HoldsOne self.old }
        ensures part { IfOk result (λ r. Takes self.old piece.now r.0 r.1 self.new) }
        ensures some { IfOk result (λ r. LendsSome r.1) }
        ensures one { HoldsOne self.new }
        ensures too_long { IsErrOf result PduFault.TooLong ↔ (is_long (self.old ++ piece.now) ≡ true) }
        ensures long { IsErrOf result PduFault.TooLong → is_long self.new ≡ true }
        ensures memory { IsErrOf result PduFault.Memory → self.new ≡ self.old }
        // Of a Data-Out nothing is kept, so that nothing is allocated.
        ensures lent { is_data_out self.old ≡ true → is_long self.old ≡ false → IsOk result }
    {
        let had = self.header.len();
        let (front, more) = piece.split_at(piece.len().min(HEADER_LENGTH - had));
        put(&mut self.header, front);
        match self.take_more(more) {
            Ok((used, part)) => Ok((front.len() + used, part)),
            Err(PduFault::TooLong) => Err(PduFault::TooLong),
            Err(PduFault::Memory) => {
                self.header.truncate(had);
                Err(PduFault::Memory)
            }
        }
    }

    /// Takes the next bytes of a piece, like [`take`](Framer::take), after those of the first header.
    fn take_more<'p>(&mut self, more: &'p [u8]) -> Result<(usize, Part<'p>), PduFault>
        requires within { is_long self.old ≡ false → length self.old ≤ frame_length self.old }
        requires first { length self.old < header_length → more.now ≡ [] }
        ensures part { IfOk result (λ r. Takes self.old more.now r.0 r.1 self.new) }
        ensures some { IfOk result (λ r. LendsSome r.1) }
        ensures one { OnOk result (HoldsOne self.new) }
        ensures too_long { IsErrOf result PduFault.TooLong ↔ (is_long self.old ≡ true) }
        ensures lent { is_data_out self.old ≡ true → is_long self.old ≡ false → IsOk result }
        ensures err { OnErr result (self.new ≡ self.old) }
    {
        let Some(header) = self.header() else {
            return Ok((0, Part::Nothing));
        };
        if header.data_length() > MOST_DATA {
            return Err(PduFault::TooLong);
        }
        if header.is_data_out() {
            return Ok(self.lend(header, more));
        }
        let mut spares = self.behind.no_spares();
        let (used, frame) = self.gather(header, more, &mut spares)?;
        Ok((used, part_of(frame)))
    }

    /// Takes the next bytes of a Data-Out with this header. Its data is lent.
    fn lend<'p>(&mut self, header: Header, more: &'p [u8]) -> (usize, Part<'p>)
        requires there { header_length ≤ length self.old }
        requires header { header ≡ take header_length self.old }
        requires short { data_length header ≤ most_data }
        requires within { length self.old ≤ frame_length self.old }
        requires out { is_data_out self.old ≡ true }
        ensures part { Takes self.old more.now result.0 result.1 self.new }
        ensures some { LendsSome result.1 }
        ensures one { HoldsOne self.new }
    {
        let had = self.len();
        let start = HEADER_LENGTH + header.additional_length();
        let end = start + header.data_length();
        let whole = start + padded(header.data_length());
        let skipped = start.saturating_sub(had).min(more.len());
        let count = end.saturating_sub(had + skipped).min(more.len() - skipped);
        if count > 0 {
            let used = skipped + count;
            self.behind.forget(used);
            return (used, Part::Data(header, &more[skipped..used]));
        }
        let used = (whole - had).min(more.len());
        if had + used < whole {
            self.behind.forget(used);
            return (used, Part::Nothing);
        }
        self.header.clear();
        self.behind.clear();
        (used, Part::End(header))
    }

    /// Takes the next bytes of a PDU with this header, and its frame if it is whole with them. If it is not, all are kept.
    #[inline(always)]
    fn gather(
        &mut self,
        header: Header,
        more: &[u8],
        spares: &mut SpareBuffers,
    ) -> Result<(usize, Option<Frame>), PduFault>
        requires there { header_length ≤ length self.old }
        requires header { header ≡ take header_length self.old }
        requires short { data_length header ≤ most_data }
        requires within { length self.old ≤ frame_length self.old }
        ensures within { IfOk result (λ r. r.0 ≤ length more.now) }
        ensures given { IfOk result (λ r. IfSome r.1 (λ frame. IsWholly frame (self.old ++ take r.0 more.now))) }
        ensures left { IfOk result (λ r. IfSome r.1 (λ _. self.new ≡ [])) }
        ensures none { IfOk result (λ r. IfNone r.1 (has_frame (self.old ++ more.now) ≡ false)) }
        ensures kept { IfOk result (λ r. IfNone r.1 (self.new ≡ self.old ++ more.now)) }
        ensures all { IfOk result (λ r. IfNone r.1 (r.0 ≡ length more.now)) }
        ensures memory { IfErr result (λ fault. fault ≡ PduFault.Memory) }
        ensures err { OnErr result (self.new ≡ self.old) }
    {
        let data = header.data_length();
        let additional = header.additional_length();
        let missing = HEADER_LENGTH + additional + padded(data) - self.len();
        if more.len() < missing {
            if !more.is_empty() {
                self.behind.append(more, missing, spares)?;
            }
            return Ok((more.len(), None));
        }
        let _ = self.behind.prepare(missing, spares);
        let mut body = self.behind.complete(&more[..missing])?;
        cut_front(&mut body, additional);
        body.truncate(data);
        self.header.clear();
        Ok((missing, Some(Frame { header, body })))
    }
}
