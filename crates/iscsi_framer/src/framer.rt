//! Cutting the bytes of a connection into frames.

ghost use Rattle.std.specs.Prelude.{◌≡◌, ◌+◌, ◌<◌, ◌≤◌, ◌↔◌, ℕ, List, [], ◌∷◌, ◌++◌, length, take, drop, true, false, IsOk, IfOk, IfErr, IfSome, IfNone, OnOk, OnErr};
ghost use Rattle.std.specs.Result.{IsErrOf};
ghost use Rattle.iscsi_framer.specs.Framer.{HoldsNoMore};

use crate::byte_queue::ByteQueue;
use crate::frame_buffer::FrameRoom;
use crate::front::Front;
use arrayvec::ArrayVec;
use data_parts::SpareBuffers;
use iscsi_pdu::{Frame, HEADER_LENGTH, Header, MOST_DATA, PduFault, padded};
use std::alloc::Global;
use std::marker::Model;

/// Cuts the bytes of one connection into frames, whatever the pieces in which they come. Clauses see it as the bytes
/// that were fed and not yet returned.
///
/// If no byte has come after a frame, its data segment is returned in the buffer in which it came. If the bytes are
/// given to [`take`](Framer::take), the data of a Data-Out is lent from them as it comes, and only counted here.
#[derive(Drop)]
pub struct Framer {
    /// The part of the first header that has come.
    pub(crate) header: ArrayVec<u8, HEADER_LENGTH>,
    /// The bytes that have come after that header.
    pub(crate) behind: ByteQueue,
}

impl Model for Framer {
    ghost use Rattle.std.specs.Prelude.{◌++◌, ℕ, List};
    ghost use Rattle.iscsi_pdu.specs.Header.{header_length};
    ghost use Rattle.iscsi_framer.specs.Framer.{IsSplit};

    ghost Value = { List ℕ };

    ghost view = { λ f. f.header.items ++ f.behind };

    ghost invariant = { λ f. IsSplit header_length f.header.items f.behind };
}

/// Appends bytes of a header, for which there is room.
pub(crate) fn put(header: &mut ArrayVec<u8, HEADER_LENGTH>, bytes: &[u8])
    requires { length header.old.items + length bytes.now ≤ 48 }
    ensures { header.new.items ≡ header.old.items ++ bytes.now }
{
    let _ = header.try_extend_from_slice(bytes);
}

impl Framer {
    ghost use Rattle.iscsi_pdu.specs.Header.{header_length, data_length};
    ghost use Rattle.iscsi_pdu.specs.Segment.{most_data, padded as padded_to};
    ghost use Rattle.iscsi_pdu.specs.Frames.{frames, rest, has_frame, is_long, first_frame, frame_length, missing, wanted};

    /// Returns a framer without bytes. Allocates nothing.
    pub fn new(alloc: Global) -> Framer
        ensures { result ≡ [] }
    {
        Framer {
            header: ArrayVec::new(),
            behind: ByteQueue::new(alloc),
        }
    }

    /// Takes the next piece of the connection's bytes. An empty piece allocates nothing.
    pub fn feed(&mut self, piece: &[u8]) -> Result<(), PduFault>
        ensures ok { OnOk result (self.new ≡ self.old ++ piece.now) }
        ensures empty { piece.now ≡ [] → IsOk result }
        ensures memory { IfErr result (λ fault. fault ≡ PduFault.Memory) }
        ensures err { OnErr result (self.new ≡ self.old) }
    {
        let had = self.header.len();
        let (front, more) = piece.split_at(piece.len().min(HEADER_LENGTH - had));
        put(&mut self.header, front);
        if more.is_empty() {
            return Ok(());
        }
        let room = self.want().min(MOST_DATA);
        let mut spares = self.behind.no_spares();
        if let Err(fault) = self.behind.append(more, room, &mut spares) {
            self.header.truncate(had);
            return Err(fault);
        }
        Ok(())
    }

    /// Lends the buffer of the PDU in front to a reader, who is to fill `room` bytes after those that have come. Until it is
    /// taken back only the header is kept. Returns `None`, and changes nothing, if the header is not whole or no buffer with
    /// this room is at hand.
    pub fn lend_room(&mut self, room: usize, spares: &mut SpareBuffers) -> Option<FrameRoom>
        ensures bytes { IfSome result (λ lent. self.old ≡ self.new ++ take lent.from lent.buffer.items) }
        ensures header { IfSome result (λ _. length self.new ≡ header_length) }
        ensures room { IfSome result (λ lent. lent.to ≡ lent.from + room) }
        ensures within { IfSome result (λ lent. lent.to ≤ length lent.buffer.items) }
        ensures none { IfNone result (self.new ≡ self.old) }
    {
        let header = self.header()?;
        if header.data_length() > MOST_DATA {
            return None;
        }
        let missing = self.want();
        if !self.behind.prepare(missing, spares) {
            return None;
        }
        self.behind.lend(room)
    }

    /// Takes back a buffer of which the reader has filled `count` bytes: the bytes that had come, and these. Only the
    /// header is kept before.
    pub fn take_room(&mut self, lent: FrameRoom, count: usize)
        requires header { length self.old ≡ header_length }
        requires within { lent.from + count ≤ length lent.buffer.items }
        ensures { self.new ≡ self.old ++ take (lent.from + count) lent.buffer.items }
    {
        self.behind.take_back(lent, count);
    }

    /// Returns the bytes after the first header, if it is whole and none of them are only counted
    /// ([`take`](Framer::take)).
    pub fn after_header(&self) -> Option<&[u8]>
        ensures { IfSome result (λ bytes. self.now ≡ take header_length self.now ++ bytes.now) }
    {
        if !self.header.is_full() {
            return None;
        }
        let bytes = self.behind.all_kept()?;
        Some(bytes)
    }

    /// Takes the first frame from the front of the bytes. Returns `None` if the bytes are less than a frame.
    /// Allocates, and can run out of memory, only if there is a frame.
    #[tactic(auto, unfolding(iscsi_pdu::specs::Frames::has_frame, iscsi_pdu::specs::Frames::is_long, iscsi_pdu::specs::Frames::first_frame, iscsi_pdu::specs::Frames::frame_length))]
    pub fn next(&mut self) -> Result<Option<Frame>, PduFault>
        // A frame that is returned is the first, and is removed from the bytes.
        ensures whole { IfOk result (λ o. IfSome o (λ _. has_frame self.old ≡ true)) }
        ensures given { IfOk result (λ o. IfSome o (λ f. first_frame self.old ≡ f)) }
        ensures taken { IfOk result
            (λ o. IfSome o (λ _. self.new ≡ drop (frame_length self.old) self.old)) }
        ensures frames { IfOk result
            (λ o. IfSome o (λ f. frames self.old ≡ f ∷ frames self.new)) }
        ensures rest { IfOk result (λ o. IfSome o (λ _. rest self.new ≡ rest self.old)) }

        // Nothing is returned if neither a whole frame nor a long one is in front.
        ensures none { IfOk result (λ o. IfNone o (has_frame self.old ≡ false)) }
        ensures none_long { IfOk result (λ o. IfNone o (is_long self.old ≡ false)) }
        ensures waits { IfOk result (λ o. IfNone o (self.new ≡ self.old)) }

        ensures too_long { IsErrOf result PduFault.TooLong ↔ (is_long self.old ≡ true) }
        ensures memory { IsErrOf result PduFault.Memory → has_frame self.old ≡ true }
        ensures err { OnErr result (self.new ≡ self.old) }
    {
        match self.front() {
            Front::Part => Ok(None),
            Front::Alone | Front::Followed => Ok(Some(self.take_first()?)),
            Front::TooLong => Err(PduFault::TooLong),
        }
    }

    /// Returns what stands in front of the bytes.
    #[tactic(auto, unfolding(iscsi_pdu::specs::Frames::has_frame, iscsi_pdu::specs::Frames::is_long, iscsi_pdu::specs::Frames::frame_length))]
    pub fn front(&self) -> Front
        ensures part { result ≡ Front.Part → (has_frame self.now ≡ false) × (is_long self.now ≡ false) }
        ensures alone { result ≡ Front.Alone → (has_frame self.now ≡ true) × (frame_length self.now ≡ length self.now) }
        ensures followed { result ≡ Front.Followed → (has_frame self.now ≡ true) × (frame_length self.now < length self.now) }
        ensures long { (result ≡ Front.TooLong) ↔ (is_long self.now ≡ true) }
    {
        let Some(header) = self.header() else {
            return Front::Part;
        };
        let data = header.data_length();
        if data > MOST_DATA {
            return Front::TooLong;
        }
        let end = HEADER_LENGTH + header.additional_length() + padded(data);
        let had = self.len();
        if had < end {
            return Front::Part;
        }
        if had > end {
            return Front::Followed;
        }
        Front::Alone
    }

    /// Takes the first frame, which is whole.
    #[tactic(auto, unfolding(iscsi_pdu::specs::Frames::has_frame, iscsi_pdu::specs::Frames::first_frame, iscsi_pdu::specs::Frames::frame_length))]
    pub fn take_first(&mut self) -> Result<Frame, PduFault>
        requires { has_frame self.old ≡ true }
        ensures given { IfOk result (λ f. first_frame self.old ≡ f) }
        ensures taken { OnOk result (self.new ≡ drop (frame_length self.old) self.old) }
        ensures memory { IfErr result (λ fault. fault ≡ PduFault.Memory) }
        ensures err { OnErr result (self.new ≡ self.old) }
    {
        let header = self.whole_header();
        let body = self.take_body(header.additional_length(), header.data_length())?;
        Ok(Frame { header, body })
    }

    /// Returns whether more is kept than one PDU.
    pub fn holds_more(&self) -> bool
        ensures no { result ≡ false → HoldsNoMore self.now }
        ensures yes { result ≡ true → has_frame self.now ≡ true }
    {
        match self.front() {
            Front::Followed => true,
            Front::Part | Front::Alone | Front::TooLong => false,
        }
    }

    /// Takes all bytes, and those of a piece after them.
    pub fn take_all(&mut self, piece: &[u8]) -> Result<Vec<u8>, PduFault>
        ensures bytes { IfOk result (λ bytes. bytes.items ≡ self.old ++ piece.now) }
        ensures none { OnOk result (self.new ≡ []) }
        ensures memory { IfErr result (λ fault. fault ≡ PduFault.Memory) }
        ensures err { OnErr result (self.new ≡ self.old) }
    {
        let mut all = self.behind.copied_after(self.header.as_slice())?;
        all.extend_from_slice(piece)?;
        self.header.clear();
        self.behind.clear();
        Ok(all)
    }

    /// Takes the data segment after the header and `additional` bytes. The frame is removed from the bytes.
    fn take_body(&mut self, additional: usize, count: usize) -> Result<Vec<u8>, PduFault>
        requires short { count ≤ most_data }
        requires whole { header_length + additional + padded_to count ≤ length self.old }
        ensures body { IfOk result (λ body. body.items ≡ take count (drop (header_length + additional) self.old)) }
        ensures rest { OnOk result (self.new ≡ drop (header_length + additional + padded_to count) self.old) }
        ensures memory { IfErr result (λ fault. fault ≡ PduFault.Memory) }
        ensures err { OnErr result (self.new ≡ self.old) }
    {
        let behind = self.behind.len();
        let end = additional + padded(count);
        if additional == 0 && behind == end {
            let mut all = self.behind.complete(&[])?;
            all.truncate(count);
            self.header.clear();
            return Ok(all);
        }
        let body = self.behind.copied(additional, count)?;
        self.pass(end);
        Ok(body)
    }

    /// Removes the header and `n` bytes after it.
    fn pass(&mut self, n: usize)
        requires { header_length + n ≤ length self.old }
        ensures { self.new ≡ drop (header_length + n) self.old }
    {
        self.behind.skip(n);
        self.header.clear();
        let front = self.behind.len().min(HEADER_LENGTH);
        let kept = self.behind.kept();
        let some = front.min(kept.len());
        put(&mut self.header, &kept[..some]);
        put(&mut self.header, &[0; HEADER_LENGTH][..front - some]);
        self.behind.skip(front);
    }

    /// Returns how many bytes are missing of the header or, if it is whole, of its frame. Returns 1 if none are
    /// missing.
    #[tactic(auto, unfolding(iscsi_pdu::specs::Frames::has_frame, iscsi_pdu::specs::Frames::is_long, iscsi_pdu::specs::Frames::frame_length, iscsi_pdu::specs::Frames::missing))]
    pub fn want(&self) -> usize
        ensures value { result ≡ wanted self.now }
        ensures some { 1 ≤ result }
        ensures exact { has_frame self.now ≡ false → is_long self.now ≡ false
            → result ≡ missing self.now }
    {
        let had = self.len();
        let whole = match self.header() {
            None => HEADER_LENGTH,
            Some(header) => {
                HEADER_LENGTH + header.additional_length() + padded(header.data_length())
            }
        };
        whole.saturating_sub(had).max(1)
    }

    /// Returns whether there are no bytes.
    pub fn is_empty(&self) -> bool
        ensures { (result ≡ true) ↔ (self.now ≡ []) }
    {
        self.len() == 0
    }

    /// Returns the number of bytes.
    pub(crate) fn len(&self) -> usize
        ensures { result ≡ length self.now }
    {
        self.header.len() + self.behind.len()
    }

    /// Returns the first header, if it is whole.
    pub fn header(&self) -> Option<Header>
        ensures some { IfSome result (λ h. (h ≡ take header_length self.now) × (header_length ≤ length self.now)) }
        ensures none { IfNone result (length self.now < header_length) }
    {
        if !self.header.is_full() {
            return None;
        }
        Some(self.whole_header())
    }

    /// Returns the first header, which is whole.
    fn whole_header(&self) -> Header
        requires { header_length ≤ length self.now }
        ensures { result ≡ take header_length self.now }
    {
        let mut header = [0; HEADER_LENGTH];
        header.copy_from_slice(self.header.as_slice());
        Header::new(header)
    }
}
