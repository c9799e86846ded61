//! The bytes of a connection: whole frames are taken in order.

ghost use Rattle.std.specs.Prelude.{◌≡◌, ◌<◌, ◌≤◌, ◌↔◌, ◌+◌, ◌++◌, [], true, false, length, take, drop, IfOk, IfSome, IfNone, OnOk, OnErr};
ghost use Rattle.std.specs.Result.{IsErrOf};
ghost use Rattle.iscsi_pdu.specs.Frames.{has_frame, is_long};
ghost use Rattle.iscsi_pdu.specs.Header.{header_length};
ghost use Rattle.iscsi_framer.specs.Framer.{HoldsNoMore};
ghost use Rattle.iscsi_connection.specs.Arriving.{frame_of, MayServe};
ghost use Rattle.iscsi_target.specs.Feeding.{LendsRoomAt};
ghost use Rattle.iscsi_world.specs.History.{arrivals};
ghost use Rattle.iscsi_world.specs.Machine.{GivesFrame, link_at, with_link, is_logging_in, is_reading};
ghost use Rattle.iscsi_world.specs.Serving.{TakesFrame, TakesBytes, first_starved, kept_piece};

use crate::serve::earlier_of;
use crate::target::Target;
use data_parts::SpareBuffers;
use iscsi_connection::{Arrived, Taken};
use iscsi_framer::FrameRoom;
use iscsi_pdu::{Frame, Opcode, PduFault};
use iscsi_world::{Phase, Starved};
use media_store::Store;
use target_limits::Memory;

impl<S: Store> Target<S> {
    /// Keeps a piece on a connection that ends before the PDU in front does, if no buffer has to be found for it. Returns
    /// whether it did: if not, nothing is changed.
    fn keep_part(&mut self, c: usize, piece: &[u8]) -> bool
        requires in_range { c < 64 }
        requires reads { is_reading (link_at self.old c).phase ≡ true }
        ensures kept { result ≡ true → self.new ≡ kept_piece c piece.now self.old }
        ensures part { result ≡ true → arrivals ((link_at self.old c).half ++ piece.now) ≡ [] }
        ensures other { result ≡ false → self.new ≡ self.old }
        ensures count { length self.old.links ≡ 64 }
    {
        let connection = self.connections.at_mut(c);
        connection.keep_part(piece)
    }

    /// Takes the PDU in front of a connection's bytes as [`Connection::take_alone`] does.
    #[inline(always)]
    fn take_alone(&mut self, c: usize) -> Option<Frame>
        requires in_range { c < 64 }
        requires reads { is_reading (link_at self.old c).phase ≡ true }
        ensures given { IfSome result (λ frame. GivesFrame frame (link_at self.old c).half []) }
        ensures no_more { IfSome result (λ _. HoldsNoMore (link_at self.old c).half) }
        ensures left { IfSome result (λ _. self.new ≡ with_link self.old c (record (link_at self.old c) { half = [] })) }
        ensures none { IfNone result (self.new ≡ self.old) }
        ensures count { length self.old.links ≡ 64 }
    {
        let connection = self.connections.at_mut(c);
        connection.take_alone()
    }

    /// Takes the next bytes of a piece on a connection, up to the end of a PDU, and the PDU if it is whole with them.
    /// If it is not, all of the piece is kept. A fault changes nothing.
    #[inline(always)]
    fn take_pdu(&mut self, c: usize, piece: &[u8]) -> Result<Option<Taken>, PduFault>
        requires in_range { c < 64 }
        requires reads { is_reading (link_at self.old c).phase ≡ true }
        requires no_more { HoldsNoMore (link_at self.old c).half }
        ensures within { IfOk result (λ o. IfSome o (λ t. t.used ≤ length piece.now)) }
        ensures given { IfOk result (λ o. IfSome o (λ t. GivesFrame (frame_of t.arrived) ((link_at self.old c).half ++ piece.now) (drop t.used piece.now))) }
        ensures left { IfOk result (λ o. IfSome o (λ _. self.new ≡ with_link self.old c (record (link_at self.old c) { half = [] }))) }
        ensures serves { IfOk result (λ o. IfSome o (λ t. MayServe (link_at self.old c).phase t.arrived)) }
        ensures kept { IfOk result (λ o. IfNone o (self.new ≡ kept_piece c piece.now self.old)) }
        ensures part { IfOk result (λ o. IfNone o (arrivals ((link_at self.old c).half ++ piece.now) ≡ [])) }
        ensures too_long { IsErrOf result PduFault.TooLong ↔ (is_long ((link_at self.old c).half ++ piece.now) ≡ true) }
        ensures err { OnErr result (self.new ≡ self.old) }
        ensures count { length self.old.links ≡ 64 }
    {
        match self.home(c) {
            Some(target) if self.connections.at(c).wants_buffer(piece) => {
                self.take_for(c, piece, target)
            }
            _ => self.take_with(c, piece, &mut SpareBuffers::new(self.alloc)),
        }
    }

    /// Takes the next bytes of a piece as [`Target::take_pdu`] does, using the spare buffers of a target's units.
    fn take_for(&mut self, c: usize, piece: &[u8], target: usize) -> Result<Option<Taken>, PduFault>
        requires in_range { c < 64 }
        requires reads { is_reading (link_at self.old c).phase ≡ true }
        requires no_more { HoldsNoMore (link_at self.old c).half }
        requires target { target < length self.old.units }
        ensures within { IfOk result (λ o. IfSome o (λ t. t.used ≤ length piece.now)) }
        ensures given { IfOk result (λ o. IfSome o (λ t. GivesFrame (frame_of t.arrived) ((link_at self.old c).half ++ piece.now) (drop t.used piece.now))) }
        ensures left { IfOk result (λ o. IfSome o (λ _. self.new ≡ with_link self.old c (record (link_at self.old c) { half = [] }))) }
        ensures serves { IfOk result (λ o. IfSome o (λ t. MayServe (link_at self.old c).phase t.arrived)) }
        ensures kept { IfOk result (λ o. IfNone o (self.new ≡ kept_piece c piece.now self.old)) }
        ensures part { IfOk result (λ o. IfNone o (arrivals ((link_at self.old c).half ++ piece.now) ≡ [])) }
        ensures too_long { IsErrOf result PduFault.TooLong ↔ (is_long ((link_at self.old c).half ++ piece.now) ≡ true) }
        ensures err { OnErr result (self.new ≡ self.old) }
        ensures count { length self.old.links ≡ 64 }
    {
        let mut spares = self.lend_buffers(target);
        let taken = self.take_with(c, piece, &mut spares);
        self.return_buffers(target, spares);
        taken
    }

    /// Takes the next bytes of a piece as [`Target::take_pdu`] does, using spare buffers.
    #[inline(always)]
    fn take_with(
        &mut self,
        c: usize,
        piece: &[u8],
        spares: &mut SpareBuffers,
    ) -> Result<Option<Taken>, PduFault>
        requires in_range { c < 64 }
        requires reads { is_reading (link_at self.old c).phase ≡ true }
        requires no_more { HoldsNoMore (link_at self.old c).half }
        ensures within { IfOk result (λ o. IfSome o (λ t. t.used ≤ length piece.now)) }
        ensures given { IfOk result (λ o. IfSome o (λ t. GivesFrame (frame_of t.arrived) ((link_at self.old c).half ++ piece.now) (drop t.used piece.now))) }
        ensures left { IfOk result (λ o. IfSome o (λ _. self.new ≡ with_link self.old c (record (link_at self.old c) { half = [] }))) }
        ensures serves { IfOk result (λ o. IfSome o (λ t. MayServe (link_at self.old c).phase t.arrived)) }
        ensures kept { IfOk result (λ o. IfNone o (self.new ≡ kept_piece c piece.now self.old)) }
        ensures part { IfOk result (λ o. IfNone o (arrivals ((link_at self.old c).half ++ piece.now) ≡ [])) }
        ensures too_long { IsErrOf result PduFault.TooLong ↔ (is_long ((link_at self.old c).half ++ piece.now) ≡ true) }
        ensures err { OnErr result (self.new ≡ self.old) }
        ensures count { length self.old.links ≡ 64 }
    {
        let connection = self.connections.at_mut(c);
        connection.take(piece, spares)
    }

    /// Forgets the data of a connection's half-read Data-Out if it is not needed.
    pub(crate) fn forget_unneeded(&mut self, c: usize)
        requires in_range { c < 64 }
        requires part { has_frame (link_at self.old c).half ≡ false }
        ensures same { self.new ≡ self.old }
        ensures count { length self.old.links ≡ 64 }
    {
        if self.connections.at(c).can_forget() {
            let connection = self.connections.at_mut(c);
            connection.forget();
        }
    }

    /// Lends the buffer of a connection's half-read PDU as [`Target::lend_room`] does, using spare buffers.
    pub(crate) fn lend_with(
        &mut self,
        c: usize,
        room: usize,
        spares: &mut SpareBuffers,
    ) -> Option<FrameRoom>
        requires in_range { c < 64 }
        requires reads { is_reading (link_at self.old c).phase ≡ true }
        ensures lent { IfSome result (λ lent. LendsRoomAt c lent room self.old self.new) }
        ensures none { IfNone result (self.new ≡ self.old) }
        ensures count { length self.old.links ≡ 64 }
    {
        let connection = self.connections.at_mut(c);
        connection.lend_room(room, spares)
    }

    /// Lends the buffer of a connection's half-read PDU as [`Target::lend_room`] does, using the spare buffers of a target's
    /// units.
    pub(crate) fn lend_for(&mut self, c: usize, room: usize, target: usize) -> Option<FrameRoom>
        requires in_range { c < 64 }
        requires reads { is_reading (link_at self.old c).phase ≡ true }
        requires target { target < length self.old.units }
        ensures lent { IfSome result (λ lent. LendsRoomAt c lent room self.old self.new) }
        ensures none { IfNone result (self.new ≡ self.old) }
    {
        let mut spares = self.lend_buffers(target);
        let lent = self.lend_with(c, room, &mut spares);
        self.return_buffers(target, spares);
        lent
    }

    /// Takes back the buffer of a connection's half-read PDU, of which the reader has filled `count` bytes.
    pub(crate) fn take_room(&mut self, c: usize, lent: FrameRoom, count: usize)
        requires in_range { c < 64 }
        requires reads { is_reading (link_at self.old c).phase ≡ true }
        requires header { length (link_at self.old c).half ≡ header_length }
        requires within { lent.from + count ≤ length lent.buffer.items }
        ensures same { self.new ≡ with_link self.old c (record (link_at self.old c)
            { half = (link_at self.old c).half ++ take (lent.from + count) lent.buffer.items }) }
        ensures count { length self.old.links ≡ 64 }
    {
        let connection = self.connections.at_mut(c);
        connection.take_room(lent, count);
    }

    /// Lends the spare buffers of a target's units.
    #[tactic(auto, using(iscsi_world::proofs::Sent::same_units))]
    #[inline(always)]
    pub(crate) fn lend_buffers(&mut self, target: usize) -> SpareBuffers
        requires { target < length self.old.units }
        ensures { self.new ≡ self.old }
    {
        let units = &mut self.units[target];
        units.lend_buffers()
    }

    /// Returns the spare buffers to the target's units.
    #[tactic(auto, using(iscsi_world::proofs::Sent::same_units))]
    #[inline(always)]
    pub(crate) fn return_buffers(&mut self, target: usize, spares: SpareBuffers)
        requires { target < length self.old.units }
        ensures { self.new ≡ self.old }
    {
        let units = &mut self.units[target];
        units.return_buffers(spares);
    }

    /// Takes all PDUs in order that are whole with a piece of a connection's bytes, and keeps the bytes after them. Stops
    /// if the connection closes.
    pub(crate) fn take_piece(&mut self, c: usize, piece: &[u8]) -> Result<(), Starved>
        requires in_range { c < 64 }
        requires reads { is_reading (link_at self.old c).phase ≡ true }
        ensures { TakesBytes c (first_starved result) (kept_piece c piece.now self.old) self.new }
    {
        if self.keep_part(c, piece) {
            return Ok(());
        }
        if self.connections.at(c).holds_more() {
            return self.take_all(c, piece);
        }
        self.take_frames(c, piece)
    }

    /// Takes all PDUs in order that are whole of what a reader has filled in. Mostly it is one, which lies in its own buffer.
    pub(crate) fn take_filled(&mut self, c: usize) -> Result<(), Starved>
        requires in_range { c < 64 }
        requires reads { is_reading (link_at self.old c).phase ≡ true }
        ensures { TakesBytes c (first_starved result) self.old self.new }
    {
        match self.take_alone(c) {
            Some(frame) => self.take_frame(c, Arrived::Whole(frame)),
            None => self.take_piece(c, &[]),
        }
    }

    /// Takes all PDUs as [`Target::take_piece`] does, where more is kept than one: only a reader that filled more than it
    /// was to ([`Target::feed_room`]) brings that about.
    #[inline(never)]
    fn take_all(&mut self, c: usize, piece: &[u8]) -> Result<(), Starved>
        requires in_range { c < 64 }
        requires reads { is_reading (link_at self.old c).phase ≡ true }
        requires whole { has_frame (link_at self.old c).half ≡ true }
        ensures { TakesBytes c (first_starved result) (kept_piece c piece.now self.old) self.new }
    {
        match self.unpack(c, piece) {
            Ok(bytes) => self.take_frames(c, bytes.as_slice()),
            Err(_) => Err(self.starve(c)),
        }
    }

    /// Takes all bytes that are kept of a connection, and those of a piece after them.
    fn unpack(&mut self, c: usize, piece: &[u8]) -> Result<Vec<u8>, PduFault>
        requires in_range { c < 64 }
        requires reads { is_reading (link_at self.old c).phase ≡ true }
        requires whole { has_frame (link_at self.old c).half ≡ true }
        ensures bytes { IfOk result (λ bytes. bytes.items ≡ (link_at self.old c).half ++ piece.now) }
        ensures none { OnOk result (self.new ≡ with_link self.old c (record (link_at self.old c) { half = [] })) }
        ensures err { OnErr result (self.new ≡ self.old) }
        ensures count { length self.old.links ≡ 64 }
    {
        let connection = self.connections.at_mut(c);
        connection.take_all(piece)
    }

    /// Takes all PDUs as [`Target::take_piece`] does, where no more is kept than one. A header that names too much data is
    /// a violation.
    #[inline(always)]
    fn take_frames(&mut self, c: usize, piece: &[u8]) -> Result<(), Starved>
        requires in_range { c < 64 }
        requires reads { is_reading (link_at self.old c).phase ≡ true }
        requires no_more { HoldsNoMore (link_at self.old c).half }
        ensures { TakesBytes c (first_starved result) (kept_piece c piece.now self.old) self.new }
    {
        let mut outcome = Ok(());
        let mut rest = piece;
        while self.reads(c) {
            match self.take_pdu(c, rest) {
                Ok(Some(taken)) => {
                    rest = &rest[taken.used..];
                    let served = self.take_frame(c, taken.arrived);
                    outcome = earlier_of(outcome, served);
                    if rest.is_empty() {
                        break;
                    }
                }
                Ok(None) => break,
                Err(PduFault::TooLong) => {
                    self.close(c);
                    break;
                }
                Err(PduFault::Memory) => return earlier_of(outcome, Err(self.starve(c))),
            }
        }
        outcome
    }

    /// Takes one PDU of a connection, by its phase. If an allocation fails, the connection is closed, as if just before one
    /// of the steps that the PDU sets off.
    fn take_frame(&mut self, c: usize, arrived: Arrived) -> Result<(), Starved>
        requires in_range { c < 64 }
        requires reads { is_reading (link_at self.old c).phase ≡ true }
        requires alone { (link_at self.old c).half ≡ [] }
        requires serves { MayServe (link_at self.old c).phase arrived }
        ensures { TakesFrame c (frame_of arrived) (first_starved result) self.old self.new }
    {
        match self.connections.at(c).phase() {
            Phase::Free | Phase::Closing => Ok(()),
            Phase::Login(_) => self.enter(c, &arrived),
            Phase::FullFeature(_) => self.serve(c, arrived),
        }
    }

    /// Takes a PDU before full feature phase: a Login request is answered, any other PDU is a violation.
    #[tactic(auto, unfolding(iscsi_world::specs::World::is_login))]
    fn enter(&mut self, c: usize, arrived: &Arrived) -> Result<(), Starved>
        requires in_range { c < 64 }
        requires logs_in { is_logging_in (link_at self.old c).phase ≡ true }
        requires serves { MayServe (link_at self.old c).phase arrived.now }
        ensures { TakesFrame c (frame_of arrived.now) (first_starved result) self.old self.new }
    {
        if let Arrived::Whole(frame) = arrived {
            if frame.header.opcode() == Opcode::Login {
                return match self.log_in(c, frame) {
                    Ok(()) => Ok(()),
                    Err(Memory) => Err(self.starve(c)),
                };
            }
        }
        self.close(c);
        Ok(())
    }
}
