//! One connection: its bytes, its phase and its output that is still to be sent.

ghost use Rattle.std.specs.Prelude.{◌≡◌, ◌+◌, ◌<◌, ◌≤◌, ◌↔◌, ◌++◌, [], None, true, false, length, take, drop, nat_lt, if◌then◌else◌, IfOk, IfSome, IfNone, OnOk, OnErr};
ghost use Rattle.std.specs.Result.{IsErrOf};
ghost use Rattle.iscsi_pdu.specs.Frames.{has_frame, is_long, wanted};
ghost use Rattle.iscsi_pdu.specs.Header.{header_length, data_length};
ghost use Rattle.iscsi_pdu.specs.Segment.{most_data};
ghost use Rattle.iscsi_transfer.specs.Counted.{brought};
ghost use Rattle.iscsi_pdu.specs.Answer.{spelling};
ghost use Rattle.iscsi_pdu.specs.declared.answer.Answer.TheVariants as answers;
ghost use Rattle.iscsi_outbox.specs.Offered.{EndsPdu};
ghost use Rattle.scsi_unit.specs.Units.{join as join_units};
ghost use Rattle.iscsi_login.specs.Values.{AreInRange};
ghost use Rattle.iscsi_login.specs.Lookup.{lookup_in};
ghost use Rattle.iscsi_login.specs.LoginState.{LoginState, IsTargetBelow};
ghost use Rattle.iscsi_login.specs.Login.{advanced, reply_of};
ghost use Rattle.iscsi_session.specs.Requests.{begun as begun_past};
ghost use Rattle.iscsi_session.specs.State.{remembered};
ghost use Rattle.iscsi_framer.specs.Framer.{HoldsNoMore};
ghost use Rattle.iscsi_connection.specs.Arriving.{frame_of, IsUntaken, MayServe};
ghost use Rattle.iscsi_connection.specs.Rooms.{LendsRoom};
ghost use Rattle.iscsi_world.specs.History.{arrivals};
ghost use Rattle.iscsi_world.specs.Machine.{LinkState, is_reading, is_logging_in, session_in_phase, free_link, opened_link, shut_link, begun_link, GivesFrame, IsAnswered, IsWithin, sent_link, is_settled, is_silent, most_waiting};
ghost use Rattle.iscsi_world.specs.declared.phase.Phase.TheVariants.{Login as UnderWay};

use crate::arriving::{Arriving, Taken};
use bytes::BytesMut;
use data_parts::SpareBuffers;
use iscsi_framer::FrameRoom;
use iscsi_login::{Directory, Login, Reply, SessionParams};
use iscsi_outbox::Outbox;
use iscsi_pdu::{Answer, Frame, Header, LoginResponse, MOST_DATA, Opcode, PduFault};
use iscsi_session::Session;
use iscsi_world::Phase;
use media_store::Store;
use scsi_unit::Units;
use std::alloc::{AllocError, Global};
use std::marker::Model;
use target_limits::Memory;

/// The room, in bytes, that an idle connection keeps for its answers.
pub const MOST_ROOM_KEPT: usize = 65_536;

/// The most bytes that may wait on a connection that is still read.
const MOST_WAITING: usize = 1_048_576;

/// A connection.
pub struct Connection {
    pub(crate) arriving: Arriving,
    pub(crate) phase: Phase,
    pub(crate) waiting: Outbox,
}

impl Model for Connection {
    ghost use Rattle.std.specs.Prelude.{[], if◌then◌else◌};
    ghost use Rattle.iscsi_world.specs.Machine.{LinkState, is_reading};

    ghost Value = { LinkState };

    ghost use Rattle.iscsi_connection.specs.Arriving.{CanPass};

    ghost view = { λ l. record { half = if is_reading l.phase then l.arriving.bytes else []; phase = l.phase; waiting = l.waiting.items } };

    ghost invariant = { λ l. CanPass l.phase l.arriving };
}

// Dropped by a call of its own, so that code that drops a connection does not take its bytes and phase apart.
impl Drop for Connection {
    fn drop(self) {
        let Connection {
            arriving: _arriving,
            phase: _phase,
            waiting: _waiting,
        } = self;
    }
}

// The drop of a session or a phase is long wherever it stands, so each stands in a function of its own.

/// Creates a session, with room for its requests.
fn reserved(alloc: Global, params: SessionParams) -> Result<Session, Memory>
    ensures { IfOk result (λ session. session ≡ remembered (begun_past params)) }
{
    let mut session = Session::new(alloc, params);
    session.reserve()?;
    Ok(session)
}

/// Joins the nexus of a session to its target's units. If an allocation fails, the units stay as they are.
fn joined<S: Store>(session: Session, units: &mut Units<S>) -> Result<Session, Memory>
    ensures same { IfOk result (λ joined. joined ≡ session) }
    ensures ok { OnOk result (units.new ≡ join_units session.params.nexus units.old) }
    ensures err { OnErr result (units.new ≡ units.old) }
{
    units.join(&session.params().nexus)?;
    Ok(session)
}

impl Connection {
    /// Returns a connection that is not open. Allocates nothing.
    pub fn free(alloc: Global) -> Connection
        ensures { result ≡ free_link }
    {
        Connection {
            arriving: Arriving::new(alloc),
            phase: Phase::Free,
            waiting: Outbox::new(alloc),
        }
    }

    /// Returns a connection that has just been opened. Allocates nothing.
    pub fn opened(alloc: Global, c: usize) -> Connection
        requires { c < 64 }
        ensures { result ≡ opened_link c }
    {
        Connection {
            arriving: Arriving::new(alloc),
            phase: Phase::Login(Login::new(alloc, c)),
            waiting: Outbox::new(alloc),
        }
    }

    /// Returns the connection's phase.
    #[inline]
    pub fn phase(&self) -> &Phase
        ensures { result.now ≡ self.now.phase }
    {
        &self.phase
    }

    /// Stops reading from the connection. What waits is still sent.
    pub fn shut(&mut self)
        ensures { self.new ≡ shut_link self.old }
    {
        self.phase.change(Phase::Closing);
    }

    /// Keeps a piece that ends before the PDU in front does, if no buffer has to be found for it. Returns whether it did: if
    /// not, nothing is changed.
    pub fn keep_part(&mut self, piece: &[u8]) -> bool
        requires { is_reading self.old.phase ≡ true }
        ensures kept { result ≡ true → self.new ≡ record self.old { half = self.old.half ++ piece.now } }
        ensures part { result ≡ true → arrivals (self.old.half ++ piece.now) ≡ [] }
        ensures other { result ≡ false → self.new ≡ self.old }
    {
        self.arriving.keep_part(piece)
    }

    /// Takes the PDU in front, in the buffer in which it came, if it is whole and no byte has come after it. Returns `None`, and
    /// changes nothing, if not, if it is only counted, or if its additional headers cannot be cut off as an allocation fails.
    pub fn take_alone(&mut self) -> Option<Frame>
        requires { is_reading self.old.phase ≡ true }
        ensures given { IfSome result (λ frame. GivesFrame frame self.old.half []) }
        ensures no_more { IfSome result (λ _. HoldsNoMore self.old.half) }
        ensures left { IfSome result (λ _. self.new ≡ record self.old { half = [] }) }
        ensures none { IfNone result (self.new ≡ self.old) }
    {
        self.arriving.take_alone()
    }

    /// Takes the next bytes of a piece, up to the end of the PDU in front, and that PDU if it is whole with them. If it is
    /// not, all of the piece is kept; of a half-read Data-Out that is only counted ([`Connection::forget`]), the number
    /// of bytes is. A fault changes nothing.
    pub fn take(
        &mut self,
        piece: &[u8],
        spares: &mut SpareBuffers,
    ) -> Result<Option<Taken>, PduFault>
        requires reads { is_reading self.old.phase ≡ true }
        requires no_more { HoldsNoMore self.old.half }
        ensures within { IfOk result (λ o. IfSome o (λ t. t.used ≤ length piece.now)) }
        ensures given { IfOk result (λ o. IfSome o (λ t. GivesFrame (frame_of t.arrived) (self.old.half ++ piece.now) (drop t.used piece.now))) }
        ensures left { IfOk result (λ o. IfSome o (λ _. self.new ≡ record self.old { half = [] })) }
        ensures serves { IfOk result (λ o. IfSome o (λ t. MayServe self.old.phase t.arrived)) }
        ensures kept { IfOk result (λ o. IfNone o (self.new ≡ record self.old { half = self.old.half ++ piece.now })) }
        ensures part { IfOk result (λ o. IfNone o (arrivals (self.old.half ++ piece.now) ≡ [])) }
        ensures too_long { IsErrOf result PduFault.TooLong ↔ (is_long (self.old.half ++ piece.now) ≡ true) }
        ensures err { OnErr result (self.new ≡ self.old) }
    {
        self.arriving.take(piece, spares)
    }

    /// Lends the buffer of a half-read PDU to a reader, who is to fill `room` bytes of it. Until it is taken back only the
    /// header is kept. Returns `None`, and changes nothing, if no buffer with this room is at hand, or the data is not
    /// needed.
    pub fn lend_room(&mut self, room: usize, spares: &mut SpareBuffers) -> Option<FrameRoom>
        requires { is_reading self.old.phase ≡ true }
        ensures lent { IfSome result (λ lent. LendsRoom lent room self.old self.new) }
        ensures none { IfNone result (self.new ≡ self.old) }
    {
        if !self.keeps_data() {
            return None;
        }
        self.arriving.lend_room(room, spares)
    }

    /// Takes back the buffer of a half-read PDU, of which the reader has filled `count` bytes.
    pub fn take_room(&mut self, lent: FrameRoom, count: usize)
        requires reads { is_reading self.old.phase ≡ true }
        requires header { length self.old.half ≡ header_length }
        requires within { lent.from + count ≤ length lent.buffer.items }
        ensures { self.new ≡ record self.old { half = self.old.half ++ take (lent.from + count) lent.buffer.items } }
    {
        self.arriving.take_room(lent, count);
    }

    /// Returns whether a PDU is half read whose data is to be kept.
    fn keeps_data(&self) -> bool {
        let Some(header) = self.arriving.header() else {
            return false;
        };
        if header.data_length() > MOST_DATA {
            return false;
        }
        header.opcode() != Opcode::DataOut || self.takes(&header)
    }

    /// Returns whether a command that is not finished takes a Data-Out with this header.
    pub(crate) fn takes(&self, header: &Header) -> bool
        requires { data_length header.now ≤ most_data }
        ensures { result ≡ false → IsUntaken self.now.phase (brought header.now (data_length header.now)) }
    {
        match &self.phase {
            Phase::FullFeature(session) => session.takes(header),
            Phase::Free | Phase::Login(_) | Phase::Closing => false,
        }
    }

    /// Returns whether a buffer is of use to take a piece: it may bring more of a PDU than its header.
    pub fn wants_buffer(&self, piece: &[u8]) -> bool {
        self.arriving.wants_buffer(piece)
    }

    /// Returns whether more is kept than one PDU.
    pub fn holds_more(&self) -> bool
        requires { is_reading self.now.phase ≡ true }
        ensures no { result ≡ false → HoldsNoMore self.now.half }
        ensures yes { result ≡ true → has_frame self.now.half ≡ true }
    {
        self.arriving.holds_more()
    }

    /// Takes all bytes that are kept, and those of a piece after them.
    pub fn take_all(&mut self, piece: &[u8]) -> Result<Vec<u8>, PduFault>
        requires reads { is_reading self.old.phase ≡ true }
        requires whole { has_frame self.old.half ≡ true }
        ensures bytes { IfOk result (λ bytes. bytes.items ≡ self.old.half ++ piece.now) }
        ensures none { OnOk result (self.new ≡ record self.old { half = [] }) }
        ensures err { OnErr result (self.new ≡ self.old) }
    {
        self.arriving.take_all(piece)
    }

    /// Queues an answer. If an allocation fails, nothing changes.
    fn send(&mut self, answer: &Answer) -> Result<(), Memory>
        ensures ok { OnOk result (self.new ≡ record self.old { waiting = self.old.waiting ++ spelling answer.now }) }
        ensures err { OnErr result (self.new ≡ self.old) }
    {
        self.waiting.reserve(answer.length())?;
        self.waiting.put(answer);
        Ok(())
    }

    /// Queues a Login response. If an allocation fails, nothing changes.
    fn reply(&mut self, response: LoginResponse) -> Result<(), Memory>
        ensures ok { OnOk result (self.new ≡ record self.old { waiting = self.old.waiting ++ spelling (answers.LoginResponse response) }) }
        ensures err { OnErr result (self.new ≡ self.old) }
    {
        self.send(&Answer::LoginResponse(response))
    }

    /// Takes a Login request, if a login is in progress, and queues its answer. The answer that begins full feature
    /// phase is not queued: it is returned with the parameters of its session.
    pub fn log_in(
        &mut self,
        request: &Frame,
        directory: &Directory,
        named: &Option<SessionParams>,
    ) -> Result<Option<(LoginResponse, SessionParams)>, Memory>
        requires { is_logging_in self.old.phase ≡ true }
        ensures answered { IfOk result (λ begun. (login : LoginState) → self.old.phase ≡ UnderWay login
            → IsAnswered (reply_of login (lookup_in directory.now named.now) request.now)
            (advanced directory.now login request.now) self.old begun self.new) }
        ensures target { IsWithin (length directory.now.names) self.old.phase → IsWithin (length directory.now.names) self.new.phase }
        ensures begun { IfOk result (λ begun. IfSome begun (λ b. IsWithin (length directory.now.names) self.old.phase → IsTargetBelow
            (length directory.now.names) b.1.target)) }
        ensures values { IfOk result (λ begun. IfSome begun (λ b. IsWithin (length directory.now.names) self.old.phase → AreInRange b.1.values)) }
        ensures waiting { OnErr result (self.new.waiting ≡ self.old.waiting) }
        ensures session { OnErr result (session_in_phase self.new.phase ≡ None) }
    {
        let Phase::Login(login) = &mut self.phase else {
            return Ok(None);
        };
        match login.take(request, directory, named)? {
            Reply::GoOn(response) => {
                self.reply(response)?;
                Ok(None)
            }
            Reply::Refused(response) => {
                self.reply(response)?;
                self.phase.change(Phase::Closing);
                Ok(None)
            }
            Reply::Full(response, session) => Ok(Some((response, session))),
        }
    }

    /// Queues this answer, with which full feature phase begins, and joins the nexus to its target's units. If an
    /// allocation fails, nothing changes.
    pub fn begin<S: Store>(
        &mut self,
        alloc: Global,
        session: SessionParams,
        answer: &Answer,
        units: &mut Units<S>,
    ) -> Result<(), Memory>
        requires { is_reading self.old.phase ≡ true }
        ensures ok { OnOk result (self.new ≡ begun_link session answer.now self.old) }
        ensures units { OnOk result (units.new ≡ join_units session.nexus units.old) }
        ensures err { OnErr result (self.new ≡ self.old) }
        ensures units_err { OnErr result (units.new ≡ units.old) }
    {
        self.waiting.reserve(answer.length())?;
        let begun = joined(reserved(alloc, session)?, units)?;
        self.waiting.put(answer);
        self.phase.change(Phase::FullFeature(begun));
        Ok(())
    }

    /// Queues this answer, with which full feature phase of a discovery session begins; it joins no units. If an
    /// allocation fails, nothing changes.
    pub fn begin_discovery(
        &mut self,
        alloc: Global,
        session: SessionParams,
        answer: &Answer,
    ) -> Result<(), Memory>
        requires { is_reading self.old.phase ≡ true }
        ensures ok { OnOk result (self.new ≡ begun_link session answer.now self.old) }
        ensures err { OnErr result (self.new ≡ self.old) }
    {
        self.waiting.reserve(answer.length())?;
        let begun = reserved(alloc, session)?;
        self.waiting.put(answer);
        self.phase.change(Phase::FullFeature(begun));
        Ok(())
    }

    /// Returns the next bytes to be sent, as many as are contiguous. They end where a PDU does.
    #[tactic(auto, using(iscsi_world::proofs::Sent::front_within))]
    pub fn out(&self) -> &[u8]
        ensures front { result.now ≡ take (length result.now) self.now.waiting }
        ensures some { 0 < length self.now.waiting → 0 < length result.now }
        ensures within { length result.now ≤ length self.now.waiting }
        ensures ends { EndsPdu self.now.waiting result.now }
    {
        self.waiting.front()
    }

    /// Appends all bytes that wait to be sent.
    pub fn copy_to(&self, bytes: &mut Vec<u8>) -> Result<(), AllocError>
        ensures { OnOk result (bytes.new.items ≡ bytes.old.items ++ self.now.waiting) }
    {
        self.waiting.copy_to(bytes)
    }

    /// Removes up to `n` sent bytes from the front, as many as were contiguous. Returns their number, and the buffer
    /// of a command's data if all of it was sent.
    pub fn skip_front(&mut self, n: usize) -> (usize, Option<BytesMut>)
        ensures within { result.0 ≤ n }
        ensures some { 0 < n → n ≤ length self.old.waiting → 0 < result.0 }
        ensures sent { self.new ≡ sent_link self.old result.0 }
    {
        self.waiting.skip_front(n)
    }

    /// Returns room of more than `most` bytes for answers to the system if nothing waits.
    pub(crate) fn trim(&mut self, alloc: Global, most: usize)
        ensures { self.new ≡ self.old }
    {
        self.waiting.trim(alloc, most);
    }

    /// Returns whether nothing waits to be sent, and no request of the session is unfinished.
    pub fn is_quiet(&self) -> bool
        ensures { result ≡ true → length self.now.waiting ≡ 0 }
    {
        let is_idle = match &self.phase {
            Phase::FullFeature(session) => session.is_idle(),
            _ => true,
        };
        is_idle && self.waiting.is_empty()
    }

    /// Returns whether more than 1,048,576 bytes wait, so that the connection is not to be read.
    pub fn is_full(&self) -> bool
        ensures { result ≡ nat_lt most_waiting (length self.now.waiting) }
    {
        self.waiting.is_longer_than(MOST_WAITING)
    }

    /// Returns whether no command of the session can be done; true as well without a session.
    pub(crate) fn is_settled(&self) -> bool
        ensures { result ≡ is_settled self.now.phase }
    {
        match &self.phase {
            Phase::FullFeature(session) => session.is_settled(),
            _ => true,
        }
    }

    /// Returns whether nothing waits to be sent and the connection is not closing.
    pub(crate) fn is_silent(&self) -> bool
        ensures { result ≡ is_silent self.now }
    {
        self.waiting.is_empty() && !self.phase.is_closing()
    }

    /// Returns how many bytes are missing of the next header, or of its frame.
    pub fn want(&self) -> usize
        requires { is_reading self.now.phase ≡ true }
        ensures { result ≡ wanted self.now.half }
    {
        self.arriving.want()
    }
}
