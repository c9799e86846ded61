//! Executing the requests that are taken: on the pages, they act. A SCSI Command only joins the queue here, and
//! [`Session::settle`] does it.

ghost use Rattle.std.specs.Prelude.{◌≡◌, ◌≤◌, ◌<◌, ◌++◌, ◌∷◌, ℕ, List, [], None, Some, length, flat_map, true, false, if◌then◌else◌, IfOk, OnErr};
ghost use Rattle.scsi_unit.specs.Units.{numbers_of};
ghost use Rattle.iscsi_session.specs.Comings.{TargetUnits};
ghost use Rattle.iscsi_pdu.specs.Answer.{spelling};
ghost use Rattle.iscsi_pdu.specs.Frames as pdu;
ghost use Rattle.iscsi_requests.specs.Requests.{Past, is_command, is_function as is_function_in, frame_of, due, stamp, answering};
ghost use Rattle.iscsi_session.specs.Acts.{closes, logout_answer, ping_answers};
ghost use Rattle.iscsi_session.specs.Room.{room_to_act};
ghost use Rattle.iscsi_requests.specs.State.{Stands, standing, waiting};
ghost use Rattle.iscsi_session.specs.Steps.{Taking, act_all};
ghost use Rattle.iscsi_session.specs.Runs.{Runs, ActsAs, ActsFirst, output};
ghost use Rattle.iscsi_requests.specs.Texts.{is_text as is_text_in};

use crate::act::Act;
use crate::rejecting::rejected;
use crate::session::Session;
use crate::task_management::is_function;
use crate::texts::is_text;
use iscsi_outbox::Outbox;
use iscsi_pdu::{
    Answer, Frame, Header, LogoutResponse, LogoutResult, MOST_DATA, NopIn, Opcode, RESERVED_TAG,
    RejectReason, Stamp,
};
use iscsi_requests::is_command;
use target_limits::Memory;

/// The most bytes that the answer to a NOP-Out or a Logout takes, not counting the ping data.
const ROOM_TO_ACT: usize = 99;

impl Session {
    /// Executes the requests that are due, one after the other, until there is none or one ends the session. Returns
    /// whether the session continues. If an allocation fails, the requests before it have been executed.
    pub(crate) fn act_all(
        &mut self,
        luns: &[u8],
        out: &mut Outbox,
        orders: &mut Vec<Header>,
    ) -> Result<bool, Memory>
        ensures ok { IfOk result (λ goes_on. (units : TargetUnits) → luns.now ≡ numbers_of units.states → Runs act_all None goes_on self.old self.new
            (output out.old.items orders.old.items) (output out.new.items orders.new.items) units units) }
        ensures err { OnErr result ((turn : ℕ) × ((units : TargetUnits) → luns.now ≡ numbers_of units.states
            → Runs act_all (Some (λ place. Taking place turn)) false self.old self.new
            (output out.old.items orders.old.items) (output out.new.items orders.new.items) units units)) }
        ensures idle { IfOk result (λ goes_on. goes_on ≡ true → self.new.tasks.due ≡ []) }
        ensures grows { (more : List ℕ) × (out.new.items ≡ out.old.items ++ more) }
        ensures params { self.new.params ≡ self.old.params }
    {
        loop {
            match self.act(luns, out, orders)? {
                Act::Idle => return Ok(true),
                Act::Taken => {}
                Act::Ended => return Ok(false),
            }
        }
    }

    /// Executes the next request that was taken. A SCSI Command joins the queue, and every other request is answered at
    /// the end of `out`. The header of a Task Management Function Request is appended to `orders`. If an allocation
    /// fails, nothing changes.
    fn act(
        &mut self,
        luns: &[u8],
        out: &mut Outbox,
        orders: &mut Vec<Header>,
    ) -> Result<Act, Memory>
        ensures acts { IfOk result (λ a. (past : Past) → Stands past self.old → ActsFirst luns.now (due past) past a self.old self.new
            (output out.old.items orders.old.items) (output out.new.items orders.new.items)) }
        ensures grows { (more : List ℕ) × (out.new.items ≡ out.old.items ++ more) }
        ensures fewer { IfOk result (λ a. a ≡ Act.Taken → waiting self.new.tasks < waiting self.old.tasks) }
        ensures idle { IfOk result (λ a. a ≡ Act.Idle → self.new.tasks.due ≡ []) }
        ensures params { self.new.params ≡ self.old.params }
        ensures due { OnErr result (0 < length self.old.tasks.due) }
        ensures err { OnErr result (self.new ≡ self.old) }
        ensures out_err { OnErr result (out.new.items ≡ out.old.items) }
        ensures orders_err { OnErr result (orders.new.items ≡ orders.old.items) }
    {
        match self.tasks.due() {
            None => Ok(Act::Idle),
            Some(frame) if is_command(frame) => {
                self.tasks.queue_due()?;
                Ok(Act::Taken)
            }
            Some(frame) if is_text(frame) => self.answer_text(out),
            Some(frame) if is_function(frame) => self.answer_function(luns, out, orders),
            Some(frame) => {
                out.reserve(frame.body.len() + ROOM_TO_ACT)?;
                Ok(self.answer(out))
            }
        }
    }

    /// Finishes the first request that is due: a NOP-Out, a Logout, or one that was removed. Answers the first two.
    /// There must be room for the answer, so no memory is allocated.
    fn answer(&mut self, out: &mut Outbox) -> Act
        requires { (frame : pdu.Frame) (others : List pdu.Frame) → self.old.tasks.due ≡ frame ∷ others → room_to_act frame ≤ out.old.spare }
        ensures acts { (luns : List ℕ) (past : Past) (k : ℕ) (others : List ℕ) → Stands past self.old → due past ≡ k ∷ others
            → is_command (frame_of (standing past) k) ≡ false → is_text_in (frame_of past.came k) ≡ false → is_function_in (frame_of past.came k) ≡ false
            → (orders : List (List ℕ)) → ActsAs luns k past result self.new (output out.old.items orders) (output out.new.items orders) }
        ensures grows { (more : List ℕ) × (out.new.items ≡ out.old.items ++ more) }
        ensures fewer { result ≡ Act.Taken → waiting self.new.tasks < waiting self.old.tasks }
        ensures idle { result ≡ Act.Idle → self.new.tasks.due ≡ [] }
        ensures params { self.new.params ≡ self.old.params }
    {
        let Some(frame) = self.tasks.finish_due() else {
            return Act::Idle;
        };
        match frame.header.opcode() {
            Opcode::NopOut => {
                self.return_ping(&frame, out);
                Act::Taken
            }
            Opcode::Logout => self.log_out(&frame, out),
            // Only the first three of these are accepted, and they are requests of another kind.
            Opcode::ScsiCommand
            | Opcode::TaskManagement
            | Opcode::Text
            | Opcode::Login
            | Opcode::DataOut
            | Opcode::Snack
            | Opcode::Other(_) => Act::Taken,
        }
    }

    /// Sends the ping data of a NOP-Out back in a NOP-In (RFC 7143 §11.19), if the NOP-Out asks for an answer.
    fn return_ping(&mut self, frame: &Frame, out: &mut Outbox)
        requires { room_to_act frame.now ≤ out.old.spare }
        ensures stands { (past : Past) → Stands past self.old → Stands (answering (ping_answers (stamp past) past.params.values frame.now) past) self.new }
        ensures out { (past : Past) → Stands past self.old
            → out.new.items ≡ out.old.items ++ flat_map spelling (ping_answers (stamp past) past.params.values frame.now) }
        ensures grows { (more : List ℕ) × (out.new.items ≡ out.old.items ++ more) }
        ensures tasks { self.new.tasks ≡ self.old.tasks }
        ensures params { self.new.params ≡ self.old.params }
    {
        let header = &frame.header;
        if header.initiator_task_tag() == RESERVED_TAG {
            return;
        }
        let segment = self.params.values.max_recv_data_segment_length as usize;
        let length = frame.body.len().min(segment).min(MOST_DATA);
        let answer = Answer::NopIn(NopIn {
            initiator_task_tag: header.initiator_task_tag(),
            stamp: self.next_stamp(),
            body: &frame.body[..length],
        });
        out.put(&answer);
    }

    /// Returns whether this Logout closes the session, or its one connection by its CID (RFC 7143 §11.14.1).
    fn closes(&self, header: &Header) -> bool
        ensures { (frame : pdu.Frame) → frame.header ≡ header.now → result ≡ closes self.now.params frame }
    {
        match header.logout_reason() {
            0 => true,
            1 => header.connection_id() == self.params.connection_id,
            _ => false,
        }
    }

    /// Answers a Logout (RFC 7143 §11.15), and returns whether the session ends.
    fn log_out(&mut self, frame: &Frame, out: &mut Outbox) -> Act
        requires { room_to_act frame.now ≤ out.old.spare }
        ensures act { result ≡ (if closes self.old.params frame.now then Act.Ended else Act.Taken) }
        ensures stands { (past : Past) → Stands past self.old → Stands (answering (logout_answer (stamp past) past.params frame.now ∷ []) past) self.new }
        ensures out { (past : Past) → Stands past self.old → out.new.items ≡ out.old.items ++ spelling (logout_answer (stamp past) past.params frame.now) }
        ensures grows { (more : List ℕ) × (out.new.items ≡ out.old.items ++ more) }
        ensures tasks { self.new.tasks ≡ self.old.tasks }
        ensures params { self.new.params ≡ self.old.params }
    {
        let stamp = self.next_stamp();
        out.put(&self.logout_answer(stamp, frame));
        self.act_of(&frame.header)
    }

    /// Returns whether the session ends with this Logout.
    fn act_of(&self, header: &Header) -> Act
        ensures { (frame : pdu.Frame) → frame.header ≡ header.now → result ≡ (if closes self.now.params frame then Act.Ended else Act.Taken) }
    {
        if self.closes(header) {
            Act::Ended
        } else {
            Act::Taken
        }
    }

    /// Returns the answer to a Logout (RFC 7143 §11.15): a Logout Response, or a Reject if its reason code is reserved.
    fn logout_answer(&self, stamp: Stamp, frame: &Frame) -> Answer<'static>
        ensures value { result ≡ logout_answer stamp self.now.params frame.now }
        ensures short { length (spelling result) ≤ 96 }
    {
        let header = &frame.header;
        let reason = header.logout_reason();
        let response = if self.closes(header) {
            LogoutResult::Closed
        } else if reason == 1 {
            LogoutResult::CidNotFound
        } else if reason == 2 {
            LogoutResult::NoRecovery
        } else {
            return rejected(RejectReason::InvalidField, stamp, frame.header);
        };
        Answer::LogoutResponse(LogoutResponse {
            initiator_task_tag: header.initiator_task_tag(),
            stamp,
            response,
        })
    }
}
