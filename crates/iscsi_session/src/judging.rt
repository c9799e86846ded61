//! Judging a frame.

ghost use Rattle.std.specs.Prelude.{◌≡◌, ◌≢◌, ◌≤◌, ◌||◌, is_some, ◌++◌, ◌∷◌, ℕ, List, [], true, false, flat_map, IfOk, OnOk, OnErr};
ghost use Rattle.iscsi_pdu.specs.Answer.{spelling};
ghost use Rattle.iscsi_pdu.specs.Frames as pdu;
ghost use Rattle.iscsi_pdu.specs.Header.{data_length, initiator_task_tag, opcode_number};
ghost use Rattle.iscsi_pdu.specs.Segment.{most_data};
ghost use Rattle.iscsi_login.specs.Values.{AreInRange};
ghost use Rattle.iscsi_transfer.specs.Counted.{brought};
ghost use Rattle.iscsi_requests.specs.Requests.{Past, is_command as is_command_in, is_function as is_function_in, accepted, answering, stamp};
ghost use Rattle.iscsi_requests.specs.Transfers.{command_with, fed};
ghost use Rattle.iscsi_requests.specs.Judging.{verdict, request_verdict, is_refused, is_fresh, is_full, is_live, is_over, is_taken, is_faulty, task_verdict, judged, judged_answers, reject};
ghost use Rattle.iscsi_requests.specs.Draining.{judged_in, is_live_in};
ghost use Rattle.iscsi_requests.specs.Unread.{IsUnread, takes_in};
ghost use Rattle.iscsi_requests.specs.State.{Stands, is_vacant_for, function_place, IsAcceptable, IsLawfulTask};

use crate::rejecting::rejected;
use crate::session::Session;
use crate::task_management::is_function;
use iscsi_outbox::Outbox;
use iscsi_pdu::{Frame, Header, Opcode, RESERVED_TAG, RejectReason};
use iscsi_requests::{Verdict, is_command};
use iscsi_transfer::command_fault;
use target_limits::Memory;

/// How many SCSI Commands and Task Management Function Requests for immediate delivery may be unfinished.
const MOST_IMMEDIATE: usize = 8;

/// The length of a Reject, in bytes.
const LONGEST_REJECT: usize = 96;

impl Session {
    /// Checks a frame: its opcode, its number, the limit of commands for immediate delivery, its tag and its data, in
    /// this order. Keeps an accepted request until it is executed, and answers a rejected frame at the end of `out`. If
    /// an allocation fails, nothing changes.
    pub(crate) fn receive(&mut self, frame: Frame, out: &mut Outbox) -> Result<Verdict, Memory>
        requires { AreInRange self.old.params.values }
        ensures verdict { IfOk result (λ v. (past : Past) → Stands past self.old → v ≡ verdict past frame) }
        ensures stands { OnOk result ((past : Past) → Stands past self.old → Stands (judged (verdict past frame) frame past) self.new) }
        ensures out { OnOk result ((past : Past) → Stands past self.old
            → out.new.items ≡ out.old.items ++ flat_map spelling (judged_answers (verdict past frame) past frame)) }
        ensures grows { (more : List ℕ) × (out.new.items ≡ out.old.items ++ more) }
        ensures params { self.new.params ≡ self.old.params }
        ensures err { OnErr result (self.new ≡ self.old) }
        ensures out_err { OnErr result (out.new.items ≡ out.old.items) }
    {
        let verdict = self.judge(&frame);
        match verdict {
            Verdict::Accepted => self.accept(frame)?,
            Verdict::Feeding => self.take_data_out(frame)?,
            Verdict::Rejected(reason) => self.reject(reason, frame.header, out)?,
            Verdict::Ignored | Verdict::Dropped | Verdict::Violating => {}
        }
        Ok(verdict)
    }

    /// Checks a Data-Out with this header, of which only the header was kept: its data is that of no command that is not
    /// finished. Counts its data if that is drained, and answers a rejected Data-Out at the end of `out`. If an
    /// allocation fails, nothing changes.
    pub(crate) fn receive_unread(
        &mut self,
        header: &Header,
        out: &mut Outbox,
    ) -> Result<Verdict, Memory>
        requires out { opcode_number header.now ≡ 0x05 }
        requires short { data_length header.now ≤ most_data }
        requires untaken { takes_in self.old.transfers (brought header.now (data_length header.now)) ≡ false }
        ensures verdict { IfOk result (λ v. (frame : pdu.Frame) → IsUnread self.old.transfers header.now frame
            → (past : Past) → Stands past self.old → v ≡ verdict past frame) }
        ensures stands { OnOk result ((frame : pdu.Frame) → IsUnread self.old.transfers header.now frame
            → (past : Past) → Stands past self.old → Stands (judged (verdict past frame) frame past) self.new) }
        ensures out { OnOk result ((frame : pdu.Frame) → IsUnread self.old.transfers header.now frame → (past : Past) → Stands past self.old
            → out.new.items ≡ out.old.items ++ flat_map spelling (judged_answers (verdict past frame) past frame)) }
        ensures grows { (more : List ℕ) × (out.new.items ≡ out.old.items ++ more) }
        ensures params { self.new.params ≡ self.old.params }
        ensures err { OnErr result (self.new ≡ self.old) }
        ensures out_err { OnErr result (out.new.items ≡ out.old.items) }
    {
        let verdict = self.judge_unread(header);
        match verdict {
            Verdict::Feeding => self.count_drained(header),
            Verdict::Rejected(reason) => self.reject(reason, *header, out)?,
            Verdict::Accepted | Verdict::Ignored | Verdict::Dropped | Verdict::Violating => {}
        }
        Ok(verdict)
    }

    /// Returns the verdict on a frame. In a discovery session most frames are refused.
    fn judge(&self, frame: &Frame) -> Verdict
        ensures verdict { (past : Past) → Stands past self.now → result ≡ verdict past frame.now }
        ensures vacant { result ≡ Verdict.Accepted → is_vacant_for self.now.tasks frame.now ≡ true }
        ensures acceptable { result ≡ Verdict.Accepted → IsAcceptable self.now frame.now }
        ensures lawful { result ≡ Verdict.Feeding
            → judged_in self.now.transfers frame.now ≡ Verdict.Feeding }
    {
        if self.is_refused(&frame.header) {
            return Verdict::Rejected(RejectReason::CommandNotSupported);
        }
        self.judge_request(frame)
    }

    /// Returns the verdict on a Data-Out with this header, whose data no command that is not finished takes.
    fn judge_unread(&self, header: &Header) -> Verdict
        requires { data_length header.now ≤ most_data }
        ensures verdict { (frame : pdu.Frame) → IsUnread self.now.transfers header.now frame
            → (past : Past) → Stands past self.now → result ≡ verdict past frame }
        ensures lawful { result ≡ Verdict.Feeding → (frame : pdu.Frame) → IsUnread self.now.transfers header.now frame
            → judged_in self.now.transfers frame ≡ Verdict.Feeding }
    {
        if self.is_refused(header) {
            return Verdict::Rejected(RejectReason::CommandNotSupported);
        }
        self.transfers.judge_unread(header)
    }

    /// Returns whether the session is a discovery session, and does not serve a frame with this header.
    #[tactic(auto, unfolding(iscsi_requests::specs::Judging::is_refused))]
    fn is_refused(&self, header: &Header) -> bool
        ensures { (frame : pdu.Frame) → frame.header ≡ header.now → result ≡ is_refused self.now.params frame }
    {
        if self.params.target.is_some() {
            return false;
        }
        match header.opcode() {
            Opcode::ScsiCommand | Opcode::TaskManagement | Opcode::NopOut | Opcode::DataOut => true,
            Opcode::Logout => header.logout_reason() != 0,
            Opcode::Login | Opcode::Text | Opcode::Snack | Opcode::Other(_) => false,
        }
    }

    /// Returns the verdict on a frame that the session serves.
    #[tactic(auto, using(crate::proofs::Verdicts::verdict_at), unfolding(iscsi_requests::specs::Judging::verdict_by))]
    fn judge_request(&self, frame: &Frame) -> Verdict
        ensures verdict { (past : Past) → Stands past self.now → result ≡ request_verdict past frame.now }
        ensures vacant { result ≡ Verdict.Accepted → is_vacant_for self.now.tasks frame.now ≡ true }
        ensures acceptable { result ≡ Verdict.Accepted → IsAcceptable self.now frame.now }
        ensures lawful { result ≡ Verdict.Feeding
            → judged_in self.now.transfers frame.now ≡ Verdict.Feeding }
    {
        let header = &frame.header;
        match header.opcode() {
            Opcode::ScsiCommand | Opcode::TaskManagement => self.judge_task(frame),
            Opcode::NopOut | Opcode::Text | Opcode::Logout => {
                if self.is_fresh(frame) {
                    return Verdict::Accepted;
                }
                Verdict::Ignored
            }
            Opcode::Login => Verdict::Violating,
            Opcode::DataOut => self.transfers.judge(frame),
            Opcode::Snack => Verdict::Rejected(RejectReason::Snack),
            Opcode::Other(_) => Verdict::Rejected(RejectReason::CommandNotSupported),
        }
    }

    /// Returns whether a request is for immediate delivery, and so has no number, or has a new number.
    fn is_fresh(&self, frame: &Frame) -> bool
        ensures fresh { (past : Past) → Stands past self.now → result ≡ is_fresh past frame.now }
        ensures vacant { result ≡ is_vacant_for self.now.tasks frame.now }
    {
        frame.header.is_immediate() || self.tasks.is_new(frame.header.cmd_sn())
    }

    /// Returns the verdict on a SCSI Command or a Task Management Function Request.
    fn judge_task(&self, frame: &Frame) -> Verdict
        ensures verdict { (past : Past) → Stands past self.now → result ≡ task_verdict past frame.now }
        ensures vacant { result ≡ Verdict.Accepted → is_vacant_for self.now.tasks frame.now ≡ true }
        ensures acceptable { result ≡ Verdict.Accepted → IsLawfulTask self.now frame.now }
        ensures no_data { result ≢ Verdict.Feeding }
    {
        if !self.is_fresh(frame) {
            return Verdict::Ignored;
        }
        if self.is_over(frame) {
            return Verdict::Rejected(RejectReason::TooManyImmediate);
        }
        if self.is_taken(frame) {
            return Verdict::Violating;
        }
        if self.is_faulty(frame) {
            return Verdict::Violating;
        }
        Verdict::Accepted
    }

    /// Returns whether a frame is for immediate delivery, and too many SCSI Commands and Task Management Function
    /// Requests for immediate delivery are unfinished.
    fn is_over(&self, frame: &Frame) -> bool
        ensures { (past : Past) → Stands past self.now → result ≡ is_over past frame.now }
    {
        frame.header.is_immediate() && self.is_full()
    }

    /// Returns whether a frame has the reserved tag, or a live one.
    fn is_taken(&self, frame: &Frame) -> bool
        ensures taken { (past : Past) → Stands past self.now → result ≡ is_taken past frame.now }
        ensures places { result ≡ false → (is_live_in (initiator_task_tag frame.now.header) self.now.transfers
            || is_some (function_place (initiator_task_tag frame.now.header) self.now.functions)) ≡ false }
    {
        let tag = frame.header.initiator_task_tag();
        tag == RESERVED_TAG || self.is_live(tag)
    }

    /// Returns whether a frame is a SCSI Command that brings data which is not as agreed.
    fn is_faulty(&self, frame: &Frame) -> bool
        ensures { result ≡ is_faulty self.now.params.values frame.now }
    {
        is_command(frame) && command_fault(frame, &self.params.values).is_some()
    }

    /// Returns whether as many SCSI Commands and Task Management Function Requests for immediate delivery are
    /// unfinished as may be.
    fn is_full(&self) -> bool
        ensures { (past : Past) → Stands past self.now → result ≡ is_full past }
    {
        self.transfers
            .immediate()
            .saturating_add(self.functions.immediate())
            >= MOST_IMMEDIATE
    }

    /// Returns whether a SCSI Command or a Task Management Function Request with this tag is not finished, or data with
    /// this tag is drained.
    fn is_live(&self, tag: u32) -> bool
        ensures live { (past : Past) → Stands past self.now → result ≡ is_live past tag }
        ensures places { result ≡ (is_live_in tag self.now.transfers || is_some (function_place tag self.now.functions)) }
    {
        self.transfers.is_live(tag) || self.functions.is_live(tag)
    }

    /// Keeps an accepted request until it is executed. If an allocation fails, nothing changes.
    fn accept(&mut self, frame: Frame) -> Result<(), Memory>
        requires values { AreInRange self.old.params.values }
        requires vacant { is_vacant_for self.old.tasks frame ≡ true }
        requires acceptable { IsAcceptable self.old frame }
        ensures stands { OnOk result ((past : Past) → Stands past self.old → Stands (accepted frame past) self.new) }
        ensures params { self.new.params ≡ self.old.params }
        ensures err { OnErr result (self.new ≡ self.old) }
    {
        if is_command(&frame) {
            return self.accept_command(frame);
        }
        if is_function(&frame) {
            return self.accept_function(frame);
        }
        self.tasks.keep(frame)
    }

    /// Keeps a SCSI Command, and beside it the data that it brings. If an allocation fails, nothing changes.
    fn accept_command(&mut self, frame: Frame) -> Result<(), Memory>
        requires values { AreInRange self.old.params.values }
        requires command { is_command_in frame ≡ true }
        requires vacant { is_vacant_for self.old.tasks frame ≡ true }
        requires lawful { IsLawfulTask self.old frame }
        ensures stands { OnOk result ((past : Past) → Stands past self.old → Stands (accepted frame past) self.new) }
        ensures params { self.new.params ≡ self.old.params }
        ensures err { OnErr result (self.new ≡ self.old) }
    {
        let header = frame.header;
        self.transfers.begin(frame, &self.params.values)?;
        if self.tasks.keep_command(header).is_err() {
            self.transfers.forget_last();
            return Err(Memory);
        }
        Ok(())
    }

    /// Keeps a Task Management Function Request. If an allocation fails, nothing changes.
    fn accept_function(&mut self, frame: Frame) -> Result<(), Memory>
        requires function { is_function_in frame ≡ true }
        requires vacant { is_vacant_for self.old.tasks frame ≡ true }
        requires lawful { IsLawfulTask self.old frame }
        ensures stands { OnOk result ((past : Past) → Stands past self.old → Stands (accepted frame past) self.new) }
        ensures params { self.new.params ≡ self.old.params }
        ensures err { OnErr result (self.new ≡ self.old) }
    {
        self.functions.begin(frame.header)?;
        if self.tasks.keep(frame).is_err() {
            self.functions.forget_last();
            return Err(Memory);
        }
        Ok(())
    }

    /// Accepts the data of a Data-Out that has no fault. If an allocation fails, nothing changes.
    fn take_data_out(&mut self, frame: Frame) -> Result<(), Memory>
        requires { judged_in self.old.transfers frame ≡ Verdict.Feeding }
        ensures stands { OnOk result ((past : Past) → Stands past self.old
            → Stands (fed (command_with past (initiator_task_tag frame.header)) frame past) self.new) }
        ensures params { self.new.params ≡ self.old.params }
        ensures err { OnErr result (self.new ≡ self.old) }
    {
        self.transfers.take_data_out(frame)
    }

    /// Counts the data of a Data-Out with this header, of which only the header was kept. It has no fault, and its data is
    /// drained.
    fn count_drained(&mut self, header: &Header)
        requires out { opcode_number header.now ≡ 0x05 }
        requires untaken { takes_in self.old.transfers (brought header.now (data_length header.now)) ≡ false }
        requires lawful { (frame : pdu.Frame) → IsUnread self.old.transfers header.now frame → judged_in self.old.transfers frame ≡ Verdict.Feeding }
        ensures stands { (frame : pdu.Frame) → IsUnread self.old.transfers header.now frame → (past : Past) → Stands past self.old
            → Stands (fed (command_with past (initiator_task_tag frame.header)) frame past) self.new }
        ensures params { self.new.params ≡ self.old.params }
    {
        self.transfers.count_drained(header);
    }

    /// Answers a frame with a Reject. If an allocation fails, nothing changes.
    fn reject(
        &mut self,
        reason: RejectReason,
        header: Header,
        out: &mut Outbox,
    ) -> Result<(), Memory>
        ensures stands { OnOk result ((past : Past) (frame : pdu.Frame) → Stands past self.old → frame.header ≡ header
            → Stands (answering (reject reason (stamp past) frame ∷ []) past) self.new) }
        ensures out { OnOk result ((past : Past) (frame : pdu.Frame) → Stands past self.old → frame.header ≡ header
            → out.new.items ≡ out.old.items ++ spelling (reject reason (stamp past) frame)) }
        ensures grows { (more : List ℕ) × (out.new.items ≡ out.old.items ++ more) }
        ensures params { self.new.params ≡ self.old.params }
        ensures err { OnErr result (self.new ≡ self.old) }
        ensures out_err { OnErr result (out.new.items ≡ out.old.items) }
    {
        out.reserve(LONGEST_REJECT)?;
        let stamp = self.next_stamp();
        out.put(&rejected(reason, stamp, header));
        Ok(())
    }
}
