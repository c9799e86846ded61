//! The R2Ts that ask for the data of a session's SCSI Commands.

ghost use Rattle.std.specs.Prelude.{◌≡◌, ◌<◌, ◌≤◌, ◌+◌, ◌*◌, ◌%◌, ◌++◌, ◌∷◌, [], Some, length, flat_map, IfSome};
ghost use Rattle.iscsi_pdu.specs.Answer.{spelling};
ghost use Rattle.iscsi_pdu.specs.declared.answer.Answer.{Answer as AnyAnswer};
ghost use Rattle.iscsi_transfer.specs.WriteData.{due_asks, first};
ghost use Rattle.iscsi_requests.specs.Transfers.{r2t_for, r2t_answers};
ghost use Rattle.iscsi_requests.specs.State.{transfer_at, asking_place, r2ts_at, sent_at};

use crate::transfers::Transfers;
use iscsi_outbox::Outbox;
use iscsi_pdu::{Answer, HEADER_LENGTH, Header, R2t, RESERVED_TAG, Stamp};
use iscsi_transfer::{Ask, MOST_OPEN};

/// The most bytes that the due R2Ts of one command take.
pub const ROOM_TO_ASK: usize = MOST_OPEN * HEADER_LENGTH;

impl Transfers {
    /// Returns the place of the first command that is to be asked for data.
    pub fn asking(&self) -> Option<usize>
        ensures place { result ≡ asking_place self.now.list }
        ensures there { IfSome result (λ place. place < length self.now.list) }
    {
        self.list
            .iter()
            .position(|transfer| transfer.task.due().is_some())
    }

    /// Sends the due R2Ts of the command at this place, with these sequence numbers. They are appended to `out`, one
    /// after the other.
    pub fn ask(&mut self, place: usize, stamp: Stamp, out: &mut Outbox)
        requires there { place < length self.old.list }
        requires room { ROOM_TO_ASK ≤ out.old.spare }
        ensures written { out.new.items ≡ out.old.items ++ flat_map spelling (r2t_answers (r2ts_at self.old stamp place)) }
        ensures sent { self.new ≡ sent_at place (r2ts_at self.old stamp place) self.old }
    {
        let mut due = self.due_at(place);
        while let Some(ask) = due {
            put_r2t(out, self.send(place, ask, stamp));
            due = self.due_at(place);
        }
    }

    /// Returns the first due R2T of the command at this place.
    fn due_at(&self, place: usize) -> Option<Ask>
        requires { place < length self.now.list }
        ensures value { result ≡ first (due_asks (transfer_at self.now.list place).task) }
        ensures few { length (due_asks (transfer_at self.now.list place).task) ≤ MOST_OPEN }
        ensures tag { self.now.next_tag < 0xFFFFFFFF }
    {
        self.list[place].task.due()
    }

    /// Returns the R2T for this part, with these sequence numbers, and records that it is sent.
    fn send(&mut self, place: usize, ask: Ask, stamp: Stamp) -> R2t
        requires there { place < length self.old.list }
        requires due { first (due_asks (transfer_at self.old.list place).task) ≡ Some ask }
        ensures rest { r2ts_at self.old stamp place ≡ result ∷ r2ts_at self.new stamp place }
        ensures sent { self.new ≡ sent_at place (result ∷ []) self.old }
    {
        let tag = self.next_tag;
        let transfer = &mut self.list[place];
        transfer.task.asked(tag);
        let header = transfer.header;
        self.next_tag = next_after(tag);
        r2t_to(&header, tag, stamp, ask)
    }
}

/// Returns the Target Transfer Tag after this one.
fn next_after(tag: u32) -> u32
    requires { tag < 0xFFFFFFFF }
    ensures { result ≡ (tag + 1) % 0xFFFFFFFF }
{
    if tag + 1 == RESERVED_TAG {
        return 0;
    }
    tag + 1
}

/// Returns an R2T to the command with this header (RFC 7143 §11.8).
fn r2t_to(header: &Header, tag: u32, stamp: Stamp, ask: Ask) -> R2t
    ensures { result ≡ r2t_for header.now tag stamp ask }
{
    R2t {
        lun: header.lun(),
        initiator_task_tag: header.initiator_task_tag(),
        target_transfer_tag: tag,
        stamp,
        r2t_sn: ask.number,
        buffer_offset: ask.offset,
        desired_length: ask.length,
    }
}

/// Returns an R2T as an answer (RFC 7143 §11.8).
fn answer_of(r2t: R2t) -> Answer<'static>
    ensures value { result ≡ AnyAnswer.R2t r2t }
    ensures short { length (spelling result) ≤ 48 }
{
    Answer::R2t(r2t)
}

/// Writes an R2T into room that was reserved for it.
fn put_r2t(out: &mut Outbox, r2t: R2t)
    requires { 48 ≤ out.old.spare }
    ensures written { out.new.items ≡ out.old.items ++ spelling (AnyAnswer.R2t r2t) }
    ensures spare { out.old.spare ≤ out.new.spare + 48 }
{
    out.put(&answer_of(r2t));
}
