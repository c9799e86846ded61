//! Answering a command that is done.

ghost use Rattle.std.specs.Prelude.{◌≡◌, ◌≤◌, ◌++◌, ◌∷◌, ℕ, List, drop, false, length};
ghost use Rattle.scsi_unit.specs.DiskCommands.{most_given};
ghost use Rattle.iscsi_pdu.specs.Frames as pdu;
ghost use Rattle.iscsi_login.specs.Values.{AreInRange};
ghost use Rattle.iscsi_requests.specs.Requests.{Past, queue};
ghost use Rattle.iscsi_answers.specs.Room.{room_for};
ghost use Rattle.iscsi_requests.specs.Unread.{takes_in};
ghost use Rattle.iscsi_requests.specs.State.{Stands};
ghost use Rattle.iscsi_session.specs.Runs.{AnswersAs};

use crate::session::Session;
use bytes::BytesMut;
use data_parts::Parts;
use iscsi_answers::put_answers;
use iscsi_outbox::Outbox;
use scsi_sense::Done;
use std::alloc::Global;

impl Session {
    /// Finishes the first command of the queue, which is done, and appends its answers to `out`. There must be room for
    /// them ([`make_room`](iscsi_answers::make_room)), so no memory is allocated. Returns a buffer for reuse, if
    /// there is one, and the data that the command took, with its buffers.
    pub(crate) fn answer_command(
        &mut self,
        alloc: Global,
        out: &mut Outbox,
        done: Done,
    ) -> (Option<BytesMut>, Option<Parts>)
        requires values { AreInRange self.old.params.values }
        requires given { length done.given ≤ most_given }
        requires room { (frame : pdu.Frame) (others : List pdu.Frame) → self.old.tasks.queue ≡ frame ∷ others
            → room_for self.old.params.values frame ≤ out.old.spare }
        requires slot { 1 ≤ out.old.slots }
        ensures answers { (past : Past) (k : ℕ) (others : List ℕ) → Stands past self.old → queue past ≡ k ∷ others
            → AnswersAs done k past self.new out.old.items out.new.items }
        ensures grows { (more : List ℕ) × (out.new.items ≡ out.old.items ++ more) }
        ensures queue { self.new.tasks.queue ≡ drop 1 self.old.tasks.queue }
        ensures takes { (frame : pdu.Frame) → takes_in self.old.transfers frame ≡ false → takes_in self.new.transfers frame ≡ false }
        ensures params { self.new.params ≡ self.old.params }
    {
        let Some(frame) = self.tasks.finish() else {
            return (Some(done.given.into_buffer()), None);
        };
        let parts = self.transfers.finish(frame.header.initiator_task_tag());
        let stamp = self.next_stamp();
        (
            put_answers(alloc, out, stamp, &self.params.values, &frame, done),
            parts,
        )
    }
}
