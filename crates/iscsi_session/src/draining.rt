//! Answering the functions that wait for data.

ghost use Rattle.std.specs.Prelude.{◌≡◌, ◌++◌, ◌∷◌, ◌<◌, ℕ, List, None, Some, true, false, OnOk, OnErr};
ghost use Rattle.iscsi_pdu.specs.Frames as pdu;
ghost use Rattle.iscsi_requests.specs.Requests.{Past, frame_of, due, is_function};
ghost use Rattle.iscsi_session.specs.Acts.{ended};
ghost use Rattle.iscsi_requests.specs.Functions.{own_reach};
ghost use Rattle.iscsi_requests.specs.Draining.{awaits_in};
ghost use Rattle.iscsi_requests.specs.State.{Stands, waiting};
ghost use Rattle.iscsi_session.specs.Comings.{TargetUnits};
ghost use Rattle.iscsi_session.specs.Steps.{Answering, tell_due};
ghost use Rattle.iscsi_session.specs.Runs.{Runs, output};

use crate::session::Session;
use crate::task_management::answer_to;
use iscsi_outbox::Outbox;
use iscsi_pdu::{HEADER_LENGTH, TaskResult};
use iscsi_requests::Reach;
use target_limits::Memory;

impl Session {
    /// Executes the first request that is due: this function, which waits for data of commands that it removes. If an
    /// allocation fails, nothing changes.
    pub(crate) fn drain(&mut self, reach: &Reach) -> Result<(), Memory>
        ensures stands { OnOk result ((luns : List ℕ) (past : Past) (k : ℕ) (others : List ℕ) → Stands past self.old → due past ≡ k ∷ others
            → is_function (frame_of past.came k) ≡ true → reach.now ≡ own_reach luns (frame_of past.came k).header
            → awaits_in reach.now self.old.transfers.list ≡ true → Stands (ended luns k past) self.new) }
        ensures fewer { OnOk result ((frame : pdu.Frame) (others : List pdu.Frame) → self.old.tasks.due ≡ frame ∷ others
            → waiting self.new.tasks < waiting self.old.tasks) }
        ensures params { self.new.params ≡ self.old.params }
        ensures err { OnErr result (self.new ≡ self.old) }
    {
        self.transfers.drain(reach)?;
        self.tasks.remove(reach);
        self.tasks.drop_due();
        Ok(())
    }

    /// Finishes the first function whose data has come, and appends its answer to `out`. If an allocation fails,
    /// nothing changes.
    pub(crate) fn answer_drained(&mut self, out: &mut Outbox) -> Result<(), Memory>
        ensures ok { OnOk result ((orders : List (List ℕ)) (units : TargetUnits) → Runs tell_due None true self.old self.new
            (output out.old.items orders) (output out.new.items orders) units units) }
        ensures stops { OnErr result ((orders : List (List ℕ)) (units : TargetUnits) → Runs tell_due (Some (λ place. Answering place)) false self.old self.new
            (output out.old.items orders) (output out.new.items orders) units units) }
        ensures grows { (more : List ℕ) × (out.new.items ≡ out.old.items ++ more) }
        ensures line { self.new.tasks.due ≡ self.old.tasks.due }
        ensures params { self.new.params ≡ self.old.params }
    {
        let Some(function) = self.transfers.drained() else {
            return Ok(());
        };
        out.reserve(HEADER_LENGTH)?;
        let tag = function.initiator_task_tag();
        self.transfers.forget(tag);
        self.functions.finish(tag);
        self.tasks.finish_function(&function);
        let stamp = self.next_stamp();
        out.put(&answer_to(&function, stamp, TaskResult::Complete));
        Ok(())
    }
}
