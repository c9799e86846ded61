//! The Task Management Function Requests of a session.

ghost use Rattle.std.specs.Prelude.{◌≡◌, ◌≤◌, ◌<◌, ◌++◌, ◌∷◌, ◌==◌, ℕ, List, [], is_some, length, true, false, not, IsTrue, IfOk, OnOk, OnErr};
ghost use Rattle.iscsi_pdu.specs.Answer.{spelling};
ghost use Rattle.iscsi_pdu.specs.Frames as pdu;
ghost use Rattle.iscsi_pdu.specs.TaskManagement.{ref_cmd_sn};
ghost use Rattle.iscsi_order.specs.Window as order;
ghost use Rattle.iscsi_requests.specs.Requests.{Past, frame_of, due, numbers as numbers_in, removing, is_function as is_function_in};
ghost use Rattle.iscsi_requests.specs.Functions.{own_reach, reached, awaited, refers_back, abort_finds, plugs as plugs_in, abort_result, function_result, function_answer};
ghost use Rattle.iscsi_session.specs.Acts.{ended, behind};
ghost use Rattle.iscsi_session.specs.Runs.{ActsAs, output};
ghost use Rattle.iscsi_requests.specs.Unread.{takes_in};
ghost use Rattle.iscsi_requests.specs.State.{Stands, function_place, immediate_functions, function_removed, is_vacant, waiting};

use crate::act::Act;
use crate::session::Session;
use iscsi_order::{CommandNumbers, is_before};
use iscsi_outbox::Outbox;
use iscsi_pdu::{
    Answer, Frame, HEADER_LENGTH, Header, Opcode, Stamp, TaskFunction, TaskManagementResponse,
    TaskResult,
};
use iscsi_requests::{Aborted, Reach};
use std::alloc::Global;
use std::marker::Model;
use target_limits::Memory;

/// Returns whether a frame is a Task Management Function Request.
pub(crate) fn is_function(frame: &Frame) -> bool
    ensures { result ≡ is_function_in frame.now }
{
    matches!(frame.header.opcode(), Opcode::TaskManagement)
}

/// Returns whether the number that a function refers to is before its own.
fn refers_back(function: &Header) -> bool
    ensures { result ≡ refers_back function.now }
{
    is_before(function.ref_cmd_sn(), function.cmd_sn())
}

/// Returns the response to an ABORT TASK that finds this.
fn abort_result(found: Aborted) -> TaskResult
    ensures { result ≡ abort_result found }
{
    match found {
        Aborted::Live | Aborted::Missing | Aborted::Plugged => TaskResult::Complete,
        Aborted::Nothing => TaskResult::NoTask,
    }
}

/// Returns the answer to a function.
pub(crate) fn answer_to(function: &Header, stamp: Stamp, response: TaskResult) -> Answer<'static>
    ensures value { result ≡ function_answer stamp response function.now }
    ensures short { length (spelling result) ≤ 48 }
{
    Answer::TaskManagementResponse(TaskManagementResponse {
        initiator_task_tag: function.initiator_task_tag(),
        stamp,
        response,
    })
}

/// The headers of the Task Management Function Requests that are not finished, in the order in which they came.
#[derive(Drop)]
pub(crate) struct Functions {
    list: Vec<Header>,
}

impl Model for Functions {
    ghost use Rattle.std.specs.Prelude.{ℕ, List};

    ghost Value = { List (List ℕ) };

    ghost view = { λ f. f.list.items };
}

impl Functions {
    /// Creates an empty list. Allocates no memory.
    pub(crate) fn new(alloc: Global) -> Functions
        ensures { result ≡ [] }
    {
        Functions {
            list: Vec::new(alloc),
        }
    }

    /// Returns the place of the unfinished function with this tag.
    fn place_of(&self, tag: u32) -> Option<usize>
        ensures { result ≡ function_place tag self.now }
    {
        self.list
            .iter()
            .position(|header| header.initiator_task_tag() == tag)
    }

    /// Returns whether a function with this tag is not finished.
    pub(crate) fn is_live(&self, tag: u32) -> bool
        ensures { result ≡ is_some (function_place tag self.now) }
    {
        self.place_of(tag).is_some()
    }

    /// Returns how many unfinished functions are for immediate delivery.
    pub(crate) fn immediate(&self) -> usize
        ensures { result ≡ immediate_functions self.now }
    {
        let mut immediate = 0;
        for header in &self.list {
            if header.is_immediate() {
                immediate += 1;
            }
        }
        immediate
    }

    /// Adds a function that has just come. If an allocation fails, nothing changes.
    pub(crate) fn begin(&mut self, header: Header) -> Result<(), Memory>
        ensures ok { OnOk result (self.new ≡ self.old ++ header ∷ []) }
        ensures err { OnErr result (self.new ≡ self.old) }
    {
        self.list.reserve(1)?;
        self.list.push_reserved(header);
        Ok(())
    }

    /// Removes the function that was added last.
    pub(crate) fn forget_last(&mut self)
        ensures { (list : List (List ℕ)) (last : List ℕ) → self.old ≡ list ++ last ∷ [] → self.new ≡ list }
    {
        self.list.pop();
    }

    /// Finishes the function with this tag.
    pub(crate) fn finish(&mut self, tag: u32)
        ensures { self.new ≡ function_removed self.old (function_place tag self.old) }
    {
        if let Some(place) = self.place_of(tag) {
            self.list.remove(place);
        }
    }
}

impl Session {
    /// Executes the first request that is due, a Task Management Function Request. Appends its answer to `out`, unless
    /// it waits for data, and its header to `orders`. If an allocation fails, nothing changes.
    pub(crate) fn answer_function(
        &mut self,
        luns: &[u8],
        out: &mut Outbox,
        orders: &mut Vec<Header>,
    ) -> Result<Act, Memory>
        ensures taken { IfOk result (λ a. 0 < length self.old.tasks.due → a ≡ Act.Taken) }
        ensures acts { IfOk result (λ a. (past : Past) (k : ℕ) (others : List ℕ) → Stands past self.old → due past ≡ k ∷ others
            → is_function_in (frame_of past.came k) ≡ true → ActsAs luns.now k past a self.new
            (output out.old.items orders.old.items) (output out.new.items orders.new.items)) }
        ensures grows { (more : List ℕ) × (out.new.items ≡ out.old.items ++ more) }
        ensures fewer { IfOk result (λ a. (frame : pdu.Frame) (others : List pdu.Frame) → self.old.tasks.due ≡ frame ∷ others → is_function_in frame ≡ true
            → waiting self.new.tasks < waiting self.old.tasks) }
        ensures params { self.new.params ≡ self.old.params }
        ensures err { OnErr result (self.new ≡ self.old) }
        ensures out_err { OnErr result (out.new.items ≡ out.old.items) }
        ensures orders_err { OnErr result (orders.new.items ≡ orders.old.items) }
    {
        out.reserve(HEADER_LENGTH)?;
        orders.reserve(1)?;
        let Some(frame) = self.tasks.due() else {
            return Ok(Act::Idle);
        };
        let function = frame.header;
        let reach = Reach {
            function,
            luns,
            is_own: true,
        };
        if self.transfers.awaits(&reach) {
            self.drain(&reach)?;
            orders.push_reserved(function);
            return Ok(Act::Taken);
        }
        let (response, plugs) = self.judge_function(&reach);
        let numbers = self.end_tasks(&reach, plugs)?;
        let stamp = Stamp {
            stat_sn: self.stat.next(),
            exp_cmd_sn: numbers.exp_cmd_sn,
            max_cmd_sn: numbers.max_cmd_sn,
        };
        out.put(&answer_to(&function, stamp, response));
        orders.push_reserved(function);
        Ok(Act::Taken)
    }

    /// Finishes the first request that is due, which is this function. Removes what it reaches or, if `plugs`, plugs the
    /// number that it refers to. Returns the command numbers as they are before the plug. If an allocation fails, nothing
    /// changes.
    fn end_tasks(&mut self, reach: &Reach, plugs: bool) -> Result<CommandNumbers, Memory>
        requires due { 0 < length self.old.tasks.due }
        requires vacant { IsTrue plugs → is_vacant self.old.tasks (ref_cmd_sn reach.now.function) ≡ true }
        ensures stands { IfOk result (λ numbers. (luns : List ℕ) (past : Past) (k : ℕ) (others : List ℕ) → Stands past self.old
            → due past ≡ k ∷ others → is_function_in (frame_of past.came k) ≡ true → reach.now ≡ own_reach luns (frame_of past.came k).header
            → awaited past reach.now ≡ [] → plugs ≡ plugs_in past reach.now → (numbers ≡ order.numbers_of (numbers_in (ended luns k past))) × Stands (behind luns k past (ended luns k past)) self.new) }
        ensures fewer { OnOk result ((frame : pdu.Frame) (others : List pdu.Frame) → self.old.tasks.due ≡ frame ∷ others → is_function_in frame ≡ true
            → waiting self.new.tasks < waiting self.old.tasks) }
        ensures same { self.new ≡ record self.old { tasks = self.new.tasks; transfers = self.new.transfers; functions = self.new.functions } }
        ensures err { OnErr result (self.new ≡ self.old) }
    {
        let function = &reach.function;
        let tag = function.initiator_task_tag();
        if plugs {
            let numbers = self.tasks.plug_behind_first(function.ref_cmd_sn())?;
            self.functions.finish(tag);
            return Ok(numbers);
        }
        self.tasks.finish_due();
        self.functions.finish(tag);
        self.transfers.remove(reach);
        self.tasks.remove(reach);
        Ok(self.tasks.numbers())
    }

    /// Removes the SCSI Commands that a function reaches, and returns whether there was one. Allocates no memory.
    pub fn remove(&mut self, reach: &Reach) -> bool
        ensures some { (past : Past) → Stands past self.old → result ≡ not (length (reached reach.now past) == 0) }
        ensures stands { (past : Past) → Stands past self.old → Stands (removing (reached reach.now past) past) self.new }
        ensures params { self.new.params ≡ self.old.params }
        ensures takes { (frame : pdu.Frame) → takes_in self.old.transfers frame ≡ false → takes_in self.new.transfers frame ≡ false }
    {
        let some = self.transfers.has_reached(reach);
        self.transfers.remove(reach);
        self.tasks.remove(reach);
        some
    }

    /// Returns what an ABORT TASK finds.
    fn abort_finds(&self, reach: &Reach) -> Aborted
        ensures past { (past : Past) → Stands past self.now → result ≡ abort_finds past reach.now }
        ensures vacant { result ≡ Aborted.Missing → is_vacant self.now.tasks (ref_cmd_sn reach.now.function) ≡ true }
    {
        if self.transfers.has_reached(reach) {
            return Aborted::Live;
        }
        if !refers_back(&reach.function) {
            return Aborted::Nothing;
        }
        let number = reach.function.ref_cmd_sn();
        if self.tasks.is_new(number) {
            return Aborted::Missing;
        }
        if self.tasks.is_plugged(number) {
            return Aborted::Plugged;
        }
        Aborted::Nothing
    }

    /// Returns the response to a function (RFC 7143 §11.6.1), and whether it plugs the number that it refers to: it is the
    /// ABORT TASK of a task that has not come.
    #[tactic(auto, unfolding(iscsi_requests::specs::Functions::function_result, iscsi_requests::specs::Functions::plugs))]
    fn judge_function(&self, reach: &Reach) -> (TaskResult, bool)
        ensures response { (past : Past) → Stands past self.now → result.0 ≡ function_result past reach.now }
        ensures plugs { (past : Past) → Stands past self.now → result.1 ≡ plugs_in past reach.now }
        ensures vacant { IsTrue result.1 → is_vacant self.now.tasks (ref_cmd_sn reach.now.function) ≡ true }
    {
        let response = match reach.function.task_function() {
            TaskFunction::AbortTask => {
                let found = self.abort_finds(reach);
                return (abort_result(found), matches!(found, Aborted::Missing));
            }
            TaskFunction::AbortTaskSet
            | TaskFunction::ClearTaskSet
            | TaskFunction::LogicalUnitReset => reach.set_result(),
            TaskFunction::TargetWarmReset => TaskResult::Complete,
            TaskFunction::TaskReassign => TaskResult::NoReassignment,
            TaskFunction::ClearAca | TaskFunction::TargetColdReset | TaskFunction::Other(_) => {
                TaskResult::NotSupported
            }
        };
        (response, false)
    }
}
