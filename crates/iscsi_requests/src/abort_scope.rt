//! The SCSI Commands that a Task Management Function Request reaches, and the unit attention that it raises.

ghost use Rattle.std.specs.Prelude.{◌≡◌};
ghost use Rattle.iscsi_pdu.specs.TaskManagement.{task_function, function_code};
ghost use Rattle.iscsi_requests.specs.Functions.{reaches as reaches_in, has_unit, unit_named, is_earlier, is_in_set, set_result, scope as scope_in, waits as waits_in};
ghost use Rattle.iscsi_requests.specs.AbortScope.{scope_of, waits_by, is_for_all as is_for_all_by, attention_of as attention_by};
ghost use Rattle.iscsi_requests.specs.State.{reaches_frame};

use crate::command::is_command;
use iscsi_order::is_before;
use iscsi_pdu::{Frame, Header, TaskFunction, TaskResult};
use scsi_sense::Attention;
use scsi_unit::Lun;
use std::marker::Model;

/// The SCSI Commands that a Task Management function removes (RFC 7143 §11.5.1).
#[derive(Clone, Copy)]
pub enum Scope {
    /// One task of its session.
    Task,
    /// The task set of a logical unit, of its session only.
    OwnTaskSet,
    /// The task set of a logical unit, of all sessions of the target.
    TaskSet,
    /// The tasks of all logical units of the target, of all its sessions.
    AllTasks,
    /// None.
    NoTask,
}

impl Scope {
    /// Returns the scope of a function.
    pub fn of(function: TaskFunction) -> Scope
        ensures { result ≡ scope_of function }
    {
        match function {
            TaskFunction::AbortTask => Scope::Task,
            TaskFunction::AbortTaskSet => Scope::OwnTaskSet,
            TaskFunction::ClearTaskSet | TaskFunction::LogicalUnitReset => Scope::TaskSet,
            TaskFunction::TargetWarmReset => Scope::AllTasks,
            TaskFunction::ClearAca
            | TaskFunction::TargetColdReset
            | TaskFunction::TaskReassign
            | TaskFunction::Other(_) => Scope::NoTask,
        }
    }

    /// Returns whether a function of this scope waits for the data that R2Ts have asked for. ABORT TASK does not.
    pub(crate) fn waits(self) -> bool
        ensures { result ≡ waits_by self }
    {
        match self {
            Scope::OwnTaskSet | Scope::TaskSet | Scope::AllTasks => true,
            Scope::Task | Scope::NoTask => false,
        }
    }

    /// Returns whether a function of this scope removes commands of all sessions of the target.
    fn is_for_all(self) -> bool
        ensures { result ≡ is_for_all_by self }
    {
        match self {
            Scope::TaskSet | Scope::AllTasks => true,
            Scope::Task | Scope::OwnTaskSet | Scope::NoTask => false,
        }
    }
}

/// Returns whether this Task Management Function Request removes commands of all sessions of the target.
pub fn is_for_all_sessions(function: &Header) -> bool
    ensures { result ≡ is_for_all_by (scope_of (task_function (function_code function.now))) }
{
    Scope::of(function.task_function()).is_for_all()
}

/// Returns the unit attention that this Task Management Function Request raises, if any.
pub fn attention_of(function: &Header) -> Option<Attention>
    ensures { result ≡ attention_by (task_function (function_code function.now)) }
{
    match function.task_function() {
        TaskFunction::ClearTaskSet => Some(Attention::CommandsClearedByAnotherInitiator),
        TaskFunction::LogicalUnitReset | TaskFunction::TargetWarmReset => {
            Some(Attention::BusDeviceResetFunctionOccurred)
        }
        TaskFunction::AbortTask
        | TaskFunction::AbortTaskSet
        | TaskFunction::ClearAca
        | TaskFunction::TargetColdReset
        | TaskFunction::TaskReassign
        | TaskFunction::Other(_) => None,
    }
}

/// A Task Management Function Request, as applied to the commands of one session of its target.
#[derive(Drop)]
pub struct Reach<'a> {
    /// Its header.
    pub function: Header,
    /// The numbers of the target's units.
    pub luns: &'a [u8],
    /// Whether the session is the one that it came from.
    pub is_own: bool,
}

impl<'a> Model for Reach<'a> {
    ghost use Rattle.iscsi_requests.specs.Functions.{FunctionReach};

    ghost Value = { FunctionReach };

    ghost view = { λ r. record { function = r.function; luns = r.luns.now; is_own = r.is_own } };
}

impl Reach<'_> {
    /// Returns whether the function removes the SCSI Command with this header (RFC 7143 §11.5.1).
    #[tactic(auto, unfolding(crate::specs::Functions::reaches))]
    pub fn has(&self, command: &Header) -> bool
        ensures { result ≡ reaches_in self.now command.now }
    {
        match self.scope() {
            Scope::Task => {
                self.is_own && command.initiator_task_tag() == self.function.referenced_task_tag()
            }
            Scope::OwnTaskSet => self.is_own && self.is_in_set(command),
            Scope::TaskSet => self.is_in_set(command),
            Scope::AllTasks => self.unit_named(command).is_some() && self.is_earlier(command),
            Scope::NoTask => false,
        }
    }

    /// Returns which SCSI Commands the function removes.
    pub fn scope(&self) -> Scope
        ensures { result ≡ scope_in self.now }
    {
        Scope::of(self.function.task_function())
    }

    /// Returns whether the command is of the task set (SAM-5) of the unit that the request names.
    fn is_in_set(&self, command: &Header) -> bool
        ensures { result ≡ is_in_set self.now command.now }
    {
        let Some(unit) = self.unit_named(&self.function) else {
            return false;
        };
        match self.unit_named(command) {
            Some(other) => other == unit && self.is_earlier(command),
            None => false,
        }
    }

    /// Returns whether the command is for immediate delivery, is numbered before the request, or is of another session
    /// than the request.
    fn is_earlier(&self, command: &Header) -> bool
        ensures { result ≡ is_earlier self.now command.now }
    {
        !self.is_own
            || command.is_immediate()
            || is_before(command.cmd_sn(), self.function.cmd_sn())
    }

    /// Returns the number of the unit that the LUN of a header names, if the target has it.
    fn unit_named(&self, header: &Header) -> Option<u8>
        ensures { result ≡ unit_named self.now.luns header.now }
    {
        let number = Lun::read(header.lun())?.number();
        if self.has_unit(number) {
            Some(number)
        } else {
            None
        }
    }

    /// Returns whether the target has a unit with this number.
    fn has_unit(&self, number: u8) -> bool
        ensures { result ≡ has_unit self.now.luns number }
    {
        self.luns.iter().any(|lun| *lun == number)
    }

    /// Returns the response to a request that is for all commands of a unit (RFC 7143 §11.6.1).
    pub fn set_result(&self) -> TaskResult
        ensures { result ≡ set_result self.now }
    {
        if self.unit_named(&self.function).is_some() {
            TaskResult::Complete
        } else {
            TaskResult::NoUnit
        }
    }

    /// Returns whether the function waits for the data that R2Ts have asked for. ABORT TASK does not.
    pub(crate) fn waits(&self) -> bool
        ensures { result ≡ waits_in self.now }
    {
        self.scope().waits()
    }

    /// Returns whether this request is a SCSI Command that the function removes.
    pub(crate) fn has_frame(&self, frame: &Frame) -> bool
        ensures { result ≡ reaches_frame self.now frame.now }
    {
        is_command(frame) && self.has(&frame.header)
    }
}
