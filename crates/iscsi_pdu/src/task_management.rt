//! The fields of a Task Management Function Request (RFC 7143 §11.5).

ghost use Rattle.std.specs.Prelude.{◌≡◌};

use crate::header::Header;
use byteorder::{BigEndian, ByteOrder};

/// The function code, in byte 1.
const FUNCTION: u8 = 0x7F;

/// The function that a Task Management Function Request asks for (RFC 7143 §11.5.1).
#[derive(Clone, Copy)]
pub enum TaskFunction {
    /// 1 ABORT TASK: the task with the Referenced Task Tag.
    AbortTask,
    /// 2 ABORT TASK SET: the tasks of this session for a logical unit.
    AbortTaskSet,
    /// 3 CLEAR ACA
    ClearAca,
    /// 4 CLEAR TASK SET: the tasks of all sessions for a logical unit.
    ClearTaskSet,
    /// 5 LOGICAL UNIT RESET
    LogicalUnitReset,
    /// 6 TARGET WARM RESET
    TargetWarmReset,
    /// 7 TARGET COLD RESET
    TargetColdReset,
    /// 8 TASK REASSIGN
    TaskReassign,
    /// No function of RFC 7143, by its code.
    Other(u8),
}

impl Header {
    ghost use Rattle.iscsi_pdu.specs.TaskManagement.{task_function, function_code, referenced_task_tag, ref_cmd_sn};

    /// Returns the function.
    pub fn task_function(&self) -> TaskFunction
        ensures { result ≡ task_function (function_code self.now) }
    {
        match self.bytes[1] & FUNCTION {
            1 => TaskFunction::AbortTask,
            2 => TaskFunction::AbortTaskSet,
            3 => TaskFunction::ClearAca,
            4 => TaskFunction::ClearTaskSet,
            5 => TaskFunction::LogicalUnitReset,
            6 => TaskFunction::TargetWarmReset,
            7 => TaskFunction::TargetColdReset,
            8 => TaskFunction::TaskReassign,
            code => TaskFunction::Other(code),
        }
    }

    /// Returns Referenced Task Tag: the Initiator Task Tag of the task to be aborted.
    pub fn referenced_task_tag(&self) -> u32
        ensures { result ≡ referenced_task_tag self.now }
    {
        BigEndian::read_u32(&self.bytes[20..])
    }

    /// Returns RefCmdSN: the CmdSN of the task to be aborted.
    pub fn ref_cmd_sn(&self) -> u32
        ensures { result ≡ ref_cmd_sn self.now }
    {
        BigEndian::read_u32(&self.bytes[32..])
    }
}
