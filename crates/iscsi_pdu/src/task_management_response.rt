//! The answer to a Task Management Function Request (RFC 7143 §11.6).

ghost use Rattle.std.specs.Prelude.{◌≡◌, ◌+◌, ◌≤◌, length};
ghost use Rattle.iscsi_pdu.specs.Header.{header_length};
ghost use Rattle.iscsi_pdu.specs.Segment.{most_data};

use crate::header::HEADER_LENGTH;
use crate::result_header::result_header;
use crate::stamp::Stamp;

/// The opcode, byte 0.
const OPCODE: u8 = 0x22;

/// The result of a task management function (RFC 7143 §11.6.1).
#[derive(Clone, Copy)]
pub enum TaskResult {
    /// 0: the function is complete.
    Complete = 0,
    /// 1: the task does not exist.
    NoTask = 1,
    /// 2: the logical unit does not exist.
    NoUnit = 2,
    /// 4: tasks are not reassigned to another connection.
    NoReassignment = 4,
    /// 5: the function is not supported.
    NotSupported = 5,
}

/// The answer to a Task Management Function Request (RFC 7143 §11.6).
#[derive(Clone, Copy)]
pub struct TaskManagementResponse {
    /// The Initiator Task Tag of the request.
    pub initiator_task_tag: u32,
    pub stamp: Stamp,
    pub response: TaskResult,
}

impl TaskResult {
    ghost use Rattle.iscsi_pdu.specs.TaskManagementResponse.{task_result_code};

    /// Returns byte 2.
    fn code(self) -> u8
        ensures { result ≡ task_result_code self }
    {
        self as u8
    }
}

impl TaskManagementResponse {
    ghost use Rattle.iscsi_pdu.specs.TaskManagementResponse.{task_management_response_bytes, task_management_response_header};

    /// Returns the length of the response in bytes.
    pub(crate) fn length(&self) -> usize
        ensures value { result ≡ length (task_management_response_bytes self.now) }
        ensures bound { result ≤ header_length + most_data }
    {
        self.header().len()
    }

    /// Returns the 48 header bytes.
    pub(crate) fn header(&self) -> [u8; HEADER_LENGTH]
        ensures { result ≡ task_management_response_header self.now }
    {
        let code = self.response.code();
        result_header(OPCODE, code, self.initiator_task_tag, self.stamp)
    }
}
