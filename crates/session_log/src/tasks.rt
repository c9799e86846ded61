//! The latest commands and Task Management functions, by their tags.

ghost use Rattle.std.specs.Prelude.{◌<◌};

use crate::operation::CDB;
use crate::transfer::{Ask, Transfer};
use iscsi_pdu::{HEADER_LENGTH, Header, RESERVED_TAG};

/// The number of tasks that are remembered: more than a session may have unanswered.
const TASKS: usize = 64;

/// A command, by its logical unit and its CDB.
#[derive(Clone, Copy)]
pub(crate) struct Command {
    pub(crate) lun: [u8; 8],
    pub(crate) cdb: [u8; CDB],
}

/// Whether a task was answered.
#[derive(Clone, Copy)]
enum Standing {
    Answered,
    /// It was not answered, and when it came no other with its tag was unanswered.
    Sole,
    /// It was not answered, and when it came another with its tag was unanswered: the target may have ignored it, or
    /// dropped the other.
    Doubtful,
}

/// The Initiator Task Tag of a task, and whether it was answered.
#[derive(Clone, Copy)]
struct Mark {
    tag: u32,
    standing: Standing,
}

/// A task: a command, or a function.
#[derive(Clone, Copy)]
struct Task {
    /// `None`: it is a function.
    command: Option<Command>,
    transfer: Transfer,
}

/// The latest tasks of a connection. The oldest is forgotten.
#[derive(Clone, Copy)]
pub(crate) struct RecentTasks {
    /// The mark of each task. They lie close together, since they are searched at each command and each answer.
    marks: [Mark; TASKS],
    tasks: [Task; TASKS],
    /// The place of the next one.
    next: usize,
    ghost range: { next < 64 },
}

/// What is reported of a command that is no longer remembered.
const UNKNOWN: Command = Command {
    lun: [0; 8],
    cdb: [0; CDB],
};

impl Mark {
    /// Returns whether its task has this tag and was not answered.
    fn is_live(&self, tag: u32) -> bool {
        self.tag == tag && self.standing != Standing::Answered
    }
}

impl RecentTasks {
    /// Returns no tasks.
    pub(crate) fn new() -> RecentTasks {
        let mark = Mark {
            tag: RESERVED_TAG,
            standing: Standing::Answered,
        };
        let task = Task {
            command: None,
            transfer: Transfer::begun(&Header::new([0; HEADER_LENGTH])),
        };
        RecentTasks {
            marks: [mark; TASKS],
            tasks: [task; TASKS],
            next: 0,
        }
    }

    /// Notes a SCSI Command by its header.
    pub(crate) fn note_command(&mut self, header: &Header) {
        let command = Command {
            lun: header.lun(),
            cdb: header.cdb(),
        };
        self.note(header, Some(command));
    }

    /// Notes a Task Management Function Request by its header.
    pub(crate) fn note_function(&mut self, header: &Header) {
        self.note(header, None);
    }

    /// Notes a task, in the place of the oldest.
    fn note(&mut self, header: &Header, command: Option<Command>) {
        let tag = header.initiator_task_tag();
        let standing = if self.live(tag) == 0 {
            Standing::Sole
        } else {
            Standing::Doubtful
        };
        self.marks[self.next] = Mark { tag, standing };
        self.tasks[self.next] = Task {
            command,
            transfer: Transfer::begun(header),
        };
        self.next = (self.next + 1) % TASKS;
    }

    /// Returns the latest command with this tag.
    pub(crate) fn command_of(&self, tag: u32) -> Command {
        let mut latest = UNKNOWN;
        for i in 0..TASKS {
            let place = (self.next + i) % TASKS;
            if self.marks[place].tag == tag {
                latest = self.tasks[place].command.unwrap_or(latest);
            }
        }
        latest
    }

    /// Returns the number of tasks with this tag that were not answered.
    pub(crate) fn live(&self, tag: u32) -> usize {
        self.marks.iter().filter(|mark| mark.is_live(tag)).count()
    }

    /// Sees an answer to the task with this tag: the oldest that was not answered.
    pub(crate) fn end(&mut self, tag: u32) {
        for i in 0..TASKS {
            let place = (self.next + i) % TASKS;
            if self.marks[place].is_live(tag) {
                self.marks[place].standing = Standing::Answered;
                return;
            }
        }
    }

    /// Sees an R2T to the command with this tag.
    pub(crate) fn ask(&mut self, tag: u32, ask: Ask) {
        for place in 0..TASKS {
            if self.marks[place].is_live(tag) {
                let mut transfer = self.tasks[place].transfer;
                transfer.ask(ask);
                self.tasks[place].transfer = transfer;
            }
        }
    }

    /// Takes a Data-Out that broke no rule.
    pub(crate) fn take_data(&mut self, out: &Header) {
        let tag = out.initiator_task_tag();
        for place in 0..TASKS {
            if self.marks[place].is_live(tag) {
                let mut transfer = self.tasks[place].transfer;
                transfer.take(out);
                self.tasks[place].transfer = transfer;
            }
        }
    }

    /// Returns how far the data of the command with this tag has come, if no other task can be meant.
    pub(crate) fn transfer_of(&self, tag: u32) -> Option<Transfer> {
        if self.live(tag) != 1 {
            return None;
        }
        for place in 0..TASKS {
            let task = self.tasks[place];
            let mark = self.marks[place];
            if mark.is_live(tag) && mark.standing == Standing::Sole && task.command.is_some() {
                return Some(task.transfer);
            }
        }
        None
    }
}
