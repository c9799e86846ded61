//! How the calls of a connection go, for tests.

ghost use Rattle.std.specs.Prelude.{◌≡◌, ◌≤◌, length, take};
ghost use Rattle.iscsi_ports.specs.Results.{count_of};
ghost use Rattle.iscsi_ports.specs.Script.{told_at, IsBehind, read_told, write_told, HasRead, HasWritten};

use crate::results::IoResult;

/// What a read or a write tells.
#[derive(Clone, Copy)]
pub enum Step {
    /// The most bytes that it moves: 0 if the call would wait.
    Moves(usize),
    End,
    Fault,
}

/// How the reads of a connection go, one after the other, or its writes.
#[derive(Clone, Copy)]
pub struct Course {
    /// How many move all that they can.
    pub first: u64,
    /// The call after those goes by this step, and each later one by `later`.
    pub next: Step,
    pub later: Step,
}

/// What a connection brings, and how its calls go.
#[derive(Drop)]
pub struct Script {
    /// The bytes that come on it.
    pub input: Vec<u8>,
    /// A read after all of them tells the end, and does not wait for more.
    pub ends: bool,
    pub reads: Course,
    pub writes: Course,
}

impl Course {
    /// Makes a course in which this number of calls move all that they can, and each later one goes by this step.
    pub fn after(first: u64, step: Step) -> Course
        ensures { result ≡ record { first = first; next = step; later = step } }
    {
        Course {
            first,
            next: step,
            later: step,
        }
    }

    /// Returns what the next call tells, which can move this number of bytes.
    fn call(&mut self, most: usize) -> IoResult
        ensures told { result ≡ told_at self.old 0 most }
        ensures next { IsBehind self.old self.new }
    {
        if self.first > 0 {
            self.first -= 1;
            return IoResult::Bytes(most);
        }
        let step = self.next;
        self.next = self.later;
        match step {
            Step::Moves(count) => IoResult::Bytes(count.min(most)),
            Step::End => IoResult::End,
            Step::Fault => IoResult::Fault,
        }
    }
}

impl Script {
    /// Returns what a read tells, and gives its bytes.
    pub(crate) fn read(&mut self, buffer: &mut [u8]) -> IoResult
        ensures count { count_of result ≤ length buffer.new }
        ensures told { result ≡ read_told self.old (length buffer.old) }
        ensures piece { take (count_of result) buffer.new ≡ take (count_of result) self.old.input.items }
        ensures left { HasRead self.old self.new result }
    {
        let most = self.input.len().min(buffer.len());
        let told = self.reads.call(most);
        if self.ends && self.input.is_empty() {
            return IoResult::End;
        }
        if let IoResult::Bytes(count) = told {
            buffer[..count].copy_from_slice(&self.input.as_slice()[..count]);
            self.input.drain(..count);
        }
        told
    }

    /// Returns what a write of this number of bytes tells.
    pub(crate) fn write(&mut self, offered: usize) -> IoResult
        ensures count { count_of result ≤ offered }
        ensures told { result ≡ write_told self.old offered }
        ensures left { HasWritten self.old self.new }
    {
        self.writes.call(offered)
    }
}
