//! What waits to be sent on a connection.

ghost use Rattle.std.specs.Prelude.{◌≡◌, ◌<◌, ◌≤◌, ◌+◌, ◌++◌, ◌==◌, [], length, take, drop, nat_lt, OnOk, IfSome};
ghost use Rattle.iscsi_pdu.specs.Answer.{spelling};
ghost use Rattle.iscsi_outbox.specs.Offered.{EndsPdu};

use crate::data_ins::DataIns;
use crate::put::put;
use crate::run::{Run, copy_runs, front_of, left_behind, push_run, skip_in};
use bytes::BytesMut;
use iscsi_pdu::Answer;
use std::alloc::{AllocError, Global};
use std::collections::VecDeque;
use std::marker::Model;
use std::mem;

/// What waits to be sent: runs of data, each with the small answers before it, and the small answers after the last
/// run. Clauses see the bytes, joined, and the room that was reserved.
#[derive(Drop)]
pub struct Outbox {
    runs: VecDeque<Run>,
    tail: BytesMut,
}

impl Model for Outbox {
    ghost use Rattle.std.specs.Prelude.{◌-◌, ◌++◌, flat_map};
    ghost use Rattle.std.specs.VecDeque.{deque_len, deque_capacity};
    ghost use Rattle.iscsi_outbox.specs.Outbox.{Waits, run_bytes, AreRunning, AreInOrder};

    ghost Value = { Waits };

    ghost view = { λ o. record {
      items = flat_map run_bytes o.runs.items ++ o.tail.items;
      runs = deque_len o.runs;
      spare = o.tail.spare;
      slots = deque_capacity o.runs - deque_len o.runs;
    } };

    ghost invariant = { λ o. AreRunning o.runs.items × AreInOrder o.runs.items o.tail.items };
}

impl Outbox {
    /// Creates an empty outbox. Allocates no memory.
    pub fn new(alloc: Global) -> Outbox
        ensures items { result.items ≡ [] }
        ensures runs { result.runs ≡ 0 }
    {
        Outbox {
            runs: VecDeque::new(alloc),
            tail: BytesMut::new(alloc),
        }
    }

    /// Reserves room for small answers of `room` bytes in all, and for one run. If an allocation fails, what waits
    /// stays the same.
    pub fn reserve(&mut self, room: usize) -> Result<(), AllocError>
        ensures spare { OnOk result (room ≤ self.new.spare) }
        ensures slot { OnOk result (1 ≤ self.new.slots) }
        ensures items { self.new.items ≡ self.old.items }
        ensures runs { self.new.runs ≡ self.old.runs }
    {
        self.tail.reserve(room)?;
        self.runs.reserve(1)?;
        Ok(())
    }

    /// Appends a small answer, joined to those before it. Allocates no memory.
    pub fn put(&mut self, answer: &Answer)
        requires room { length (spelling answer.now) ≤ self.old.spare }
        ensures items { self.new.items ≡ self.old.items ++ spelling answer.now }
        ensures spare { self.new.spare + length (spelling answer.now) ≡ self.old.spare }
        ensures runs { self.new.runs ≡ self.old.runs }
        ensures slots { self.new.slots ≡ self.old.slots }
    {
        put(&mut self.tail, answer);
    }

    /// Begins an empty outbox with the bytes of a buffer; the room after them is that of the buffer. Returns the buffer
    /// that was there, for reuse. Allocates no memory.
    #[tactic(auto, using(crate::proofs::Runs::none_before))]
    pub fn begin_with(&mut self, buffer: BytesMut) -> BytesMut
        requires { self.old.items ≡ [] }
        ensures items { self.new.items ≡ buffer.items }
        ensures spare { self.new.spare ≡ buffer.spare }
        ensures runs { self.new.runs ≡ self.old.runs }
        ensures slots { self.new.slots ≡ self.old.slots }
        ensures given { result.items ≡ [] }
    {
        mem::replace(&mut self.tail, buffer)
    }

    /// Appends the answer to a command that returned data. Allocates no memory.
    pub fn put_data(&mut self, alloc: Global, data_ins: DataIns)
        requires slot { 1 ≤ self.old.slots }
        requires some { 0 < length data_ins }
        ensures items { self.new.items ≡ self.old.items ++ data_ins }
        ensures runs { self.new.runs ≡ self.old.runs + 1 }
    {
        push_run(&mut self.runs, &mut self.tail, alloc, data_ins);
    }

    /// Returns whether nothing waits.
    #[tactic(auto, using(crate::proofs::Runs::some_bytes))]
    pub fn is_empty(&self) -> bool
        ensures { result ≡ (length self.now.items == 0) }
    {
        self.runs.is_empty() && self.tail.is_empty()
    }

    /// Returns whether more than `n` bytes wait.
    pub fn is_longer_than(&self, n: usize) -> bool
        ensures { result ≡ nat_lt n (length self.now.items) }
    {
        let Some(left) = left_behind(&self.runs, n) else {
            return true;
        };
        left < self.tail.len()
    }

    /// Returns the next bytes to send, as many as lie together: all of them, if no run waits. They end where a PDU does.
    pub fn front(&self) -> &[u8]
        ensures prefix { result.now ≡ take (length result.now) self.now.items }
        ensures some { 0 < length self.now.items → 0 < length result.now }
        ensures whole { self.now.runs ≡ 0 → result.now ≡ self.now.items }
        ensures ends { EndsPdu self.now.items result.now }
    {
        front_of(&self.runs, &self.tail)
    }

    /// Skips at most `n` bytes that were sent, as far as they lay together at the front. Returns how many it skipped,
    /// and, for reuse, the buffer of a command's data that was sent to its end. Allocates no memory.
    pub fn skip_front(&mut self, n: usize) -> (usize, Option<BytesMut>)
        ensures within { result.0 ≤ n }
        ensures there { result.0 ≤ length self.old.items }
        ensures some { 0 < n → 0 < length self.old.items → 0 < result.0 }
        ensures items { self.new.items ≡ drop result.0 self.old.items }
        ensures spare { self.old.spare ≤ self.new.spare }
        ensures slots { self.old.slots ≤ self.new.slots }
        ensures runs { self.new.runs ≤ self.old.runs }
        ensures spent { IfSome result.1 (λ buffer. buffer.items ≡ []) }
    {
        if !self.runs.is_empty() {
            return skip_in(&mut self.runs, n);
        }
        let step = n.min(self.tail.len());
        self.tail.advance(step);
        if self.tail.is_empty() {
            // What was sent counts as room from here on.
            self.tail.clear();
        }
        (step, None)
    }

    /// Appends all that waits to `bytes`.
    pub fn copy_to(&self, bytes: &mut Vec<u8>) -> Result<(), AllocError>
        ensures { OnOk result (bytes.new.items ≡ bytes.old.items ++ self.now.items) }
    {
        copy_runs(&self.runs, bytes)?;
        bytes.extend_from_slice(self.tail.as_slice())
    }

    /// Frees the reserved room, if nothing waits and there is room for more than `most` bytes. Frees the places of runs
    /// as well, if nothing waits.
    pub fn trim(&mut self, alloc: Global, most: usize)
        ensures items { self.new.items ≡ self.old.items }
        ensures runs { self.new.runs ≡ self.old.runs }
        ensures room { self.old.items ≡ [] → self.new.spare ≤ most }
    {
        if !self.is_empty() {
            return;
        }
        self.runs.shrink_to_fit();
        if self.tail.capacity() > most {
            self.tail = BytesMut::new(alloc);
        }
    }
}
