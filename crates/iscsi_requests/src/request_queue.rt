//! The requests of a session that are not finished, and their numbers.

ghost use Rattle.std.specs.Prelude.{◌≡◌, ◌≤◌, ◌<◌, ◌+◌, ◌-◌, ◌++◌, ◌∷◌, All, List, [], None, true, length, map, filter, drop, remove, slice_index_or, option_map, vec_capacity, vec_len, IfSome, IfNone, IfOk, OnOk, OnErr, if◌then◌else◌};
ghost use Rattle.iscsi_order.specs.Window as order;
ghost use Rattle.iscsi_order.specs.WindowState as window;
ghost use Rattle.iscsi_pdu.specs.Frames as pdu;
ghost use Rattle.iscsi_pdu.specs.Header.{is_immediate};
ghost use Rattle.iscsi_requests.specs.State.{no_tasks, window_of, is_vacant, is_vacant_for, holding, kept, bare_command, takes_all, one_fewer, without, held_numbered, is_some_plug, plugged_behind, void_if, stays, counts_out, swept_one};
ghost use Rattle.iscsi_requests.specs.RequestQueue.{moves_all};

use crate::abort_scope::Reach;
use crate::placeholders::{is_plug, plug, void_held, void_line};
use iscsi_order::{CommandNumbers, Window};
use iscsi_pdu::{Frame, Header};
use slab::Slab;
use std::alloc::Global;
use std::marker::Model;
use target_limits::Memory;

/// How many requests of a session are usually unfinished at most: those that have numbers. Few are for immediate delivery.
pub(crate) const USUALLY_MOST: usize = 32;

/// The requests of a session that are not finished. They are stored in a slab, so that one that moves from one line to
/// another is not copied. A SCSI Command has no data here: all of it is in [`Transfers`](crate::transfers::Transfers).
/// Clauses see the three lines, and the window of the numbers.
#[derive(Drop)]
pub struct RequestQueue {
    requests: Slab<Frame>,
    /// The keys of the numbered requests that wait for the numbers before theirs.
    window: Window,
    /// The keys of the requests that are taken and are not executed yet, in order.
    due: Vec<usize>,
    /// The keys of the SCSI Commands in the queue, in order.
    queue: Vec<usize>,
    alloc: Global,
}

impl Model for RequestQueue {
    ghost use Rattle.iscsi_requests.specs.State.{TaskLists};

    ghost Value = { TaskLists };

    ghost use Rattle.iscsi_requests.specs.RequestQueue.{lists_of, keys_in, AreLines};

    ghost view = { λ t. lists_of t.requests t.window t.due.items t.queue.items };

    ghost invariant = { λ t. AreLines t.requests (keys_in t.window.keys) t.due.items t.queue.items };
}

/// Removes the first key of a line, and returns it. Mostly it is alone.
fn take_first(line: &mut Vec<usize>) -> usize
    requires { 0 < length line.old.items }
    ensures value { result ≡ slice_index_or line.old.items 0 result }
    ensures items { line.new.items ≡ remove line.old.items 0 }
    ensures len { vec_len line.new + 1 ≡ vec_len line.old }
{
    if line.len() > 1 {
        return line.remove(0);
    }
    match line.pop() {
        Some(key) => key,
        None => 0,
    }
}

/// Hands over the keys of all numbers that come before the first missing one, in order. There must be room for them.
fn take_ready(window: &mut Window, due: &mut Vec<usize>)
    requires { length due.old.items + length window.old.keys ≤ vec_capacity due.old }
    ensures { (window.new, due.new.items) ≡ moves_all (window.old, due.old.items) }
{
    while let Some(key) = window.take() {
        due.push_reserved(key);
    }
}

/// Finishes a request whose number was handed over. A request for immediate delivery has none.
fn count_out(window: &mut Window, frame: &Frame)
    ensures { window.new ≡ (if is_immediate frame.now.header then window.old else record window.old { unfinished = window.old.unfinished - 1 }) }
{
    if !frame.header.is_immediate() {
        window.finish();
    }
}

impl RequestQueue {
    /// Creates an empty list, before the first number. Allocates no memory.
    pub fn new(alloc: Global, first: u32) -> RequestQueue
        ensures { result ≡ no_tasks first }
    {
        RequestQueue {
            requests: Slab::new(alloc),
            window: Window::new(first),
            due: Vec::new(alloc),
            queue: Vec::new(alloc),
            alloc,
        }
    }

    /// Makes room for as many requests as are usually not finished at most. So the lists do not grow at a busy time, where
    /// they would lie above much memory that is freed after it. If an allocation fails, nothing changes.
    pub fn reserve(&mut self) -> Result<(), Memory>
        ensures { self.new ≡ self.old }
    {
        self.requests.reserve(USUALLY_MOST)?;
        self.due.reserve(USUALLY_MOST)?;
        self.queue.reserve(USUALLY_MOST)?;
        Ok(())
    }

    /// Returns whether no request is kept.
    pub fn is_empty(&self) -> bool
        ensures due { result ≡ true → self.now.due ≡ [] }
        ensures queue { result ≡ true → self.now.queue ≡ [] }
        ensures held { result ≡ true → All (λ request. request ≡ None) self.now.held }
    {
        self.requests.is_empty()
    }

    /// Keeps an accepted request until it is executed. If an allocation fails, nothing changes.
    pub fn keep(&mut self, frame: Frame) -> Result<(), Memory>
        requires { is_vacant_for self.old frame ≡ true }
        ensures ok { OnOk result (self.new ≡ kept frame self.old) }
        ensures err { OnErr result (self.new ≡ self.old) }
    {
        if frame.header.is_immediate() {
            return self.admit(frame);
        }
        self.hold(frame.header.cmd_sn(), frame)
    }

    /// Keeps an accepted SCSI Command, as [`RequestQueue::keep`] does, without the data that it brought.
    pub fn keep_command(&mut self, header: Header) -> Result<(), Memory>
        requires { is_vacant_for self.old (bare_command header) ≡ true }
        ensures ok { OnOk result (self.new ≡ kept (bare_command header) self.old) }
        ensures err { OnErr result (self.new ≡ self.old) }
    {
        self.keep(Frame {
            header,
            body: Vec::new(self.alloc),
        })
    }

    /// Takes a request for immediate delivery at once. If an allocation fails, nothing changes.
    fn admit(&mut self, frame: Frame) -> Result<(), Memory>
        ensures ok { OnOk result (self.new ≡ record self.old { due = self.old.due ++ frame ∷ [] }) }
        ensures err { OnErr result (self.new ≡ self.old) }
    {
        self.due.reserve(1)?;
        let key = self.requests.insert(frame)?;
        self.due.push_reserved(key);
        Ok(())
    }

    /// Holds a request with a number, and takes all that come before the first missing number. If an allocation fails,
    /// nothing changes.
    fn hold(&mut self, number: u32, frame: Frame) -> Result<(), Memory>
        requires { is_vacant self.old number ≡ true }
        ensures ok { OnOk result (self.new ≡ takes_all (holding number frame self.old)) }
        ensures err { OnErr result (self.new ≡ self.old) }
    {
        self.due.reserve(self.window.held().len())?;
        let key = self.requests.insert(frame)?;
        // It is new, so it is not ignored.
        let _ = self.window.arrive(number, key);
        take_ready(&mut self.window, &mut self.due);
        Ok(())
    }

    /// Finishes the first request that is due, and plugs this number. Returns the command numbers from between the two.
    /// If an allocation fails, nothing changes.
    pub fn plug_behind_first(&mut self, number: u32) -> Result<CommandNumbers, Memory>
        requires vacant { is_vacant self.old number ≡ true }
        requires some { 0 < length self.old.due }
        ensures ok { OnOk result (self.new ≡ plugged_behind number self.old self.old.due) }
        ensures numbers { IfOk result (λ numbers. (past : order.Past) (frame : pdu.Frame) (others : List pdu.Frame) → self.old.due ≡ frame ∷ others
            → window.Stands past (window_of (one_fewer frame (record self.old { due = others }))) → numbers ≡ order.numbers_of past) }
        ensures err { OnErr result (self.new ≡ self.old) }
    {
        self.due.reserve(self.window.held().len())?;
        let key = self.due.remove(0);
        let frame = self.requests.remove(key);
        count_out(&mut self.window, &frame);
        let numbers = self.window.numbers();
        // There is room for it in place of the one that was removed.
        let key = self.requests.insert_reserved(plug(self.alloc));
        // It is new, so it is not ignored.
        let _ = self.window.arrive(number, key);
        take_ready(&mut self.window, &mut self.due);
        Ok(numbers)
    }

    /// Returns whether this number was plugged and is not taken.
    pub fn is_plugged(&self, number: u32) -> bool
        ensures { result ≡ is_some_plug (held_numbered self.now number) }
    {
        let Some(key) = self.window.key_of(number) else {
            return false;
        };
        match self.requests.get(key) {
            Some(frame) => is_plug(frame),
            None => false,
        }
    }

    /// Returns whether a request with this CmdSN would be new.
    pub fn is_new(&self, number: u32) -> bool
        ensures vacant { result ≡ is_vacant self.now number }
        ensures past { (past : order.Past) → window.Stands past (window_of self.now) → result ≡ order.is_new past number }
    {
        self.window.is_new(number)
    }

    /// Returns ExpCmdSN and MaxCmdSN.
    pub fn numbers(&self) -> CommandNumbers
        ensures { (past : order.Past) → window.Stands past (window_of self.now) → result ≡ order.numbers_of past }
    {
        self.window.numbers()
    }

    /// Returns the first request that is due.
    pub fn due(&self) -> Option<&Frame>
        ensures some { IfSome result (λ frame. self.now.due ≡ frame.now ∷ drop 1 self.now.due) }
        ensures none { IfNone result (self.now.due ≡ []) }
    {
        let key = self.due.first()?;
        self.requests.get(*key)
    }

    /// Moves the first request that is due to the queue. If an allocation fails, nothing changes.
    pub fn queue_due(&mut self) -> Result<(), Memory>
        ensures ok { OnOk result ((frame : pdu.Frame) (others : List pdu.Frame) → self.old.due ≡ frame ∷ others
            → self.new ≡ record self.old { due = others; queue = self.old.queue ++ frame ∷ [] }) }
        ensures err { OnErr result (self.new ≡ self.old) }
    {
        self.queue.reserve(1)?;
        if !self.due.is_empty() {
            let key = take_first(&mut self.due);
            self.queue.push_reserved(key);
        }
        Ok(())
    }

    /// Removes the first request that is due, without finishing it, and returns it.
    pub fn drop_due(&mut self) -> Option<Frame>
        ensures some { IfSome result (λ frame. self.old.due ≡ frame ∷ drop 1 self.old.due) }
        ensures same { IfSome result (λ frame. self.new ≡ record self.old { due = drop 1 self.old.due }) }
        ensures none { IfNone result (self.old.due ≡ []) }
        ensures none_same { IfNone result (self.new ≡ self.old) }
    {
        if self.due.is_empty() {
            return None;
        }
        let key = take_first(&mut self.due);
        let frame = self.requests.remove(key);
        Some(frame)
    }

    /// Finishes the first request that is due, and returns it.
    pub fn finish_due(&mut self) -> Option<Frame>
        ensures some { IfSome result (λ frame. self.old.due ≡ frame ∷ drop 1 self.old.due) }
        ensures same { IfSome result (λ frame. self.new ≡ one_fewer frame (record self.old { due = drop 1 self.old.due })) }
        ensures none { IfNone result (self.old.due ≡ []) }
        ensures none_same { IfNone result (self.new ≡ self.old) }
    {
        let frame = self.drop_due()?;
        self.finish_number(&frame);
        Some(frame)
    }

    /// Returns the first command of the queue.
    pub fn first(&self) -> Option<&Frame>
        ensures some { IfSome result (λ frame. self.now.queue ≡ frame.now ∷ drop 1 self.now.queue) }
        ensures none { IfNone result (self.now.queue ≡ []) }
    {
        let key = self.queue.first()?;
        self.requests.get(*key)
    }

    /// Finishes the first command of the queue, and returns it.
    pub fn finish(&mut self) -> Option<Frame>
        ensures some { IfSome result (λ frame. self.old.queue ≡ frame ∷ drop 1 self.old.queue) }
        ensures same { IfSome result (λ frame. self.new ≡ one_fewer frame (record self.old { queue = drop 1 self.old.queue })) }
        ensures none { IfNone result (self.old.queue ≡ []) }
        ensures none_same { IfNone result (self.new ≡ self.old) }
    {
        if self.queue.is_empty() {
            return None;
        }
        let key = take_first(&mut self.queue);
        let frame = self.requests.remove(key);
        self.finish_number(&frame);
        Some(frame)
    }

    /// Removes the SCSI Commands that a Task Management Function Request reaches. What is held or due is voided, and
    /// what is in the queue is finished.
    pub fn remove(&mut self, reach: &Reach)
        ensures { self.new ≡ without reach.now self.old }
    {
        self.void_waiting(reach);
        self.sweep_queue(reach);
    }

    /// Voids the commands it reaches that are held or due.
    fn void_waiting(&mut self, reach: &Reach)
        ensures { self.new ≡ record self.old { held = map (option_map (void_if reach.now)) self.old.held; due = map (void_if reach.now) self.old.due } }
    {
        void_held(self.alloc, &mut self.requests, self.window.held(), reach);
        void_line(self.alloc, &mut self.requests, &self.due, reach);
    }

    /// Finishes the commands it reaches that are in the queue.
    fn sweep_queue(&mut self, reach: &Reach)
        ensures { self.new ≡ record self.old {
          unfinished = self.old.unfinished - length (filter (counts_out reach.now) self.old.queue);
          queue = filter (stays reach.now) self.old.queue;
        } }
    {
        // Each moves to the end of the queue once, or leaves it.
        for _ in 0..self.queued() {
            self.turn_queue(reach);
        }
    }

    /// Returns how many commands are in the queue.
    fn queued(&self) -> usize
        ensures { result ≡ length self.now.queue }
    {
        self.queue.len()
    }

    /// Moves the first command of the queue to its end, or finishes it if the function reaches it.
    fn turn_queue(&mut self, reach: &Reach)
        ensures { (frame : pdu.Frame) (others : List pdu.Frame) → self.old.queue ≡ frame ∷ others → self.new ≡ swept_one reach.now frame others self.old }
    {
        let Some(frame) = self.first() else {
            return;
        };
        if reach.has_frame(frame) {
            self.finish();
        } else {
            let key = self.queue.remove(0);
            self.queue.push_reserved(key);
        }
    }

    /// Finishes a function that was executed before. One for immediate delivery has no number.
    pub fn finish_function(&mut self, header: &Header)
        ensures { self.new ≡ (if is_immediate header.now then self.old else record self.old { unfinished = self.old.unfinished - 1 }) }
    {
        if !header.is_immediate() {
            self.window.finish();
        }
    }

    /// Finishes a request whose number was taken. One for immediate delivery has none.
    fn finish_number(&mut self, frame: &Frame)
        ensures { self.new ≡ one_fewer frame.now self.old }
    {
        count_out(&mut self.window, frame);
    }
}
