//! The data of a command among small answers.

ghost use Rattle.std.specs.Prelude.{◌≡◌, ◌<◌, ◌≤◌, ◌+◌, ◌++◌, ℕ, List, [], length, take, drop, flat_map, IfSome, IfNone, OnOk};
ghost use Rattle.std.specs.VecDeque.{deque_len, deque_capacity};
ghost use Rattle.iscsi_outbox.specs.Offered.{EndsPdu};
ghost use Rattle.iscsi_outbox.specs.Outbox.{run_bytes, AreRunning, IsInOrder, AreInOrder};

use crate::data_ins::DataIns;
use crate::unsent::Unsent;
use bytes::BytesMut;
use std::alloc::{AllocError, Global};
use std::collections::VecDeque;
use std::mem;

/// The answer to a command that returned data, and the small answers before it.
#[derive(Drop)]
pub(crate) struct Run {
    pub before: BytesMut,
    pub data_ins: Unsent,
}

impl Run {
    /// Returns the next bytes to send.
    fn front(&self) -> &[u8]
        ensures prefix { result.now ≡ take (length result.now) (run_bytes self.now) }
        ensures some { 0 < length self.now.data_ins → 0 < length result.now }
        ensures ends { IsInOrder self.now → EndsPdu (run_bytes self.now) result.now }
    {
        if self.before.is_empty() {
            return self.data_ins.front();
        }
        self.before.as_slice()
    }

    /// Skips at most `n` bytes that were sent, as far as they lay together. Returns how many it skipped.
    fn skip_some(&mut self, n: usize) -> usize
        ensures within { result ≤ n }
        ensures some { 0 < n → 0 < length self.old.data_ins → 0 < result }
        ensures rest { run_bytes self.new ≡ drop result (run_bytes self.old) }
        ensures there { result ≤ length (run_bytes self.old) }
        ensures spent { 0 < length self.old.data_ins → length self.new.data_ins ≡ 0 → run_bytes self.new ≡ [] }
        ensures order { IsInOrder self.old → IsInOrder self.new }
    {
        if self.before.is_empty() {
            return self.data_ins.skip_some(n);
        }
        let step = n.min(self.before.len());
        self.before.advance(step);
        step
    }

    /// Appends what is left to send.
    fn copy_to(&self, bytes: &mut Vec<u8>) -> Result<(), AllocError>
        ensures { OnOk result (bytes.new.items ≡ bytes.old.items ++ run_bytes self.now) }
    {
        bytes.extend_from_slice(self.before.as_slice())?;
        self.data_ins.copy_to(bytes)
    }
}

/// Returns the next bytes to send: of the first run, or, if there is none, all that waits after the runs.
pub(crate) fn front_of<'a>(runs: &'a VecDeque<Run>, tail: &'a BytesMut) -> &'a [u8]
    requires { AreRunning runs.now.items }
    ensures prefix { result.now ≡ take (length result.now) (flat_map run_bytes runs.now.items ++ tail.now.items) }
    ensures some { 0 < length (flat_map run_bytes runs.now.items ++ tail.now.items) → 0 < length result.now }
    ensures whole { deque_len runs.now ≡ 0 → result.now ≡ tail.now.items }
    ensures ends { AreInOrder runs.now.items tail.now.items → EndsPdu (flat_map run_bytes runs.now.items ++ tail.now.items) result.now }
{
    match runs.front() {
        None => tail.as_slice(),
        Some(run) => run.front(),
    }
}

/// Takes the small answers after the last run, with their room. If there are none, the room stays.
fn take_tail(tail: &mut BytesMut, alloc: Global) -> BytesMut
    ensures taken { result.items ≡ tail.old.items }
    ensures none { tail.new.items ≡ [] }
{
    let none = BytesMut::new(alloc);
    if tail.is_empty() {
        return none;
    }
    mem::replace(tail, none)
}

/// Appends a run, with the small answers before it. Allocates no memory.
#[tactic(auto, using(crate::proofs::Runs::running_more, crate::proofs::Runs::bytes_more))]
pub(crate) fn push_run(
    runs: &mut VecDeque<Run>,
    tail: &mut BytesMut,
    alloc: Global,
    data_ins: DataIns,
)
    requires slot { deque_len runs.old < deque_capacity runs.old }
    requires running { AreRunning runs.old.items }
    requires some { 0 < length data_ins }
    ensures bytes { flat_map run_bytes runs.new.items ++ tail.new.items ≡ flat_map run_bytes runs.old.items ++ tail.old.items ++ data_ins }
    ensures running { AreRunning runs.new.items }
    ensures len { deque_len runs.new ≡ deque_len runs.old + 1 }
    ensures capacity { deque_capacity runs.new ≡ deque_capacity runs.old }
    ensures order { AreInOrder runs.old.items tail.old.items → AreInOrder runs.new.items tail.new.items }
{
    let before = take_tail(tail, alloc);
    let data_ins = data_ins.into_unsent();
    runs.push_back_reserved(Run { before, data_ins });
}

/// Skips at most `n` bytes that were sent, as far as they lay together in the first run. Returns how many it skipped,
/// and the buffer of the run's data if the run is spent.
pub(crate) fn skip_in(runs: &mut VecDeque<Run>, n: usize) -> (usize, Option<BytesMut>)
    requires runs { 0 < deque_len runs.old }
    requires running { AreRunning runs.old.items }
    ensures within { result.0 ≤ n }
    ensures there { result.0 ≤ length (flat_map run_bytes runs.old.items) }
    ensures some { 0 < n → 0 < result.0 }
    ensures rest { flat_map run_bytes runs.new.items ≡ drop result.0 (flat_map run_bytes runs.old.items) }
    ensures running { AreRunning runs.new.items }
    ensures capacity { deque_capacity runs.new ≡ deque_capacity runs.old }
    ensures len { deque_len runs.new ≤ deque_len runs.old }
    ensures spent { IfSome result.1 (λ buffer. buffer.items ≡ []) }
    ensures order { (tail : List ℕ) → AreInOrder runs.old.items tail → AreInOrder runs.new.items tail }
{
    let run = &mut runs[0];
    let step = run.skip_some(n);
    if run.data_ins.rest() > 0 {
        return (step, None);
    }
    let spent = runs.pop_front().map(|run| run.data_ins.into_buffer());
    (step, spent)
}

/// Returns how many of `n` bytes are left after all runs, or `None` if the runs have more.
#[tactic(auto, using(crate::proofs::Runs::run_at))]
pub(crate) fn left_behind(runs: &VecDeque<Run>, n: usize) -> Option<usize>
    ensures some { IfSome result (λ left. left + length (flat_map run_bytes runs.now.items) ≡ n) }
    ensures none { IfNone result (n < length (flat_map run_bytes runs.now.items)) }
{
    let mut left = n;
    for place in 0..runs.len() {
        let run = &runs[place];
        left = left
            .checked_sub(run.before.len())?
            .checked_sub(run.data_ins.rest())?;
    }
    Some(left)
}

/// Appends what is left to send of all runs.
#[tactic(auto, using(crate::proofs::Runs::runs_copied, crate::proofs::Runs::runs_more))]
pub(crate) fn copy_runs(runs: &VecDeque<Run>, bytes: &mut Vec<u8>) -> Result<(), AllocError>
    ensures { OnOk result (bytes.new.items ≡ bytes.old.items ++ flat_map run_bytes runs.now.items) }
{
    for place in 0..runs.len() {
        runs[place].copy_to(bytes)?;
    }
    Ok(())
}
