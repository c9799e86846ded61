//! The index.

ghost use Rattle.std.specs.Prelude.{◌≡◌, ◌+◌, ◌*◌, ◌^◌, ◌≤◌, ◌<◌, ◌++◌, [], length, sum, take, replicate, slice_index, IsOk, OnOk, OnErr, MatchOption};
ghost use Rattle.tape_index.specs.Index.{mark_size, most_size, Joins, HasRoom, IsLast, AreAround, AreAhead, sizes_ahead};
ghost use Rattle.tape_index.specs.SizeSpace.{past_records};

use crate::outcome::Direction;
use crate::run::{MARK_SIZE, Run, marks_before, marks_from, run_before, run_of};
use std::alloc::{AllocError, Global};
use std::marker::Model;

/// The sizes of the items of a file, which follow each other from offset 0 on.
#[derive(Drop)]
pub struct Index {
    runs: Vec<Run>,
}

impl Model for Index {
    ghost use Rattle.tape_index.specs.Index.{Items};

    ghost Value = { Items };

    ghost use Rattle.tape_index.specs.Runs.{items_of, IsIndex};

    ghost view = { items_of };

    ghost invariant = { IsIndex };
}

/// Consecutive items of one size.
#[derive(Clone, Copy)]
pub(crate) struct Alike {
    /// The number of the first.
    pub first: u64,
    /// The number after that of the last.
    pub next: u64,
    /// The offset at which the last ends.
    pub end: u64,
    /// The size of each.
    pub size: u32,
    /// The number of runs up to theirs.
    pub runs: usize,
}

/// Items of one size, next to a position in the direction of spacing.
#[derive(Clone, Copy)]
pub(crate) struct Ahead {
    pub many: u64,
    /// The size of each.
    pub size: u32,
    /// A run that may have the item after them.
    pub near: usize,
}

impl Index {
    /// Returns the index of no items.
    pub fn new(alloc: Global) -> Index
        ensures { result.sizes ≡ [] }
    {
        Index {
            runs: Vec::new(alloc),
        }
    }

    /// Returns the last run, or one of no items.
    fn last(&self) -> Run
        ensures { IsLast self.now.sizes result }
    {
        run_before(&self.runs, self.runs.len())
    }

    /// Returns the number of items.
    pub fn count(&self) -> u64
        ensures { result ≡ length self.now.sizes }
    {
        self.last().count
    }

    /// Returns the offset at which the last item ends.
    pub fn end(&self) -> u64
        ensures end { result ≡ sum self.now.sizes }
        ensures few { length self.now.sizes * mark_size ≤ result }
    {
        self.last().end
    }

    /// Finds the run that has the item of this number; `near` is tried first.
    fn run_at(&self, number: u64, near: usize) -> Alike
        requires { number < length self.now.sizes }
        ensures { AreAround self.now.sizes result number }
    {
        let i = run_of(&self.runs, number, near);
        let run = run_before(&self.runs, i + 1);
        Alike {
            first: run_before(&self.runs, i).count,
            next: run.count,
            end: run.end,
            size: run.size,
            runs: i + 1,
        }
    }

    /// Returns the offset at which the item of this number begins, or at which the last ends. It bisects the runs.
    pub fn place_of(&self, number: u64) -> u64
        requires { number ≤ length self.now.sizes }
        ensures { result ≡ sum (take number self.now.sizes) }
    {
        if number == self.count() {
            return self.end();
        }
        let run = self.run_at(number, 0);
        run.end - (run.next - number) * u64::from(run.size)
    }

    /// Returns the size of the item of this number. It bisects the runs.
    pub fn size_at(&self, number: u64) -> u32
        requires { number < length self.now.sizes }
        ensures size { result ≡ slice_index self.now.sizes number }
        ensures least { mark_size ≤ result }
        ensures most { result ≤ most_size }
    {
        self.run_at(number, 0).size
    }

    /// Returns the items of one size next to a position, or `None` at the edge. The run `near` is tried first.
    pub(crate) fn ahead(&self, toward: Direction, at: u64, near: usize) -> Option<Ahead>
        requires { at ≤ length self.now.sizes }
        ensures { MatchOption result (sizes_ahead toward at self.now.sizes ≡ []) (λ ahead. AreAhead toward at self.now.sizes ahead) }
    {
        match toward {
            Direction::Forward => {
                if at == self.count() {
                    return None;
                }
                let Alike {
                    next,
                    size,
                    runs,
                    ..
                } = self.run_at(at, near);
                let many = next - at;
                let near = runs;
                Some(Ahead { many, size, near })
            }
            Direction::Backward => {
                if at == 0 {
                    return None;
                }
                let Alike {
                    first,
                    size,
                    runs,
                    ..
                } = self.run_at(at - 1, near);
                let many = at - first;
                let near = runs.saturating_sub(2);
                Some(Ahead { many, size, near })
            }
        }
    }

    /// Passes the records next to a position. Returns where they end, and the filemarks of one run there. Of each run
    /// of records only the size is read.
    pub(crate) fn marks_ahead(
        &self,
        toward: Direction,
        at: u64,
        near: usize,
    ) -> (u64, Option<Ahead>)
        requires { at ≤ length self.now.sizes }
        ensures past { result.0 ≡ past_records toward at self.now.sizes }
        ensures ahead { MatchOption result.1 (sizes_ahead toward result.0 self.now.sizes ≡ [])
            (λ ahead. AreAhead toward result.0 self.now.sizes ahead) }
    {
        let size = MARK_SIZE;
        match toward {
            Direction::Forward => {
                let count = self.count();
                if at == count {
                    return (at, None);
                }
                let run = marks_from(&self.runs, run_of(&self.runs, at, near));
                if run == self.runs.len() {
                    return (count, None);
                }
                let start = run_before(&self.runs, run).count.max(at);
                let near = run + 1;
                let many = run_before(&self.runs, near).count - start;
                (start, Some(Ahead { many, size, near }))
            }
            Direction::Backward => {
                if at == 0 {
                    return (at, None);
                }
                let runs = marks_before(&self.runs, run_of(&self.runs, at - 1, near) + 1);
                if runs == 0 {
                    return (0, None);
                }
                let start = run_before(&self.runs, runs).count.min(at);
                let many = start - run_before(&self.runs, runs - 1).count;
                let near = runs.saturating_sub(2);
                (start, Some(Ahead { many, size, near }))
            }
        }
    }

    /// Reserves room for one more run. If that fails, nothing has changed.
    pub fn reserve_one(&mut self) -> Result<(), AllocError>
        ensures sizes { self.new.sizes ≡ self.old.sizes }
        ensures ok { OnOk result (0 < self.new.room) }
        ensures room { self.old.room ≤ self.new.room }
        ensures succeeds { 0 < self.old.room → IsOk result }
        ensures err { OnErr result (self.new ≡ self.old) }
    {
        self.runs.reserve(1)
    }

    /// Appends `many` items of a size. There is room for a run, or the last item has this size.
    pub fn push_reserved(&mut self, size: u32, many: u64)
        requires least { mark_size ≤ size }
        requires most { size ≤ most_size }
        requires some { 0 < many }
        requires fits { sum self.old.sizes + many * size < 2 ^ 64 }
        requires room { HasRoom size self.old }
        ensures sizes { self.new.sizes ≡ self.old.sizes ++ replicate many size }
        ensures joined { Joins size self.old.sizes → self.new.room ≡ self.old.room }
        ensures room { self.old.room ≤ self.new.room + 1 }
    {
        let last = self.last();
        if last.size == size {
            self.runs.pop();
        }
        self.runs.push_reserved(Run {
            count: last.count + many,
            end: last.end + many * u64::from(size),
            size,
        });
    }

    /// Appends `many` items of a size. It takes no memory if the last item has this size, and if it fails, nothing has
    /// changed.
    pub fn push(&mut self, size: u32, many: u64) -> Result<(), AllocError>
        requires least { mark_size ≤ size }
        requires most { size ≤ most_size }
        requires some { 0 < many }
        requires fits { sum self.old.sizes + many * size < 2 ^ 64 }
        ensures ok { OnOk result (self.new.sizes ≡ self.old.sizes ++ replicate many size) }
        ensures succeeds { HasRoom size self.old → IsOk result }
        ensures err { OnErr result (self.new ≡ self.old) }
    {
        if self.last().size != size {
            self.reserve_one()?;
        }
        self.push_reserved(size, many);
        Ok(())
    }

    /// Keeps the first `count` items, or all if there are fewer.
    pub fn truncate(&mut self, count: u64)
        ensures sizes { self.new.sizes ≡ take count self.old.sizes }
        ensures room { self.old.room ≤ self.new.room }
    {
        if count >= self.count() {
            return;
        }
        if count == 0 {
            self.runs.clear();
            return;
        }
        let end = self.place_of(count);
        let i = run_of(&self.runs, count - 1, 0);
        let size = run_before(&self.runs, i + 1).size;
        self.runs.truncate(i);
        self.runs.push_reserved(Run { count, end, size });
    }
}
