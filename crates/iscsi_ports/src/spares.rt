//! Buffers that are kept for the next reads.
//!
//! A buffer that is kept lies above memory that was freed since, which then stays with the process. So all are dropped once
//! the process is idle: a poll waits no longer than a second while one is kept, and drops them if it met no event.

ghost use Rattle.std.specs.Prelude.{◌≡◌, ◌≢◌, ◌==◌, ◌≤◌, ◌<◌, [], true, false, length, option_map, vec_capacity, IsSome, IfSome};
ghost use Rattle.std.specs.Duration.{as_nanos};
ghost use Rattle.iscsi_ports.specs.ReadBuffer.{bytes_in};
ghost use Rattle.iscsi_ports.specs.Spares as spares;

use crate::asking::shortly;
use crate::read_buffer::{FEW, ReadBuffer, WholeBuffer, count_ahead};
use std::alloc::{AllocError, Global};
use std::time::Duration;

/// The most buffers that are kept.
const MOST_KEPT: usize = 16;

/// The number of reads after which those buffers are dropped that none of these reads needed.
const PERIOD: u32 = 1_024;

/// As many buffers as reads needed at once of late, and 16 at most.
#[derive(Drop)]
pub(crate) struct Spares {
    buffers: Vec<WholeBuffer>,
    /// The number that is kept: one more each time that none was left.
    wanted: usize,
    /// The least number that was left in this period.
    unused: usize,
    /// The number of reads in this period.
    reads: u32,
    alloc: Global,
    ghost kept: { length buffers.items ≤ wanted },
    ghost few: { wanted ≤ 16 },
    ghost period: { reads < 1024 },
}

/// Returns whether a poll was idle: it waited for as long as this, and met no event.
fn is_idle(waited: Option<Duration>, met_event: bool) -> bool
    ensures { result ≡ spares.is_idle (option_map as_nanos waited) met_event }
{
    !met_event && waited != Some(Duration::ZERO)
}

impl Spares {
    /// Makes room for the buffers, of which none is there yet.
    pub(crate) fn new(alloc: Global) -> Result<Spares, AllocError> {
        Ok(Spares {
            buffers: Vec::with_capacity(alloc, MOST_KEPT)?,
            wanted: 0,
            unused: 0,
            reads: 0,
            alloc,
        })
    }

    /// Counts a read, and ends the period after its last one.
    fn count_read(&mut self) {
        if self.reads + 1 < PERIOD {
            self.reads += 1;
            return;
        }
        self.reads = 0;
        self.wanted = self.wanted.saturating_sub(self.unused);
        self.buffers.truncate(self.wanted);
        self.unused = self.buffers.len();
    }

    /// Returns whether none is kept.
    pub(crate) fn is_empty(&self) -> bool
        ensures { result ≡ (length self.now.buffers.items == 0) }
    {
        self.buffers.is_empty()
    }

    /// Returns a buffer to read into: one that is kept, or a new one. None if an allocation fails.
    pub(crate) fn take(&mut self) -> Option<WholeBuffer>
        ensures { self.old.buffers.items ≢ [] → IsSome result }
    {
        let kept = self.buffers.pop();
        if kept.is_none() {
            self.wanted = MOST_KEPT.min(self.wanted + 1);
        }
        self.unused = self.unused.min(self.buffers.len());
        self.count_read();
        match kept {
            Some(buffer) => Some(buffer),
            None => WholeBuffer::new(self.alloc).ok(),
        }
    }

    /// Keeps a buffer for a later read, if it is wanted.
    pub(crate) fn keep(&mut self, buffer: WholeBuffer) {
        let count = self.buffers.len();
        if count < self.wanted && count < self.buffers.capacity() {
            self.buffers.push_reserved(buffer);
        }
    }

    /// Keeps the buffer of what was ahead for a later read, if it is a whole one.
    pub(crate) fn keep_whole(&mut self, buffer: ReadBuffer) {
        if let Some(whole) = buffer.into_whole() {
            self.keep(whole);
        }
    }

    /// Returns what is ahead in a buffer that fits: few bytes in one of their own length, so that the whole one is kept
    /// for the next read.
    pub(crate) fn fit(&mut self, ahead: ReadBuffer) -> Option<ReadBuffer>
        ensures { bytes_in result ≡ ahead }
    {
        let count = ahead.len();
        if count > FEW {
            return Some(ahead);
        }
        if count == 0 {
            self.keep_whole(ahead);
            return None;
        }
        match ReadBuffer::copied(self.alloc, ahead.as_slice()) {
            Ok(short) => {
                self.keep_whole(ahead);
                Some(short)
            }
            Err(AllocError) => Some(ahead),
        }
    }

    /// Makes an empty buffer with room for `count` bytes, for what may come after the room of a reader. None if an allocation fails.
    pub(crate) fn few(&self, count: usize) -> Option<Vec<u8>>
        ensures empty { IfSome result (λ few. few.items ≡ []) }
        ensures room { IfSome result (λ few. vec_capacity few ≡ count) }
    {
        Vec::with_capacity(self.alloc, count).ok()
    }

    /// Returns for how long a poll waits that would wait for this long: no longer than a second while a buffer is kept.
    pub(crate) fn wait_beside(&self, wait: Option<Duration>) -> Option<Duration>
        ensures { option_map as_nanos result ≡ spares.wait_beside (length self.now.buffers.items) (option_map as_nanos wait) }
    {
        if self.buffers.is_empty() {
            return wait;
        }
        shortly(wait)
    }

    /// Drops all buffers after a poll that waited for as long as this, if it was idle, and forgets how many were needed.
    pub(crate) fn drop_idle(&mut self, waited: Option<Duration>, met_event: bool)
        ensures idle { spares.is_idle (option_map as_nanos waited) met_event ≡ true → length self.new.buffers.items ≡ 0 }
        ensures other { spares.is_idle (option_map as_nanos waited) met_event ≡ false → self.new ≡ self.old }
    {
        if !is_idle(waited, met_event) {
            return;
        }
        self.buffers.clear();
        self.wanted = 0;
        self.unused = 0;
        self.reads = 0;
    }
}

/// Keeps the buffer for a later read, if nothing is ahead any more.
pub(crate) fn give_back(place: &mut Option<ReadBuffer>, spares: &mut Spares)
    ensures { bytes_in place.new ≡ bytes_in place.old }
{
    if count_ahead(place) == 0 {
        if let Some(empty) = place.take() {
            spares.keep_whole(empty);
        }
    }
}
