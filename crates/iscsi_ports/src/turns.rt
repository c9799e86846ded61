//! Whom a poll names of the connections that are ready.
//!
//! A connection is long from a write on that was offered 65,536 bytes or more, until fewer are offered after bytes of
//! it were read; before that it is short. Of the long ones that are ready a poll names one, each in its turn: so the
//! answers of one are on their way before those of the next are made, however many there are.
//!
//! How much a short one asks for shows once it is answered. So a poll names eight short ones more than the last poll, and
//! eight fewer for each that became long since, but always one. Those that are left out come first in the next poll.
//!
//! If nothing came of a poll that left one out, the next names all.

ghost use Rattle.std.specs.Prelude.{◌≡◌, ◌<◌, ◌==◌, nat_le, ◌&&◌, not, false, ℕ, slice_set, IfSome};
ghost use Rattle.iscsi_ports.specs.Flags.{flag_of};
ghost use Rattle.iscsi_ports.specs.Turns.{no_turns, after_offer, after_carrying, due_from, due_count, turn, short_from, IsPart, NamesSome, TakesTurn};
ghost use Rattle.iscsi_ports.specs.Turns as turns;

use crate::readiness::set_where;
use target_limits::CONNECTIONS;

/// A connection whose last write was offered this number of bytes is long.
const LONG: usize = 65_536;

/// How many more short connections a poll names than the last one, and how many fewer for each that became long.
const STEP: usize = 8;

/// How many short connections a poll names at most, besides the first of them.
const MOST_MORE: usize = CONNECTIONS - 1;

/// Which connections are long, and which of them and of the short ones are named next.
#[derive(Clone, Copy)]
pub(crate) struct Turns {
    long: [bool; CONNECTIONS],
    /// The number from which on a poll looks for the next long one.
    cursor: usize,
    /// The number from which on a poll names short ones.
    first: usize,
    /// How many short ones a poll may name besides the first of them.
    more: usize,
    /// The last poll left out one that is ready, and nothing was carried since.
    left_out: bool,
}

/// The short connections that a poll names.
#[derive(Clone, Copy)]
struct Part {
    named: [bool; CONNECTIONS],
    count: usize,
    /// The first one after them that is ready, or 64.
    next: usize,
}

/// Returns how many short connections a poll may name besides the first, after a write that may have made one long.
fn more_after_offer(becomes_long: bool, more: usize) -> usize
    ensures { result ≡ turns.more_after_offer becomes_long more }
{
    if becomes_long {
        more.saturating_sub(STEP)
    } else {
        more
    }
}

impl Part {
    /// Returns the number from which on the next poll names short connections.
    fn first_after(&self) -> usize
        ensures { result ≡ turns.first_after self.now }
    {
        if self.next < CONNECTIONS {
            self.next
        } else {
            0
        }
    }
}

impl Turns {
    /// Returns turns in which none is long.
    pub(crate) fn new() -> Turns
        ensures { result ≡ no_turns }
    {
        Turns {
            long: [false; CONNECTIONS],
            cursor: 0,
            first: 0,
            more: STEP - 1,
            left_out: false,
        }
    }

    /// Takes note of how many bytes a write of a connection is offered.
    pub(crate) fn offer(&mut self, c: usize, offered: usize, has_read: bool)
        requires { c < 64 }
        ensures { self.new ≡ after_offer c offered has_read self.old }
    {
        let is_long = offered >= LONG;
        self.more = more_after_offer(is_long && !self.long[c], self.more);
        set_where(is_long || has_read, &mut self.long, c, is_long);
    }

    /// Takes note that a connection has come or was closed.
    pub(crate) fn forget(&mut self, c: usize)
        requires { c < 64 }
        ensures { self.new ≡ record self.old { long = slice_set self.old.long c false } }
    {
        self.long[c] = false;
    }

    /// Takes note of whether something was carried since the last poll.
    pub(crate) fn note_carried(&mut self, carried: bool)
        ensures { self.new ≡ after_carrying carried self.old }
    {
        self.left_out &= !carried;
    }

    /// Returns whether the last poll left out a connection that is ready.
    pub(crate) fn left_out(&self) -> bool
        ensures { result ≡ self.now.left_out }
    {
        self.left_out
    }

    /// Returns the first long connection from this number on that is ready.
    fn due_from(&self, ready: &[bool; CONNECTIONS], from: usize) -> Option<usize>
        ensures first { result ≡ due_from ready.now self.now from }
        ensures range { IfSome result (λ c. c < 64) }
    {
        for c in from..CONNECTIONS {
            if ready[c] && self.long[c] {
                return Some(c);
            }
        }
        None
    }

    /// Returns the long connection whose turn it is, of those that are ready.
    fn turn(&self, ready: &[bool; CONNECTIONS]) -> Option<usize>
        ensures turn { result ≡ turn ready.now self.now }
        ensures range { IfSome result (λ c. c < 64) }
    {
        match self.due_from(ready, self.cursor) {
            Some(c) => Some(c),
            None => self.due_from(ready, 0),
        }
    }

    /// Takes the long connections from those that are ready. Returns how many these are.
    fn pass_over(&self, named: &mut [bool; CONNECTIONS]) -> usize
        ensures count { result ≡ due_count named.old self.now }
        ensures named { (c : ℕ) → c < 64 → flag_of c named.new ≡ (flag_of c named.old && not (flag_of c self.now.long)) }
    {
        // A byte, so that the compiler counts 16 at a time: there is a poll for each PDU.
        let mut count: u8 = 0;
        for c in 0..CONNECTIONS {
            if named[c] & self.long[c] {
                count += 1;
            }
            named[c] &= !self.long[c];
        }
        usize::from(count)
    }

    /// Returns the number from which on a poll names short connections.
    fn start(&self) -> usize
        ensures { result ≡ turns.start_of self.now }
    {
        if self.first < CONNECTIONS {
            self.first
        } else {
            0
        }
    }

    /// Counts the short connections that are ready.
    fn count_short(&self, ready: &[bool; CONNECTIONS]) -> usize
        ensures { result ≡ short_from ready.now self.now 0 }
    {
        // A byte, so that the compiler counts 16 at a time: there is a poll for each PDU.
        let mut count: u8 = 0;
        for c in 0..CONNECTIONS {
            if ready[c] & !self.long[c] {
                count += 1;
            }
        }
        usize::from(count)
    }

    /// Chooses the short connections that are ready from the start on, as many as a poll may name.
    fn choose(&self, ready: &[bool; CONNECTIONS]) -> Part
        ensures { IsPart ready.now self.now result }
    {
        let mut chosen = [false; CONNECTIONS];
        let mut count = 0;
        for c in self.start()..CONNECTIONS {
            if ready[c] & !self.long[c] {
                if count > self.more {
                    return Part {
                        named: chosen,
                        count,
                        next: c,
                    };
                }
                chosen[c] = true;
                count += 1;
            }
        }
        Part {
            named: chosen,
            count,
            next: CONNECTIONS,
        }
    }

    /// Returns whether a poll names all short connections, of which this number is ready.
    fn names_all(&self, count: usize) -> bool
        ensures { result ≡ ((turns.start_of self.now == 0) && nat_le count self.now.more) }
    {
        self.start() == 0 && count <= self.more
    }

    /// Returns the part of the short connections that a poll names: this number of them is ready.
    fn part(&self, ready: &[bool; CONNECTIONS], short: &[bool; CONNECTIONS], count: usize) -> Part
        requires counted { count ≡ short_from ready.now self.now 0 }
        requires short { (c : ℕ) → c < 64 → flag_of c short.now ≡ (flag_of c ready.now && not (flag_of c self.now.long)) }
        ensures { IsPart ready.now self.now result }
    {
        if self.names_all(count) {
            return Part {
                named: *short,
                count,
                next: CONNECTIONS,
            };
        }
        self.choose(ready)
    }

    /// Returns how many short connections the next poll may name besides the first, after one that named these.
    fn more_after(&self, asked: bool, part: &Part) -> usize
        ensures { result ≡ turns.more_after asked part.now self.now }
    {
        if part.next < CONNECTIONS || self.start() > 0 {
            return self.more.saturating_add(STEP).min(MOST_MORE);
        }
        if !asked && part.count == 0 {
            return self.more;
        }
        part.count.saturating_add(STEP - 1).min(MOST_MORE)
    }

    /// Takes from those that are ready the long connections whose turn it is not, and the short ones that are too many.
    fn take_some(&mut self, ready: &[bool; CONNECTIONS], asked: bool) -> [bool; CONNECTIONS]
        ensures { NamesSome asked ready.now self.old self.new result }
    {
        let mut short = *ready;
        let due = self.pass_over(&mut short);
        let count = self.count_short(ready);
        let part = self.part(ready, &short, count);
        self.left_out = (due > 1) | (part.count < count);
        self.more = self.more_after(asked, &part);
        self.first = part.first_after();
        let mut named = part.named;
        if due == 0 {
            return named;
        }
        if let Some(c) = self.turn(ready) {
            named[c] = true;
            self.cursor = c + 1;
        }
        named
    }

    /// Takes from those that are ready the ones that a poll leaves out, which asked the system or not. Takes none if
    /// nothing came of the last poll, which left one out.
    pub(crate) fn take(&mut self, ready: &[bool; CONNECTIONS], asked: bool) -> [bool; CONNECTIONS]
        ensures { TakesTurn asked ready.now self.old self.new result }
    {
        if self.left_out {
            self.left_out = false;
            return *ready;
        }
        self.take_some(ready, asked)
    }
}
