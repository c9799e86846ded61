//! The window of a session's command numbers.

ghost use Rattle.std.specs.Prelude.{◌≡◌, ◌<◌, ◌-◌, ◌++◌, false, is_some, slice_index_or, slice_set, length, map, take, drop, replicate, None, if◌then◌else◌};
ghost use Rattle.std.specs.List.{prefix_len};
ghost use Rattle.iscsi_order.specs.Window.{Past, begun, is_new as is_new_in, arrived, arrival_of, handed_over, next_of, finished_one, numbers_of};
ghost use Rattle.iscsi_order.specs.WindowState.{Stands, marked, is_vacant, key_at, with_key, turned};
ghost use Rattle.iscsi_order.specs.declared.window.Arrival.TheVariants.{New, Ignored};

use std::marker::Model;

/// How many requests of a session may be unfinished.
const WINDOW: usize = 32;

/// What becomes of a numbered request.
#[derive(Clone, Copy)]
pub enum Arrival {
    /// It is taken in its turn.
    New,
    /// Its number is outside the window, or has come before (RFC 7143 §4.2.2.1).
    Ignored,
}

/// The two numbers of the window that an answer carries (RFC 7143 §4.2.2.1).
#[derive(Clone, Copy)]
pub struct CommandNumbers {
    /// ExpCmdSN: the number after all that are taken.
    pub exp_cmd_sn: u32,
    /// MaxCmdSN: the last number that is not ignored.
    pub max_cmd_sn: u32,
}

/// The numbers of a session's requests (RFC 7143 §4.2.2.1). Those that came ahead of a missing one are held until it
/// comes. At most 32 requests are unfinished. Each number that has come is held with a key that the caller chooses.
/// Clauses see a window as what it remembers of all that came and was finished.
#[derive(Drop)]
pub struct Window {
    /// The next number to hand over.
    next: u32,
    /// How many numbers were handed over and are not finished.
    unfinished: usize,
    /// The keys of the numbers from `next` on; `None` for a number that has not come.
    held: [Option<usize>; WINDOW],
    /// Whether a number after `next` may have come. Where all come in order, no key is ever moved.
    is_ahead: bool,
}

impl Model for Window {
    ghost use Rattle.std.specs.Prelude.{◌≡◌, false, map, is_some, drop, replicate, None};
    ghost use Rattle.iscsi_order.specs.WindowState.{WindowKeys, IsWithin};

    ghost Value = { WindowKeys };

    ghost view = { λ w. record { next = w.next; unfinished = w.unfinished; keys = w.held } };

    ghost invariant = { λ w. IsWithin w.unfinished (map is_some w.held) × (w.is_ahead ≡ false → drop 1 w.held ≡ replicate 31 None) };
}

impl Window {
    /// Creates a window before its first request, whose number is to be `first`.
    #[tactic(auto, unfolding(crate::specs::Window::taken, crate::specs::WindowState::remembered))]
    pub fn new(first: u32) -> Window
        ensures stands { Stands (begun first) (marked result) }
        ensures empty { result ≡ record { next = first; unfinished = 0; keys = replicate 32 None } }
    {
        Window {
            next: first,
            unfinished: 0,
            held: [None; WINDOW],
            is_ahead: false,
        }
    }

    /// Records the arrival of a request that is not immediate, with CmdSN `n`. If its number is new, it is held with
    /// this key. Otherwise nothing changes.
    pub fn arrive(&mut self, n: u32, key: usize) -> Arrival
        ensures arrival { (past : Past) → Stands past (marked self.old) → result ≡ arrival_of past n }
        ensures stands { (past : Past) → Stands past (marked self.old) → Stands (arrived past n) (marked self.new) }
        ensures vacant { result ≡ (if is_vacant self.old n then New else Ignored) }
        ensures key { self.new ≡ with_key n key self.old }
    {
        let ahead = n.wrapping_sub(self.next) as usize;
        if ahead >= WINDOW - self.unfinished || self.held[ahead].is_some() {
            return Arrival::Ignored;
        }
        self.held[ahead] = Some(key);
        self.is_ahead |= ahead > 0;
        Arrival::New
    }

    /// Returns whether a request with CmdSN `n` would be new ([`Window::arrive`]).
    pub fn is_new(&self, n: u32) -> bool
        ensures past { (past : Past) → Stands past (marked self.now) → result ≡ is_new_in past n }
        ensures vacant { result ≡ is_vacant self.now n }
    {
        let place = n.wrapping_sub(self.next) as usize;
        place < WINDOW - self.unfinished && self.held[place].is_none()
    }

    /// Hands over the key of the next number, if it and all before it have come. Each key is handed over once, in
    /// order.
    pub fn take(&mut self) -> Option<usize>
        ensures number { (past : Past) → Stands past (marked self.old) → is_some result ≡ is_some (next_of past) }
        ensures stands { (past : Past) → Stands past (marked self.old) → Stands (handed_over past) (marked self.new) }
        ensures key { result ≡ slice_index_or self.old.keys 0 None }
        ensures turned { self.new ≡ turned self.old }
    {
        let key = self.held[0]?;
        turn(&mut self.held, self.is_ahead);
        self.next = self.next.wrapping_add(1);
        self.unfinished += 1;
        Some(key)
    }

    /// Finishes a request that was handed over, so that one more may come. If none is unfinished, nothing changes.
    pub fn finish(&mut self)
        ensures stands { (past : Past) → Stands past (marked self.old) → past.finished < past.handed → Stands (finished_one past) (marked self.new) }
        ensures fewer { self.new ≡ record self.old { unfinished = self.old.unfinished - 1 } }
    {
        if self.unfinished > 0 {
            self.unfinished -= 1;
        }
    }

    /// Returns the key of the request with CmdSN `n`, if it has come and is not handed over.
    pub fn key_of(&self, n: u32) -> Option<usize>
        ensures { result ≡ key_at self.now n }
    {
        let place = n.wrapping_sub(self.next) as usize;
        match self.held.get(place) {
            Some(key) => *key,
            None => None,
        }
    }

    /// Returns a slot for each number from the next to hand over on, with the key of each number that has come.
    pub fn held(&self) -> &[Option<usize>]
        ensures value { result.now ≡ self.now.keys }
        ensures len { length self.now.keys ≡ 32 }
    {
        &self.held
    }

    /// Returns ExpCmdSN and MaxCmdSN.
    pub fn numbers(&self) -> CommandNumbers
        ensures { (past : Past) → Stands past (marked self.now) → result ≡ numbers_of past }
    {
        let ahead = front(&self.held) as u32;
        let room = (WINDOW - self.unfinished) as u32;
        CommandNumbers {
            exp_cmd_sn: self.next.wrapping_add(ahead),
            max_cmd_sn: self.next.wrapping_add(room).wrapping_sub(1),
        }
    }
}

/// Returns how many of these are held, up to the first that is not.
fn front(held: &[Option<usize>]) -> usize
    ensures { result ≡ prefix_len (λ key. is_some key) held.now }
{
    held.iter().take_while(|key| key.is_some()).count()
}

/// Removes the first key, and moves those after it one place to the front, if there may be any.
fn turn(held: &mut [Option<usize>; WINDOW], is_ahead: bool)
    requires { is_ahead ≡ false → drop 1 held.old ≡ replicate 31 None }
    ensures turned { held.new ≡ drop 1 (slice_set held.old 0 None) ++ take 1 (slice_set held.old 0 None) }
    ensures none { is_ahead ≡ false → drop 1 held.new ≡ replicate 31 None }
{
    held[0] = None;
    if is_ahead {
        held.rotate_left(1);
    }
}
