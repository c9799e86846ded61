//! The sequence numbers of answers.

ghost use Rattle.std.specs.Prelude.{◌≡◌, ℕ, suc};
ghost use Rattle.iscsi_order.specs.Stat.{stat_sn};

use std::marker::Model;

/// The StatSN of a connection (RFC 7143 §4.2.2.2). It counts the answers that bear status. Clauses see it as the number
/// that [`Stat::now`] returns.
#[derive(Drop)]
pub struct Stat {
    next: u32,
}

impl Model for Stat {
    ghost use Rattle.std.specs.Prelude.{ℕ};

    ghost Value = { ℕ };

    ghost view = { λ stat. stat.next };
}

impl Stat {
    /// Creates a counter: the next answer that bears status has StatSN `n`.
    pub fn new(n: u32) -> Stat
        ensures { result ≡ n }
    {
        Stat { next: n }
    }

    /// Returns the StatSN of an answer that bears status, and counts that answer. The answer after it has the next
    /// number.
    pub fn next(&mut self) -> u32
        ensures number { (answered : ℕ) → self.old ≡ stat_sn answered → result ≡ stat_sn answered }
        ensures counted { (answered : ℕ) → self.old ≡ stat_sn answered → self.new ≡ stat_sn (suc answered) }
    {
        let number = self.next;
        self.next = number.wrapping_add(1);
        number
    }

    /// Returns the StatSN that the next answer which bears status will have. An R2T carries it and does not use it (RFC
    /// 7143 §11.8).
    pub fn now(&self) -> u32
        ensures { (answered : ℕ) → self.now ≡ stat_sn answered → result ≡ stat_sn answered }
    {
        self.next
    }
}
