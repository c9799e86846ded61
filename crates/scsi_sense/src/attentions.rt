//! Unit attention conditions.

ghost use Rattle.std.specs.Prelude.{◌≡◌, [], drop};
ghost use Rattle.scsi_sense.specs.Attentions.{first, is_raised, raised};

use crate::condition::Attention;
use arrayvec::ArrayVec;
use std::marker::Model;

/// The most conditions that are kept: each of them once.
const MOST: usize = 8;

/// The unit attention conditions that have not yet been reported to an initiator, in the order in which they were
/// established (SAM-5 "Unit attention condition"). No condition is in the list twice. It allocates nothing.
#[derive(Drop)]
pub struct Attentions {
    pending: ArrayVec<Attention, MOST>,
}

impl Model for Attentions {
    ghost use Rattle.std.specs.Prelude.{List};
    ghost use Rattle.scsi_sense.specs.declared.condition.Attention.{Attention};

    ghost Value = { List Attention };

    ghost view = { λ kept. kept.pending.items };
}

impl Attentions {
    /// Returns no condition.
    pub fn new() -> Attentions
        ensures { result ≡ [] }
    {
        Attentions {
            pending: ArrayVec::new(),
        }
    }

    /// Establishes a condition, after the others, unless it is pending already.
    pub fn raise(&mut self, attention: Attention)
        ensures { self.new ≡ raised attention self.old }
    {
        if !is_raised(self.pending.as_slice(), attention) && !self.pending.is_full() {
            self.pending.push(attention);
        }
    }

    /// Returns the oldest condition, which is reported next.
    pub fn first(&self) -> Option<Attention>
        ensures { result ≡ first self.now }
    {
        self.pending.first().copied()
    }

    /// Clears the oldest condition, if there is one.
    pub fn clear_first(&mut self)
        ensures { self.new ≡ drop 1 self.old }
    {
        if !self.pending.is_empty() {
            let _ = self.pending.remove(0);
        }
    }
}

impl Default for Attentions {
    ghost is_default = { λ kept. kept ≡ [] };

    fn default() -> Attentions {
        Attentions::new()
    }
}

/// Returns whether the condition is one of these.
fn is_raised(pending: &[Attention], attention: Attention) -> bool
    ensures { result ≡ is_raised attention pending.now }
{
    pending
        .iter()
        .any(|other| other.number() == attention.number())
}
