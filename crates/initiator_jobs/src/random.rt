//! Numbers that a seed decides.

ghost use Rattle.std.specs.Prelude.{◌≤◌};

/// SplitMix64 (Steele, Lea and Flood, 2014).
#[derive(Clone, Copy)]
pub struct Random {
    state: u64,
}

impl Random {
    /// Returns the generator with this seed.
    pub fn new(seed: u64) -> Random {
        Random { state: seed }
    }

    /// Returns the generator of another stream of the same seed.
    pub fn stream(self, number: usize) -> Random {
        let mut other = Random {
            state: self.state ^ (number as u64).wrapping_mul(0xd6e8_feb8_6659_fd93),
        };
        Random::new(other.number())
    }

    /// Returns the next number.
    pub fn number(&mut self) -> u64 {
        self.state = self.state.wrapping_add(0x9e37_79b9_7f4a_7c15);
        let mut mixed = self.state;
        mixed = (mixed ^ (mixed >> 30)).wrapping_mul(0xbf58_476d_1ce4_e5b9);
        mixed = (mixed ^ (mixed >> 27)).wrapping_mul(0x94d0_49bb_1331_11eb);
        mixed ^ (mixed >> 31)
    }

    /// Returns the next number below `end`, or 0 if `end` is 0.
    pub fn below(&mut self, end: usize) -> usize
        ensures { result ≤ end }
    {
        if end == 0 {
            return 0;
        }
        (self.number() % end as u64) as usize
    }

    /// Returns `true` about once in `times` times.
    pub fn once_in(&mut self, times: usize) -> bool {
        self.below(times) == 0
    }
}
