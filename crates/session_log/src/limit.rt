//! How many lines may be written in a second.

/// Counts lines second by second.
#[derive(Clone, Copy)]
pub(crate) struct Limit {
    /// The most lines that are written in a second.
    most: u32,
    second: u64,
    /// The number of lines that were written in this second.
    written: u32,
    /// The number of lines left out that no line has reported yet.
    left_out: u64,
}

impl Limit {
    pub(crate) fn new(most: u32) -> Limit {
        Limit {
            most,
            second: 0,
            written: 0,
            left_out: 0,
        }
    }

    /// Returns whether a line of this second is written. Counts it if it is not.
    pub(crate) fn allows(&mut self, second: u64) -> bool {
        if second != self.second {
            self.second = second;
            self.written = 0;
        }
        if self.written >= self.most {
            self.left_out = self.left_out.saturating_add(1);
            return false;
        }
        self.written += 1;
        true
    }

    /// Takes the number of lines that were left out before this second. They are not reported again.
    pub(crate) fn take_left_out(&mut self, second: u64) -> u64 {
        if second == self.second {
            return 0;
        }
        let left_out = self.left_out;
        self.left_out = 0;
        left_out
    }
}
