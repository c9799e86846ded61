//! Whether a short time has passed.

ghost use Rattle.std.specs.Prelude.{◌≡◌};

use libc::clock_gettime;
use libc::types::timespec;

/// The clock of Linux that goes on by ticks of 1 to 10 milliseconds (clock_gettime(2)). To read it takes a third of
/// what CLOCK_MONOTONIC takes, and it is read in most turns.
const CLOCK_MONOTONIC_COARSE: i32 = 6;

/// How many microseconds are a short time.
const SHORT: u64 = 1_000;

/// Tells whether a millisecond has passed since it was started, at the next tick of the clock.
#[derive(Clone, Copy)]
pub(crate) struct Stopwatch {
    /// When it was started, in microseconds of the clock.
    started: u64,
    /// The millisecond had passed when it was last looked at.
    pub(crate) has_passed: bool,
}

/// Returns the microseconds of the clock. 0 if it cannot be read.
fn now() -> u64 {
    let mut time = timespec {
        tv_sec: 0,
        tv_nsec: 0,
    };
    if clock_gettime(CLOCK_MONOTONIC_COARSE, &mut time) != 0 {
        return 0;
    }
    let seconds = u64::try_from(time.tv_sec).unwrap_or(0);
    let nanoseconds = u64::try_from(time.tv_nsec).unwrap_or(0);
    seconds
        .saturating_mul(1_000_000)
        .saturating_add(nanoseconds / 1_000)
}

impl Stopwatch {
    /// Starts a stopwatch now.
    pub(crate) fn start() -> Stopwatch {
        Stopwatch {
            started: now(),
            has_passed: false,
        }
    }

    /// Starts it again now.
    pub(crate) fn restart(&mut self)
        ensures { self.new.has_passed ≡ self.old.has_passed }
    {
        self.started = now();
    }

    /// Looks at it. Returns whether the millisecond has passed.
    pub(crate) fn look(&mut self) -> bool
        ensures { result ≡ self.new.has_passed }
    {
        self.has_passed = now().saturating_sub(self.started) >= SHORT;
        self.has_passed
    }
}
