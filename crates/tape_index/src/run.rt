//! Items of one size.

ghost use Rattle.std.specs.Prelude.{◌≡◌, ◌+◌, ◌-◌, ◌≤◌, ◌<◌, length};
ghost use Rattle.tape_index.specs.Index.{mark_size};
ghost use Rattle.tape_index.specs.Runs.{run_before, run_size, AreRecords};

/// The size of a filemark.
pub const MARK_SIZE: u32 = 8;

/// Consecutive items of one size, which follow those of the run before.
#[derive(Clone, Copy)]
pub(crate) struct Run {
    /// The number of items up to its last.
    pub count: u64,
    /// The offset at which its last ends.
    pub end: u64,
    /// The size of each.
    pub size: u32,
}

/// Returns the run before this one, which is the last if there are `many`. Before the first there is one of no items.
pub(crate) fn run_before(runs: &[Run], many: usize) -> Run
    requires { many ≤ length runs.now }
    ensures { result ≡ run_before runs.now many }
{
    if many > 0 {
        return runs[many - 1];
    }
    Run {
        count: 0,
        end: 0,
        size: 0,
    }
}

/// Finds the run with the item of this number: `near` if it has it, else by bisection.
pub(crate) fn run_of(runs: &[Run], number: u64, near: usize) -> usize
    requires { number < (run_before runs.now (length runs.now)).count }
    ensures within { result < length runs.now }
    ensures from { (run_before runs.now result).count ≤ number }
    ensures to { number < (run_before runs.now (result + 1)).count }
{
    if near < runs.len() && number < runs[near].count && run_before(runs, near).count <= number {
        return near;
    }
    let mut low = 0;
    let mut high = runs.len();
    while high - low > 1 {
        let middle = low + (high - low) / 2;
        if run_before(runs, middle).count <= number {
            low = middle;
        } else {
            high = middle;
        }
    }
    low
}

/// Returns the first run of filemarks from this one on, or the number of runs if none is left.
pub(crate) fn marks_from(runs: &[Run], from: usize) -> usize
    requires { from ≤ length runs.now }
    ensures from { from ≤ result }
    ensures within { result ≤ length runs.now }
    ensures records { AreRecords runs.now from result }
    ensures mark { result < length runs.now → run_size runs.now result ≡ mark_size }
{
    let mut run = from;
    while run < runs.len() && runs[run].size != MARK_SIZE {
        run += 1;
    }
    run
}

/// Returns the number of runs up to the last of filemarks among the first `many`, or 0 if there is none.
pub(crate) fn marks_before(runs: &[Run], many: usize) -> usize
    requires { many ≤ length runs.now }
    ensures within { result ≤ many }
    ensures records { AreRecords runs.now result many }
    ensures mark { 0 < result → run_size runs.now (result - 1) ≡ mark_size }
{
    let mut run = many;
    while run > 0 && runs[run - 1].size != MARK_SIZE {
        run -= 1;
    }
    run
}
