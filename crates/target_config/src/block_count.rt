//! The size of a disk in memory.

ghost use Rattle.std.specs.Prelude.{◌≤◌};

/// The number of blocks of 512 bytes of a disk in memory.
#[derive(Clone, Copy)]
pub struct BlockCount {
    pub number: u64,
    ghost some: { 1 ≤ number },
    ghost bounded: { number ≤ 1048576 },
}
