//! A digest of a stream of bytes, the same however it is cut.

ghost use Rattle.std.specs.Prelude.{◌<◌, ◌≤◌, length};

/// The number of bytes mixed at a time: two words into each of four lanes.
const BLOCK: usize = 64;

/// An odd number whose set bits are spread over all of it.
const FACTOR: u64 = 0x9e37_79b9_7f4a_7c15;

/// A digest of the bytes that were added.
#[derive(Clone, Copy)]
pub struct Digest {
    lanes: [u64; 4],
    /// The bytes after the last whole block.
    begun: [u8; BLOCK],
    count: usize,
    total: u64,
}

/// Returns the word of a block that has this number.
fn word(block: &[u8; BLOCK], number: usize) -> u64
    requires { number < 8 }
{
    let at = 8 * number;
    u64::from_le_bytes([
        block[at],
        block[at + 1],
        block[at + 2],
        block[at + 3],
        block[at + 4],
        block[at + 5],
        block[at + 6],
        block[at + 7],
    ])
}

/// Mixes two words into a lane.
fn mixed(lane: u64, first: u64, second: u64) -> u64 {
    (lane ^ first).wrapping_mul(FACTOR).wrapping_add(second)
}

/// Mixes a block into the lanes.
fn mix_block(lanes: [u64; 4], block: &[u8; BLOCK]) -> [u64; 4] {
    [
        mixed(lanes[0], word(block, 0), word(block, 1)),
        mixed(lanes[1], word(block, 2), word(block, 3)),
        mixed(lanes[2], word(block, 4), word(block, 5)),
        mixed(lanes[3], word(block, 6), word(block, 7)),
    ]
}

/// Mixes the first block of some bytes into the lanes, if there is one.
fn mix_front(lanes: [u64; 4], bytes: &[u8]) -> [u64; 4] {
    match bytes.first_chunk::<BLOCK>() {
        Some(block) => mix_block(lanes, block),
        None => lanes,
    }
}

impl Digest {
    /// Returns the digest of no bytes.
    pub fn new() -> Digest {
        Digest {
            lanes: [1, 2, 3, 4],
            begun: [0; BLOCK],
            count: 0,
            total: 0,
        }
    }

    /// Adds bytes to those of the block that has begun, as far as there is room, and returns how many were added.
    fn fill(&mut self, bytes: &[u8]) -> usize
        ensures { result ≤ length bytes.now }
    {
        let from = self.count.min(BLOCK);
        let taken = bytes.len().min(BLOCK - from);
        self.begun[from..from + taken].copy_from_slice(&bytes[..taken]);
        self.count = from + taken;
        taken
    }

    /// Adds bytes to the block that has begun, if one has, and returns how many were added. If the block becomes whole,
    /// mixes it into the lanes.
    fn end_block(&mut self, bytes: &[u8]) -> usize
        ensures { result ≤ length bytes.now }
    {
        if self.count == 0 {
            return 0;
        }
        let taken = self.fill(bytes);
        if self.count == BLOCK {
            self.lanes = mix_block(self.lanes, &self.begun);
            self.count = 0;
        }
        taken
    }

    /// Mixes all whole blocks into the lanes, and returns the number of their bytes.
    fn mix_blocks(&mut self, bytes: &[u8]) -> usize
        ensures { result ≤ length bytes.now }
    {
        let count = bytes.len() / BLOCK;
        let mut lanes = self.lanes;
        for number in 0..count {
            let mixed = mix_front(lanes, &bytes[BLOCK * number..]);
            lanes = mixed;
        }
        self.lanes = lanes;
        BLOCK * count
    }

    /// Adds bytes.
    pub fn add(&mut self, bytes: &[u8]) {
        self.total = self.total.wrapping_add(bytes.len() as u64);
        let ended = self.end_block(bytes);
        let rest = &bytes[ended..];
        let mixed = self.mix_blocks(rest);
        let _ = self.fill(&rest[mixed..]);
    }

    /// Adds a number.
    pub fn add_number(&mut self, number: u64) {
        self.add(&number.to_le_bytes());
    }

    /// Returns the digest.
    pub fn value(&self) -> u64 {
        let mut ended = *self;
        ended.add_number(self.total);
        // Bytes of an earlier block may stand after these.
        let count = ended.count.min(BLOCK);
        ended.begun[count..].fill(0);
        let [a, b, c, d] = mix_block(ended.lanes, &ended.begun);
        let mut value = a ^ b.rotate_left(16) ^ c.rotate_left(32) ^ d.rotate_left(48);
        value = (value ^ (value >> 32)).wrapping_mul(FACTOR);
        value ^ (value >> 29)
    }
}
