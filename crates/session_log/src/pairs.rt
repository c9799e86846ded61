//! The text of a login, cut into pairs `key=value` as it passes (RFC 7143 §6.1).

use arrayvec::ArrayVec;

/// The number of bytes of a pair that are looked at. A name has at most 223 (RFC 7143 §4.2.7.1).
pub(crate) const MOST_PAIR: usize = 256;

/// A pair, as far as it is looked at.
pub(crate) type Pair = ArrayVec<u8, MOST_PAIR>;

/// The pair that is not whole yet.
#[derive(Drop)]
pub(crate) struct Pairs {
    front: Pair,
}

impl Pairs {
    /// Returns the state before the first byte.
    pub(crate) fn new() -> Pairs {
        Pairs {
            front: ArrayVec::new(),
        }
    }

    /// Takes the next byte of the text. Returns the pair that it ends, if it is zero.
    pub(crate) fn take(&mut self, byte: u8) -> Option<Pair> {
        if byte == 0 {
            return Some(self.front.take());
        }
        let _ = self.front.try_push(byte);
        None
    }
}
