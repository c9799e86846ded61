//! The names of the initiator and of the target of a login, from the text of Login Requests (RFC 7143 §6.1, §13).

use crate::pairs::{MOST_PAIR, Pairs};
use arrayvec::ArrayVec;

/// A name, as it was sent.
pub(crate) type Name = ArrayVec<u8, MOST_PAIR>;

/// What a login said so far.
#[derive(Drop)]
pub(crate) struct LoginNames {
    pairs: Pairs,
    pub(crate) initiator: Name,
    pub(crate) target: Name,
    pub(crate) is_discovery: bool,
}

/// Returns the value of a pair, if it has this key.
fn value_of<'a>(pair: &'a [u8], key: &[u8]) -> Option<&'a [u8]> {
    pair.strip_prefix(key)
}

/// Returns the name of these bytes, as far as there is room.
fn name_of(value: &[u8]) -> Name {
    let mut name = ArrayVec::new();
    let _ = name.try_extend_from_slice(value);
    name
}

impl LoginNames {
    /// Returns the names of a login that has sent nothing yet.
    pub(crate) fn new() -> LoginNames {
        LoginNames {
            pairs: Pairs::new(),
            initiator: ArrayVec::new(),
            target: ArrayVec::new(),
            is_discovery: false,
        }
    }

    /// Hears the next bytes of the text: pairs that end with a zero byte.
    pub(crate) fn hear(&mut self, text: &[u8]) {
        for byte in text {
            if let Some(pair) = self.pairs.take(*byte) {
                self.take_pair(pair.as_slice());
            }
        }
    }

    /// Takes the value of a pair, if its key is one of a name or of the session's type.
    fn take_pair(&mut self, pair: &[u8]) {
        if let Some(value) = value_of(pair, b"InitiatorName=") {
            self.initiator = name_of(value);
        } else if let Some(value) = value_of(pair, b"TargetName=") {
            self.target = name_of(value);
        } else if let Some(value) = value_of(pair, b"SessionType=") {
            self.is_discovery = value == b"Discovery".as_slice();
        }
    }
}
