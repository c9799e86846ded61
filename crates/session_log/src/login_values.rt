//! What a login agreed on that bounds a command's data, from the text of Login Responses (RFC 7143 §13).

use crate::pairs::Pairs;

/// The values in force.
#[derive(Drop)]
pub(crate) struct LoginValues {
    pairs: Pairs,
    /// RFC 7143 §13.10
    pub(crate) initial_r2t: bool,
    /// RFC 7143 §13.11
    pub(crate) immediate_data: bool,
    /// RFC 7143 §13.14
    pub(crate) first_burst_length: usize,
}

/// Returns the decimal number that a value is.
fn number_in(value: &[u8]) -> Option<usize> {
    let mut number: usize = 0;
    for byte in value {
        if !byte.is_ascii_digit() {
            return None;
        }
        number = number
            .saturating_mul(10)
            .saturating_add(usize::from(*byte & 0x0F));
    }
    Some(number)
}

/// Returns the truth that a value is.
fn boolean_in(value: &[u8]) -> Option<bool> {
    if value == b"Yes".as_slice() {
        return Some(true);
    }
    if value == b"No".as_slice() {
        return Some(false);
    }
    None
}

impl LoginValues {
    /// Returns the defaults.
    pub(crate) fn new() -> LoginValues {
        LoginValues {
            pairs: Pairs::new(),
            initial_r2t: true,
            immediate_data: true,
            first_burst_length: 65_536,
        }
    }

    /// Sees the next bytes of the text of the answers.
    pub(crate) fn see(&mut self, text: &[u8]) {
        for byte in text {
            if let Some(pair) = self.pairs.take(*byte) {
                self.take_pair(pair.as_slice());
            }
        }
    }

    /// Takes the result of a key, if it is one of these values. `Reject` leaves the default.
    fn take_pair(&mut self, pair: &[u8]) {
        if let Some(value) = pair.strip_prefix(b"InitialR2T=") {
            self.initial_r2t = boolean_in(value).unwrap_or(self.initial_r2t);
        } else if let Some(value) = pair.strip_prefix(b"ImmediateData=") {
            self.immediate_data = boolean_in(value).unwrap_or(self.immediate_data);
        } else if let Some(value) = pair.strip_prefix(b"FirstBurstLength=") {
            self.first_burst_length = number_in(value).unwrap_or(self.first_burst_length);
        }
    }
}
