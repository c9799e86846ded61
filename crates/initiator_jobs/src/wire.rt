//! What an initiator sends: random bytes, over which headers are laid.

use crate::random::Random;
use crate::requests::Header;
use std::alloc::{AllocError, Global};

/// The length of a header in bytes.
pub const HEADER_LENGTH: usize = 48;

/// Random bytes. A stream of PDUs lies somewhere among them: its headers are laid over what is there, and what comes
/// after each is its data.
#[derive(Drop)]
pub struct Wire {
    bytes: Vec<u8>,
    from: usize,
    to: usize,
}

impl Wire {
    /// Returns a wire of `length` random bytes, without a stream.
    pub fn new(alloc: Global, random: &mut Random, length: usize) -> Result<Wire, AllocError> {
        let mut bytes = Vec::with_capacity(alloc, length)?;
        for _ in 0..length / 8 {
            bytes.extend_from_slice(&random.number().to_le_bytes())?;
        }
        Ok(Wire {
            bytes,
            from: 0,
            to: 0,
        })
    }

    /// Begins an empty stream at this place.
    pub fn begin(&mut self, at: usize) {
        self.from = at.min(self.bytes.len());
        self.to = self.from;
    }

    /// Begins an empty stream after the end of the last one.
    pub fn go_on(&mut self) {
        self.from = self.to;
    }

    /// Returns whether there is room for a PDU with `data` bytes of data.
    pub fn has_room(&self, data: usize) -> bool {
        data.saturating_add(HEADER_LENGTH + 3) <= self.bytes.len().saturating_sub(self.to)
    }

    /// Puts bytes next in the stream, if there is room.
    pub fn put(&mut self, bytes: &[u8]) {
        let to = self.to;
        let all = self.bytes.len();
        if to <= all && bytes.len() <= all - to {
            self.bytes.as_mut_slice()[to..to + bytes.len()].copy_from_slice(bytes);
            self.to = to + bytes.len();
        }
    }

    /// Lays a PDU next in the stream, with `data` of the random bytes as its data.
    pub fn lay(&mut self, header: &Header, data: usize) {
        self.put(header);
        let padded = data.saturating_add(3) / 4;
        self.to = self
            .to
            .saturating_add(padded.saturating_mul(4))
            .min(self.bytes.len());
    }

    /// Lays a PDU next in the stream, with this text as its data.
    pub fn lay_text(&mut self, header: &Header, text: &[u8]) {
        self.put(header);
        self.put(text);
        let padding = (4 - text.len() % 4) % 4;
        self.put(&[0; 3][..padding]);
    }

    /// Returns the bytes of the stream.
    pub fn stream(&self) -> &[u8] {
        if self.from <= self.to && self.to <= self.bytes.len() {
            &self.bytes.as_slice()[self.from..self.to]
        } else {
            &[]
        }
    }
}
