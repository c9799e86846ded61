//! What the target answers on a connection.

ghost use Rattle.std.specs.Prelude.{◌≤◌};

use crate::digest::Digest;
use crate::fault::Fault;
use crate::requests::Header;
use crate::wire::HEADER_LENGTH;
use byteorder::{BigEndian, ByteOrder};
use std::alloc::Global;

/// An R2T: the target requests a part of the data of a command.
#[derive(Clone, Copy)]
pub struct Asked {
    pub tag: u32,
    pub transfer: u32,
    pub offset: u32,
    pub length: usize,
}

/// The answers on a connection so far, and how much of the last one has arrived.
#[derive(Drop)]
pub struct Answers {
    header: Header,
    /// The number of bytes of the next header that have arrived.
    had: usize,
    /// The number of bytes that are missing from the data segment that has begun.
    missing: usize,
    pub digest: Digest,
    /// The R2Ts that have not been answered.
    pub asked: Vec<Asked>,
    /// The number of answers, without Data-Ins and R2Ts.
    pub ended: u64,
    /// The number of SCSI Responses with status GOOD.
    pub good: u64,
    /// The Target Transfer Tag of the last answer, and its byte 1.
    pub transfer: u32,
    pub flags: u8,
}

/// Returns the number in four bytes of a header.
fn word(header: &Header, at: usize) -> u32
    requires { at ≤ 44 }
{
    BigEndian::read_u32(&header[at..at + 4])
}

impl Answers {
    /// Returns the answers of a connection on which nothing has arrived.
    pub fn new(alloc: Global) -> Answers {
        Answers {
            header: [0; 48],
            had: 0,
            missing: 0,
            digest: Digest::new(),
            asked: Vec::new(alloc),
            ended: 0,
            good: 0,
            transfer: 0,
            flags: 0,
        }
    }

    /// Takes the bytes that arrive next.
    pub fn take(&mut self, bytes: &[u8]) -> Result<(), Fault> {
        self.digest.add(bytes);
        let mut rest = bytes;
        for _ in 0..bytes.len() {
            if rest.is_empty() {
                break;
            }
            let count = self.take_front(rest)?.min(rest.len());
            rest = &rest[count..];
        }
        Ok(())
    }

    /// Takes some of the first bytes, and returns how many.
    fn take_front(&mut self, bytes: &[u8]) -> Result<usize, Fault> {
        if self.missing > 0 {
            let count = self.missing.min(bytes.len());
            self.missing -= count;
            return Ok(count);
        }
        let had = self.had.min(HEADER_LENGTH);
        let count = bytes.len().min(HEADER_LENGTH - had);
        self.header[had..had + count].copy_from_slice(&bytes[..count]);
        self.had = had + count;
        if self.had == HEADER_LENGTH {
            self.had = 0;
            self.take_header()?;
        }
        Ok(count)
    }

    /// Records the header, which is complete.
    fn take_header(&mut self) -> Result<(), Fault> {
        let header = &self.header;
        self.missing = (BigEndian::read_u24(&header[5..8]) as usize + 3) / 4 * 4;
        self.transfer = word(header, 20);
        self.flags = header[1];
        match header[0] {
            0x25 => {}
            0x31 => self.asked.push(Asked {
                tag: word(header, 16),
                transfer: self.transfer,
                offset: word(header, 40),
                length: word(header, 44) as usize,
            })?,
            opcode => {
                self.ended = self.ended.wrapping_add(1);
                if opcode == 0x21 && header[3] == 0 {
                    self.good = self.good.wrapping_add(1);
                }
            }
        }
        Ok(())
    }
}
