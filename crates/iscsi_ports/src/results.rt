//! What the calls of the ports tell.

ghost use Rattle.std.specs.Prelude.{◌≡◌, List, ℕ};
ghost use Rattle.iscsi_ports.specs.Results.{buffer_of, carried_by, carried_read, count_of, read_count, LendsSome};

use crate::read_buffer::ReadBuffer;
use target_limits::CONNECTIONS;

/// Whom a poll names: some of those that may have something to accept or to read.
#[derive(Clone, Copy)]
pub struct Named {
    pub listener: bool,
    pub connections: [bool; CONNECTIONS],
}

/// What a read or a write told.
#[derive(Clone, Copy)]
pub enum IoResult {
    /// The number of bytes that were read or written: none if the call would have waited or was interrupted, or the write was
    /// put off.
    Bytes(usize),
    /// The peer sends nothing more.
    End,
    /// The connection failed.
    Fault,
}

/// What a read told by ports that may lend a buffer.
#[derive(Drop)]
pub enum ReadResult {
    /// The number of bytes at the front of the reader's buffer: none if the read would have waited.
    Bytes(usize),
    /// The bytes, in a buffer that the ports get back.
    Lent(ReadBuffer),
    /// The peer sends nothing more.
    End,
    /// The connection failed.
    Fault,
}

impl ReadResult {
    /// Returns what a read into the reader's buffer told.
    pub fn of(told: IoResult) -> ReadResult
        ensures told { (buffer : List ℕ) → carried_read result buffer ≡ carried_by told buffer }
        ensures place { (buffer : List ℕ) → buffer_of result buffer ≡ buffer }
        ensures count { read_count result ≡ count_of told }
        ensures some { LendsSome result }
    {
        match told {
            IoResult::Bytes(count) => ReadResult::Bytes(count),
            IoResult::End => ReadResult::End,
            IoResult::Fault => ReadResult::Fault,
        }
    }
}

/// What an accept met.
#[derive(Clone, Copy)]
pub enum Accepted {
    Connection,
    /// None waits, or it was aborted before.
    Nobody,
}

/// The call failed.
#[derive(Clone, Copy)]
pub struct PortFault;
