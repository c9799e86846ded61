//! A log of ports that is kept in memory.

use crate::results::Named;

/// What a read gave or a write took.
#[derive(Drop)]
pub enum Carried {
    /// These bytes: none where the call would have waited.
    Bytes(Vec<u8>),
    /// The peer sends nothing more.
    End,
    /// The connection failed.
    Fault,
}

/// A call of the ports, and what it told.
#[derive(Drop)]
pub enum Entry {
    /// A poll, and whom it named. `None`: it failed.
    Polled(Option<Named>),
    /// A connection came, under this number: 64 where none is free.
    Open(usize),
    /// An accept met nobody.
    NobodyCame,
    /// An accept failed.
    AcceptFailed,
    /// A read of a connection, with this room.
    Read {
        c: usize,
        room: usize,
        carried: Carried,
    },
    /// A write to a connection, which was offered this number of bytes.
    Wrote {
        c: usize,
        offered: usize,
        carried: Carried,
    },
    /// A connection was closed.
    Close(usize),
}
