//! The events of a target.

/// One event. Connections are numbered from 0 to 63.
#[derive(Drop)]
pub enum Event {
    /// A connection opens.
    Open(usize),
    /// The next piece of a connection's bytes, of any length.
    Bytes(usize, Vec<u8>),
    /// A connection has ended.
    Gone(usize),
}
