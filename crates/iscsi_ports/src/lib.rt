//! Whom a loop serves: a listener and the connections that came to it, under their numbers.
//!
//! ```text
//!   the loop                        ports                           the system, or a script
//!   poll    ──────────────────────> who may be ready                epoll, on some turns
//!   accept, read, write, close ───> what they gave and took ──────> sockets
//!                                         │
//!                                         └──> log: Poll, Accept, Read, Wrote, Close, with bytes
//! ```
//!
//! [`Ports`] tell in a log what they gave and took, as long as they can (`Ports::tells`). [`MioPorts`] are the system's
//! sockets, whose calls and their answers are noted in a record that only clauses read; [`MemPorts`] follow a script, for
//! tests.
//!
//! Promised, and proved:
//!
//! - The log of [`MioPorts`] is what was handed on and what was taken, as the noted calls have it. Each byte that the system
//!   gave is handed on once, in order, or is still ahead, or was dropped as its connection closed.
//! - When the system is asked and a write is put off is exact, and at most 63 polls in a row ask nothing.
//! - Of the connections that are ready and send much a poll names one, each in its turn. Of the others it names eight more
//!   than the last poll, and eight fewer for each that turned out to send much, but always one. Each poll that leaves one out
//!   brings it nearer to its turn, of less than 64 places, as long as it stays of its kind. If nothing came of a poll that
//!   left one out, the next names all.
//! - What is read of a connection that was closed, and for how many turns it stays, is exact. So it stays while its peer
//!   sends, up to those bounds and unless its place is needed, and no longer where its peer is silent.
//! - [`MemPorts`] keep their log, and each read and write tells what the script says.
#![tactic(auto)]

mod asking;
mod bind_fault;
mod call_notes;
mod entry;
mod events;
mod lingering;
mod lingering_notes;
mod mem_ports;
mod mio_sockets;
mod options;
mod peers;
mod places;
mod ports;
mod read_buffer;
mod readiness;
mod results;
mod script;
mod socket_calls;
mod socket_failure;
mod socket_ports;
mod spares;
mod stopwatch;
mod stream_calls;
mod system_read;
mod turns;
mod watching;

pub use bind_fault::BindFault;
pub use entry::{Carried, Entry};
pub use mem_ports::MemPorts;
pub use mio_sockets::MioSockets;
pub use peers::Peers;
pub use ports::Ports;
pub use read_buffer::ReadBuffer;
pub use readiness::Readiness;
pub use results::{Accepted, IoResult, Named, PortFault, ReadResult};
pub use script::{Course, Script, Step};
pub use socket_calls::SocketCalls;
pub use socket_failure::SocketFailure;
pub use socket_ports::{MioPorts, SocketPorts};
