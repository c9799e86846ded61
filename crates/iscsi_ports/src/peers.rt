//! Who is at the other end of a connection.

use crate::mio_sockets::MioSockets;
use crate::socket_ports::SocketPorts;
use std::net::SocketAddr;

/// Ports that know who is at the other end of each connection. Nothing is promised of what the system says.
pub trait Peers {
    /// Returns the address of a connection's peer, as the system knows it.
    fn peer(&self, c: usize) -> Option<SocketAddr>;
}

impl Peers for SocketPorts<MioSockets> {
    fn peer(&self, c: usize) -> Option<SocketAddr> {
        self.sockets.peer(c)
    }
}
