//! The addresses of peers.

use super::MioSockets;
use std::net::SocketAddr;

impl MioSockets {
    /// Returns the address of a connection's peer.
    pub(crate) fn peer(&self, c: usize) -> Option<SocketAddr> {
        match self.streams.get(c) {
            Some(Some(stream)) => stream.peer_addr().ok(),
            _ => None,
        }
    }
}
