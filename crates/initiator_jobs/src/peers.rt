//! Initiators at the ports of the loop that serves them.

ghost use Rattle.std.specs.Prelude.{◌≡◌, ◌<◌, ◌≤◌, ◌++◌, ◌∷◌, [], List, true, length, IfOk};
ghost use Rattle.iscsi_ports.specs.Log.{Read, Wrote, Close};
ghost use Rattle.iscsi_ports.specs.Results.{carried_by, count_of, poll_entry, accept_entry};

use crate::fault::Fault;
use crate::outcome::Outcome;
use crate::peer::Peer;
use iscsi_ports::{Accepted, IoResult, Named, PortFault, Ports};
use target_limits::CONNECTIONS;

/// Initiators, each of which connects as soon as it can. They keep no log.
#[derive(Drop)]
pub struct Peers {
    peers: Vec<Peer>,
    /// The number of those that were accepted so far.
    accepted: usize,
    /// Whether no call has been made to them yet.
    tells: bool,
}

impl Peers {
    /// Returns ports to these initiators, none of which is accepted yet.
    pub fn new(peers: Vec<Peer>) -> Peers {
        Peers {
            peers,
            accepted: 0,
            tells: true,
        }
    }

    /// Returns whether each of them was accepted and has done all its work.
    pub fn are_done(&self) -> bool {
        for peer in self.peers.iter() {
            if !peer.is_done() {
                return false;
            }
        }
        self.accepted == self.peers.len()
    }

    /// Returns what they were answered, if they have done all their work.
    pub fn outcome(&self) -> Result<Outcome, Fault> {
        if !self.are_done() {
            return Err(Fault::Unanswered);
        }
        let mut outcome = Outcome::new();
        for peer in self.peers.iter() {
            outcome.add(peer.answers());
        }
        Ok(outcome)
    }
}

/// Returns which of the peers have something to send, and whether one waits to be accepted.
fn named(peers: &mut [Peer], accepted: usize) -> Named {
    let mut named = Named {
        listener: accepted < peers.len(),
        connections: [false; CONNECTIONS],
    };
    for c in 0..accepted.min(peers.len()).min(CONNECTIONS) {
        named.connections[c] = peers[c].is_ready();
    }
    named
}

/// Returns what a peer gives to a read.
fn read_of(peers: &mut [Peer], c: usize, buffer: &mut [u8]) -> IoResult
    ensures { count_of result ≤ length buffer.new }
{
    if c >= peers.len() {
        return IoResult::Fault;
    }
    let count = peers[c].read(buffer);
    IoResult::Bytes(count.min(buffer.len()))
}

/// Returns how many bytes of a write a peer takes.
fn write_of(peers: &mut [Peer], c: usize, bytes: &[u8]) -> IoResult
    ensures { count_of result ≤ length bytes.now }
{
    if c >= peers.len() {
        return IoResult::Fault;
    }
    match peers[c].write(bytes) {
        Ok(count) => IoResult::Bytes(count.min(bytes.len())),
        Err(_) => IoResult::Fault,
    }
}

impl Ports for Peers {
    ghost log = { λ _. [] };

    ghost tells = { λ peers. peers.tells };

    fn poll(&mut self) -> Result<Named, PortFault> {
        self.tells = false;
        Ok(named(self.peers.as_mut_slice(), self.accepted))
    }

    fn accept(&mut self, _c: usize) -> Result<Accepted, PortFault> {
        self.tells = false;
        if self.accepted >= self.peers.len() {
            return Ok(Accepted::Nobody);
        }
        self.accepted += 1;
        Ok(Accepted::Connection)
    }

    fn read(&mut self, c: usize, buffer: &mut [u8]) -> IoResult {
        self.tells = false;
        read_of(self.peers.as_mut_slice(), c, buffer)
    }

    fn write(&mut self, c: usize, bytes: &[u8]) -> IoResult {
        self.tells = false;
        write_of(self.peers.as_mut_slice(), c, bytes)
    }

    fn close(&mut self, _c: usize) {
        self.tells = false;
    }
}
