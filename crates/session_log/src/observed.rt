//! Ports whose calls are observed.

use iscsi_ports::{Accepted, IoResult, Named, Peers, PortFault, Ports, ReadBuffer, ReadResult};
use std::net::SocketAddr;

/// An observer of what ports did. It returns nothing, so it changes nothing.
pub trait Observer {
    /// Observes that a connection came under this number: 64 if no number is free.
    fn accepted(&mut self, c: usize, peer: Option<SocketAddr>);

    /// Observes bytes that came.
    fn read(&mut self, c: usize, bytes: &[u8]);

    /// Observes bytes that were sent.
    fn written(&mut self, c: usize, bytes: &[u8]);

    /// Observes that a read or a write reported the end of the connection, or its failure.
    fn ended(&mut self, c: usize, has_failed: bool);

    /// Observes that the target closes a connection since an allocation failed.
    fn starved(&mut self, c: usize);

    /// Observes that a connection is closed.
    fn closed(&mut self, c: usize);
}

impl<O: Observer> Observer for Option<O> {
    fn accepted(&mut self, c: usize, peer: Option<SocketAddr>) {
        if let Some(observer) = self {
            observer.accepted(c, peer);
        }
    }

    fn read(&mut self, c: usize, bytes: &[u8]) {
        if let Some(observer) = self {
            observer.read(c, bytes);
        }
    }

    fn written(&mut self, c: usize, bytes: &[u8]) {
        if let Some(observer) = self {
            observer.written(c, bytes);
        }
    }

    fn ended(&mut self, c: usize, has_failed: bool) {
        if let Some(observer) = self {
            observer.ended(c, has_failed);
        }
    }

    fn starved(&mut self, c: usize) {
        if let Some(observer) = self {
            observer.starved(c);
        }
    }

    fn closed(&mut self, c: usize) {
        if let Some(observer) = self {
            observer.closed(c);
        }
    }
}

/// Ports and their observer. Their log, and whether it is whole, are those of the ports.
#[derive(Drop)]
pub struct ObservedPorts<P: Ports + Peers + Drop, O: Observer + Drop> {
    pub ports: P,
    pub observer: O,
}

impl<P: Ports + Peers + Drop, O: Observer + Drop> Ports for ObservedPorts<P, O> {
    ghost log = { λ observed. P.log observed.ports };

    ghost tells = { λ observed. P.tells observed.ports };

    fn poll(&mut self) -> Result<Named, PortFault> {
        self.ports.poll()
    }

    fn accept(&mut self, c: usize) -> Result<Accepted, PortFault> {
        let accepted = self.ports.accept(c);
        if let Ok(Accepted::Connection) = accepted {
            self.observer.accepted(c, self.ports.peer(c));
        }
        accepted
    }

    fn read(&mut self, c: usize, buffer: &mut [u8]) -> IoResult {
        let result = self.ports.read(c, buffer);
        match result {
            IoResult::Bytes(count) => self.observer.read(c, &buffer[..count]),
            IoResult::End => self.observer.ended(c, false),
            IoResult::Fault => self.observer.ended(c, true),
        }
        result
    }

    fn read_front(&mut self, c: usize, room: usize, buffer: &mut [u8]) -> ReadResult {
        let result = self.ports.read_front(c, room, buffer);
        match &result {
            ReadResult::Bytes(count) => self.observer.read(c, &buffer[..*count]),
            ReadResult::Lent(lent) => self.observer.read(c, lent.as_slice()),
            ReadResult::End => self.observer.ended(c, false),
            ReadResult::Fault => self.observer.ended(c, true),
        }
        result
    }

    fn take_back(&mut self, lent: ReadBuffer) {
        self.ports.take_back(lent);
    }

    fn write(&mut self, c: usize, bytes: &[u8]) -> IoResult {
        let result = self.ports.write(c, bytes);
        match result {
            IoResult::Bytes(count) => self.observer.written(c, &bytes[..count]),
            IoResult::End => self.observer.ended(c, false),
            IoResult::Fault => self.observer.ended(c, true),
        }
        result
    }

    fn puts_off(&mut self, c: usize, bytes: &[u8]) -> bool {
        self.ports.puts_off(c, bytes)
    }

    fn starved(&mut self, c: usize) {
        self.observer.starved(c);
        self.ports.starved(c);
    }

    fn close(&mut self, c: usize) {
        self.observer.closed(c);
        self.ports.close(c);
    }
}
