//! The observer that writes lines.

use crate::connection::{Cause, Connection, State, Told};
use crate::limit::Limit;
use crate::lines;
use crate::log_file::LogFile;
use crate::observed::Observer;
use crate::sense::Sensed;
use std::alloc::{AllocError, Global};
use std::fs::File;
use std::net::SocketAddr;
use std::rt::{Clock, Files};
use target_limits::CONNECTIONS;

/// The most lines that are written in a second of connections that have not logged in.
const MOST_OF_STRANGERS: u32 = 20;

/// The most lines that are written in a second of connections that have logged in.
const MOST_OF_HOSTS: u32 = 200;

/// The sense key and code of a unit that is not ready since its store failed.
const NOT_READY: (u8, u16) = (0x04, 0x4400);

/// Those of a read that failed.
const READ_FAILED: (u8, u16) = (0x03, 0x1100);

/// Those of a write that failed.
const WRITE_FAILED: (u8, u16) = (0x03, 0x0C00);

/// Whose line it is. The most lines in a second depend on it.
#[derive(Clone, Copy)]
enum Whose {
    Stranger,
    Host,
}

/// A unit that was reported as not ready.
#[derive(Drop)]
struct FailedUnit {
    target: Vec<u8>,
    lun: [u8; 8],
}

/// Writes a line for each connection that comes, each login, the end of each session, each Task Management function and
/// its answer, and each unit whose store failed.
#[derive(Drop)]
pub struct SessionLog<'r, R: Files<File = File> + Clock> {
    alloc: Global,
    file: LogFile<'r, R>,
    /// The connections, by their numbers.
    connections: Vec<Option<Connection>>,
    failed: Vec<FailedUnit>,
    strangers: Limit,
    hosts: Limit,
    /// The number of lines that could not be written since the last one that was.
    lost: u64,
}

/// Notes why the connection with this number ends.
fn note_cause(connections: &mut [Option<Connection>], c: usize, cause: Cause) {
    if let Some(Some(connection)) = connections.get_mut(c) {
        connection.cause = Some(cause);
    }
}

/// Returns why a connection ended, if its own end says so.
fn cause_of(connection: &Connection) -> Option<&'static str> {
    if connection.state == State::LoggedOut {
        return Some("logout");
    }
    match connection.cause {
        Some(Cause::Closed) => Some("its peer closed the connection"),
        Some(Cause::Failed) => Some("its peer is gone"),
        Some(Cause::Starved) => Some("out of memory"),
        None if !connection.has_come => Some("out of memory"),
        None => None,
    }
}

/// Returns whether both are of one initiator and target.
fn is_same_session(one: &Connection, other: &Connection) -> bool {
    !one.names.is_discovery
        && !other.names.is_discovery
        && one.isid == other.isid
        && one.names.initiator.as_slice() == other.names.initiator.as_slice()
        && one.names.target.as_slice() == other.names.target.as_slice()
}

impl<'r, R: Files<File = File> + Clock> SessionLog<'r, R> {
    /// Returns a log without connections. Writes its first line: the address on which the program listens.
    pub fn new(
        alloc: Global,
        file: LogFile<'r, R>,
        address: SocketAddr,
    ) -> Result<SessionLog<'r, R>, AllocError> {
        let mut connections = Vec::with_capacity(alloc, CONNECTIONS)?;
        for _ in 0..CONNECTIONS {
            connections.push(None)?;
        }
        let mut log = SessionLog {
            alloc,
            file,
            connections,
            failed: Vec::new(alloc),
            strangers: Limit::new(MOST_OF_STRANGERS),
            hosts: Limit::new(MOST_OF_HOSTS),
            lost: 0,
        };
        log.say_always(lines::listening(alloc, address));
        Ok(log)
    }

    /// Writes a line, unless too many were written in this second.
    fn say(&mut self, whose: Whose, text: Result<String, AllocError>) {
        let Ok(text) = text else {
            return;
        };
        let second = self.file.seconds();
        let limit = match whose {
            Whose::Stranger => &mut self.strangers,
            Whose::Host => &mut self.hosts,
        };
        let left_out = limit.take_left_out(second);
        if !limit.allows(second) {
            return;
        }
        if left_out > 0 {
            self.say_always(lines::left_out(self.alloc, left_out));
        }
        self.put(second, text.as_str());
    }

    /// Writes a line, no matter how many were written.
    fn say_always(&mut self, text: Result<String, AllocError>) {
        if let Ok(text) = text {
            let second = self.file.seconds();
            self.put(second, text.as_str());
        }
    }

    /// Writes a line with this time, after one that says how many could not be written before it, if any.
    fn put(&mut self, second: u64, text: &str) {
        if self.lost > 0 {
            let Ok(lost) = lines::lost(self.alloc, self.lost) else {
                return;
            };
            if self.file.put_timed(self.alloc, second, lost.as_str()) {
                self.lost = 0;
            }
        }
        if !self.file.put_timed(self.alloc, second, text) {
            self.lost = self.lost.saturating_add(1);
        }
    }

    /// Returns another connection of the same initiator and target.
    fn successor_of(&self, gone: &Connection) -> Option<usize> {
        for (c, connection) in self.connections.iter().enumerate() {
            if let Some(connection) = connection {
                if is_same_session(connection, gone) {
                    return Some(c);
                }
            }
        }
        None
    }

    /// Writes the line of an event of a connection.
    fn tell(&mut self, c: usize, told: Told) {
        let Some(Some(connection)) = self.connections.get(c) else {
            return;
        };
        let names = &connection.names;
        match told {
            Told::LoggedIn { tsih } => {
                let line = lines::logged_in(self.alloc, c, names, tsih);
                self.say(Whose::Host, line);
            }
            Told::Refused { status } => {
                let line = lines::refused(self.alloc, c, names, status);
                self.say(Whose::Stranger, line);
            }
            Told::Asked { function, lun, tag } => {
                let line = lines::asked(self.alloc, c, function, lun, tag);
                self.say(Whose::Host, line);
            }
            Told::Answered { response, tag } => {
                let line = lines::answered(self.alloc, c, response, tag);
                self.say(Whose::Host, line);
            }
            Told::Sensed(sensed) => self.tell_sensed(c, sensed),
        }
    }

    /// Writes that a store failed, and at which command. Of a unit that is then not ready, writes it once.
    fn tell_sensed(&mut self, c: usize, sensed: Sensed) {
        let Some(Some(connection)) = self.connections.get(c) else {
            return;
        };
        let target = connection.names.target.as_slice();
        let lun = sensed.command.lun;
        let sense = (sensed.key, sensed.code);
        if sense == READ_FAILED || sense == WRITE_FAILED {
            let line = lines::failed_at(self.alloc, c, &connection.names, &sensed);
            self.say(Whose::Host, line);
        } else if sense == NOT_READY && !is_noted(self.failed.as_slice(), target, lun) {
            let line = lines::failed(self.alloc, target, &sensed);
            let mut name = Vec::new(self.alloc);
            let _ = name.extend_from_slice(target);
            let _ = self.failed.push(FailedUnit { target: name, lun });
            self.say_always(line);
        }
    }
}

/// Returns the line of a connection that ended by a violation. Leaves the PDU out if there is no memory for it.
fn violation_line(
    alloc: Global,
    c: usize,
    has_session: bool,
    connection: &Connection,
) -> Result<String, AllocError> {
    match lines::violated(alloc, c, has_session, connection.offence()) {
        Ok(line) => Ok(line),
        Err(AllocError) => lines::violated(alloc, c, has_session, None),
    }
}

/// Returns whether the unit is among these.
fn is_noted(failed: &[FailedUnit], target: &[u8], lun: [u8; 8]) -> bool {
    failed
        .iter()
        .any(|unit| unit.lun == lun && unit.target.as_slice() == target)
}

impl<R: Files<File = File> + Clock> Observer for SessionLog<'_, R> {
    fn accepted(&mut self, c: usize, peer: Option<SocketAddr>) {
        match self.connections.get_mut(c) {
            Some(place) => {
                *place = Some(Connection::new(peer));
                self.say(Whose::Stranger, lines::came(self.alloc, c, peer));
            }
            None => self.say(Whose::Stranger, lines::turned_away(self.alloc, peer)),
        }
    }

    fn read(&mut self, c: usize, bytes: &[u8]) {
        let mut rest = bytes;
        for _ in 0..bytes.len() {
            let Some(Some(connection)) = self.connections.get_mut(c) else {
                return;
            };
            let heard = connection.hear(rest);
            if let Some(told) = heard.told {
                self.tell(c, told);
            }
            rest = &rest[heard.count..];
            if rest.is_empty() {
                return;
            }
        }
    }

    fn written(&mut self, c: usize, bytes: &[u8]) {
        let mut rest = bytes;
        for _ in 0..bytes.len() {
            let Some(Some(connection)) = self.connections.get_mut(c) else {
                return;
            };
            let seen = connection.see(rest);
            if let Some(told) = seen.told {
                self.tell(c, told);
            }
            rest = &rest[seen.count..];
            if rest.is_empty() {
                return;
            }
        }
    }

    fn ended(&mut self, c: usize, has_failed: bool) {
        let cause = if has_failed {
            Cause::Failed
        } else {
            Cause::Closed
        };
        note_cause(&mut self.connections, c, cause);
    }

    fn starved(&mut self, c: usize) {
        note_cause(&mut self.connections, c, Cause::Starved);
    }

    fn closed(&mut self, c: usize) {
        let Some(place) = self.connections.get_mut(c) else {
            return;
        };
        let Some(connection) = place.take() else {
            return;
        };
        let has_session = match connection.state {
            State::Refused => return,
            State::LoggingIn => false,
            State::LoggedIn | State::LoggedOut => true,
        };
        let whose = if has_session {
            Whose::Host
        } else {
            Whose::Stranger
        };
        let line = match (cause_of(&connection), self.successor_of(&connection)) {
            (Some(why), _) => lines::ended(self.alloc, c, has_session, why, None),
            (None, Some(other)) if has_session => {
                lines::ended(self.alloc, c, true, "reinstated", Some(other))
            }
            (None, _) => violation_line(self.alloc, c, has_session, &connection),
        };
        self.say(whose, line);
    }
}
