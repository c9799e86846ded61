//! The lines of the log, without their time.

use crate::escape::put_escaped;
use crate::login_names::LoginNames;
use crate::operation::put_operation;
use crate::sense::Sensed;
use crate::violation::{Offence, put_offence};
use iscsi_pdu::TaskFunction;
use jiff::Timestamp;
use std::alloc::{AllocError, Global};
use std::net::SocketAddr;

/// Returns the status of a refused login in words (RFC 7143 §11.13.5).
fn refusal(status: u16) -> &'static str {
    match status {
        0x0200 => "initiator error",
        0x0203 => "target not found",
        0x0205 => "unsupported version",
        0x0206 => "too many connections",
        0x0207 => "missing parameter",
        0x020A => "session does not exist",
        _ => "other",
    }
}

/// Returns the name of a function (RFC 7143 §11.5.1).
fn function_name(function: TaskFunction) -> &'static str {
    match function {
        TaskFunction::AbortTask => "ABORT TASK",
        TaskFunction::AbortTaskSet => "ABORT TASK SET",
        TaskFunction::ClearAca => "CLEAR ACA",
        TaskFunction::ClearTaskSet => "CLEAR TASK SET",
        TaskFunction::LogicalUnitReset => "LOGICAL UNIT RESET",
        TaskFunction::TargetWarmReset => "TARGET WARM RESET",
        TaskFunction::TargetColdReset => "TARGET COLD RESET",
        TaskFunction::TaskReassign => "TASK REASSIGN",
        TaskFunction::Other(_) => "a reserved function",
    }
}

/// Returns the answer to a function in words (RFC 7143 §11.6.1).
fn function_response(response: u8) -> &'static str {
    match response {
        0 => "function complete",
        1 => "task does not exist",
        2 => "LUN does not exist",
        5 => "function not supported",
        255 => "function rejected",
        _ => "other",
    }
}

/// Returns sense key, code and qualifier in words (SPC-4).
fn failure(key: u8, code: u16) -> &'static str {
    match (key, code) {
        (0x03, 0x1100) => "03/1100, a read failed",
        (0x03, 0x0C00) => "03/0C00, a write failed",
        _ => "04/4400, it is not ready until the next start",
    }
}

/// Appends the unit that a LUN field names.
fn put_unit(line: &mut String, lun: [u8; 8]) -> Result<(), AllocError> {
    if lun[0] == 0 {
        return write!(line, "unit {}", lun[1]);
    }
    line.push_str("LUN ")?;
    for byte in lun {
        write!(line, "{byte:02X}")?;
    }
    Ok(())
}

/// Appends an address, if it is known.
fn put_peer(line: &mut String, peer: Option<SocketAddr>) -> Result<(), AllocError> {
    match peer {
        Some(address) => write!(line, "{address}"),
        None => line.push_str("an unknown address"),
    }
}

/// Appends the name of an initiator or a target.
fn put_name(line: &mut String, what: &str, name: &[u8]) -> Result<(), AllocError> {
    if name.is_empty() {
        return write!(line, "no {what}");
    }
    write!(line, "{what} ")?;
    put_escaped(line, name)
}

/// Appends the names of the initiator and of the target of a login.
fn put_names(line: &mut String, names: &LoginNames) -> Result<(), AllocError> {
    put_name(line, "initiator", names.initiator.as_slice())?;
    line.push_str(", ")?;
    if names.is_discovery {
        return line.push_str("discovery");
    }
    put_name(line, "target", names.target.as_slice())
}

/// Returns the line of a connection that came.
pub(crate) fn came(
    alloc: Global,
    c: usize,
    peer: Option<SocketAddr>,
) -> Result<String, AllocError> {
    let mut line = String::new(alloc);
    write!(line, "connection {c} from ")?;
    put_peer(&mut line, peer)?;
    Ok(line)
}

/// Returns the line of a connection that came when all places were taken.
pub(crate) fn turned_away(alloc: Global, peer: Option<SocketAddr>) -> Result<String, AllocError> {
    let mut line = String::new(alloc);
    line.push_str("no place for a connection from ")?;
    put_peer(&mut line, peer)?;
    Ok(line)
}

/// Returns the line of a login that succeeded.
pub(crate) fn logged_in(
    alloc: Global,
    c: usize,
    names: &LoginNames,
    tsih: u16,
) -> Result<String, AllocError> {
    let mut line = String::new(alloc);
    write!(line, "connection {c} logged in: ")?;
    put_names(&mut line, names)?;
    write!(line, ", TSIH {tsih}")?;
    Ok(line)
}

/// Returns the line of a login that was refused.
pub(crate) fn refused(
    alloc: Global,
    c: usize,
    names: &LoginNames,
    status: u16,
) -> Result<String, AllocError> {
    let mut line = String::new(alloc);
    let words = refusal(status);
    write!(line, "connection {c} refused: {status:04X}h, {words}: ")?;
    put_names(&mut line, names)?;
    Ok(line)
}

/// Returns the line of a connection that ended, with or without a session.
pub(crate) fn ended(
    alloc: Global,
    c: usize,
    has_session: bool,
    why: &str,
    by: Option<usize>,
) -> Result<String, AllocError> {
    let mut line = String::new(alloc);
    if has_session {
        write!(line, "session of connection {c} ended: {why}")?;
    } else {
        write!(line, "connection {c} ended without a login: {why}")?;
    }
    if let Some(other) = by {
        write!(line, " by connection {other}")?;
    }
    Ok(line)
}

/// Returns the line of a connection that ended by a violation of the protocol, with the PDU and the rule as far as they
/// are known.
pub(crate) fn violated(
    alloc: Global,
    c: usize,
    has_session: bool,
    offence: Option<Offence>,
) -> Result<String, AllocError> {
    let mut line = ended(alloc, c, has_session, "violation", None)?;
    if let Some(offence) = offence {
        line.push_str(": ")?;
        put_offence(&mut line, &offence)?;
    }
    Ok(line)
}

/// Returns the line of a Task Management function that was requested.
pub(crate) fn asked(
    alloc: Global,
    c: usize,
    function: TaskFunction,
    lun: [u8; 8],
    tag: u32,
) -> Result<String, AllocError> {
    let mut line = String::new(alloc);
    let name = function_name(function);
    write!(line, "connection {c} asks for {name} ({tag:08X}h), ")?;
    put_unit(&mut line, lun)?;
    Ok(line)
}

/// Returns the line of the answer to a Task Management function.
pub(crate) fn answered(
    alloc: Global,
    c: usize,
    response: u8,
    tag: u32,
) -> Result<String, AllocError> {
    let mut line = String::new(alloc);
    let words = function_response(response);
    write!(line, "connection {c} is answered ({tag:08X}h): {words}")?;
    Ok(line)
}

/// Returns the line of a store that failed.
pub(crate) fn failed(alloc: Global, target: &[u8], sensed: &Sensed) -> Result<String, AllocError> {
    let mut line = String::new(alloc);
    put_name(&mut line, "target", target)?;
    line.push_str(", ")?;
    put_unit(&mut line, sensed.command.lun)?;
    line.push_str(": ")?;
    line.push_str(failure(sensed.key, sensed.code))?;
    Ok(line)
}

/// Returns the line of a store that failed during a command of a connection.
pub(crate) fn failed_at(
    alloc: Global,
    c: usize,
    names: &LoginNames,
    sensed: &Sensed,
) -> Result<String, AllocError> {
    let mut line = failed(alloc, names.target.as_slice(), sensed)?;
    write!(line, "; connection {c}, ")?;
    put_name(&mut line, "initiator", names.initiator.as_slice())?;
    line.push_str(", ")?;
    put_operation(&mut line, &sensed.command.cdb)?;
    Ok(line)
}

/// Returns the line with the number of lines left out.
pub(crate) fn left_out(alloc: Global, count: u64) -> Result<String, AllocError> {
    let mut line = String::new(alloc);
    write!(line, "{count} lines left out")?;
    Ok(line)
}

/// Returns the line with the number of lines that could not be written before it, as on a full disk.
pub(crate) fn lost(alloc: Global, count: u64) -> Result<String, AllocError> {
    let mut line = String::new(alloc);
    write!(line, "{count} lines could not be written")?;
    Ok(line)
}

/// Returns the line of the address on which the program listens.
pub(crate) fn listening(alloc: Global, address: SocketAddr) -> Result<String, AllocError> {
    let mut line = String::new(alloc);
    write!(line, "listening on {address}")?;
    Ok(line)
}

/// Returns a time in UTC, in the form of RFC 3339.
fn utc(alloc: Global, second: u64) -> Option<String> {
    let timestamp = Timestamp::from_second(i64::try_from(second).ok()?).ok()?;
    timestamp.strftime(alloc, "%Y-%m-%dT%H:%M:%SZ").ok()
}

/// Returns a line with its time and its end, or `None` if an allocation failed or there is no such time.
pub(crate) fn timed(alloc: Global, second: u64, text: &str) -> Option<String> {
    let time = utc(alloc, second)?;
    let mut line = String::new(alloc);
    match writeln!(line, "{time} {text}") {
        Ok(()) => Some(line),
        Err(AllocError) => None,
    }
}
