//! The rules whose breach closes a connection (RFC 7143), in words.

use iscsi_pdu::{MOST_DATA, Opcode};
use std::alloc::AllocError;

/// What bounds the data of a sequence (RFC 7143 §11.3.4, §11.8.4, §13.14).
#[derive(Clone, Copy)]
pub(crate) enum Bound {
    FirstBurstLength,
    ExpectedLength,
    Ask,
}

/// A rule, and how a PDU broke it.
#[derive(Clone, Copy)]
pub(crate) enum Violation {
    /// A data segment of this length is above what is taken (RFC 7143 §13.12).
    LongSegment {
        length: usize,
    },
    /// Full feature phase has not begun, and it is no Login Request (RFC 7143 §6.3).
    BeforeFullFeature,
    /// It is a Login Request, and full feature phase has begun (RFC 7143 §6.3).
    InFullFeature,
    /// Its tag is FFFFFFFFh (RFC 7143 §11.2.1.8).
    ReservedTag,
    /// Its tag is that of a request without an answer (RFC 7143 §11.2.1.8).
    TagInUse,
    /// A command without W brings data (RFC 7143 §11.3.1).
    DataWithoutWrite,
    /// A command brings data, and ImmediateData is No (RFC 7143 §13.11).
    ImmediateData,
    /// A command with W has no F, and InitialR2T is Yes (RFC 7143 §13.10).
    UnsolicitedData,
    /// A command brings more data than a bound (RFC 7143 §13.14).
    LongImmediateData {
        reached: usize,
        end: usize,
        bound: Bound,
    },
    /// A Data-Out comes for a command whose data has all come, or was not asked for yet (RFC 7143 §11.7.4).
    NothingDue {
        tag: u32,
    },
    /// Another Target Transfer Tag is that of the open sequence (RFC 7143 §11.7.4).
    TransferTag {
        tag: u32,
        due: u32,
    },
    /// Another DataSN is next in the sequence (RFC 7143 §11.7.5).
    DataSn {
        number: u32,
        due: u32,
    },
    /// Another Buffer Offset is next in the data (RFC 7143 §11.7.6).
    BufferOffset {
        offset: usize,
        due: usize,
    },
    /// The data of a Data-Out goes past its bound (RFC 7143 §11.7, §13.14).
    LongData {
        reached: usize,
        end: usize,
        bound: Bound,
    },
    /// F comes before the end of what an R2T asked for (RFC 7143 §11.7.1).
    EarlyFinal {
        reached: usize,
        end: usize,
    },
    /// F is missing at the end of what an R2T asked for (RFC 7143 §11.7.1).
    NoFinal {
        end: usize,
    },
}

/// The PDU that closed its connection.
#[derive(Clone, Copy)]
pub(crate) struct Offence {
    pub(crate) opcode: Opcode,
    pub(crate) tag: u32,
    /// `None`: which rule it broke is not certain.
    pub(crate) violation: Option<Violation>,
}

/// Returns the name of a PDU of an initiator (RFC 7143 §11.2.1.2).
fn name(opcode: Opcode) -> Option<&'static str> {
    match opcode {
        Opcode::NopOut => Some("NOP-Out"),
        Opcode::ScsiCommand => Some("SCSI Command"),
        Opcode::TaskManagement => Some("Task Management Function Request"),
        Opcode::Login => Some("Login Request"),
        Opcode::Text => Some("Text Request"),
        Opcode::DataOut => Some("SCSI Data-Out"),
        Opcode::Logout => Some("Logout Request"),
        Opcode::Snack => Some("SNACK Request"),
        Opcode::Other(_) => None,
    }
}

/// Returns the name of a bound.
fn bound_name(bound: Bound) -> &'static str {
    match bound {
        Bound::FirstBurstLength => "FirstBurstLength",
        Bound::ExpectedLength => "Expected Data Transfer Length",
        Bound::Ask => "its R2T",
    }
}

/// Appends a Buffer Offset that came, and the one that was due.
fn put_offset(line: &mut String, offset: usize, due: usize) -> Result<(), AllocError> {
    write!(line, "Buffer Offset {offset} in place of {due}")
}

/// Appends the byte that was reached, and on which side of a bound it lies.
fn put_reached(
    line: &mut String,
    what: &str,
    reached: usize,
    side: &str,
    end: usize,
    bound: Bound,
) -> Result<(), AllocError> {
    let name = bound_name(bound);
    write!(line, "{what} byte {reached}, {side} {end} ({name})")
}

/// Appends a rule, and how a PDU broke it.
fn put_violation(line: &mut String, violation: Violation) -> Result<(), AllocError> {
    match violation {
        Violation::LongSegment { length } => {
            write!(line, "data segment of {length} bytes, above {MOST_DATA}")
        }
        Violation::BeforeFullFeature => line.push_str("before full feature phase"),
        Violation::InFullFeature => line.push_str("in full feature phase"),
        Violation::ReservedTag => line.push_str("reserved Initiator Task Tag"),
        Violation::TagInUse => line.push_str("Initiator Task Tag in use"),
        Violation::DataWithoutWrite => line.push_str("immediate data without W"),
        Violation::ImmediateData => line.push_str("immediate data with ImmediateData=No"),
        Violation::UnsolicitedData => line.push_str("W without F with InitialR2T=Yes"),
        Violation::LongImmediateData {
            reached,
            end,
            bound,
        } => put_reached(line, "immediate data to", reached, "past", end, bound),
        Violation::NothingDue { tag } => {
            write!(line, "Target Transfer Tag {tag:08X}h, where no data is due")
        }
        Violation::TransferTag { tag, due } => {
            write!(
                line,
                "Target Transfer Tag {tag:08X}h in place of {due:08X}h"
            )
        }
        Violation::DataSn { number, due } => write!(line, "DataSN {number} in place of {due}"),
        Violation::BufferOffset { offset, due } => put_offset(line, offset, due),
        Violation::LongData {
            reached,
            end,
            bound,
        } => put_reached(line, "data to", reached, "past", end, bound),
        Violation::EarlyFinal { reached, end } => {
            put_reached(line, "F at", reached, "before", end, Bound::Ask)
        }
        Violation::NoFinal { end } => write!(line, "no F at byte {end} (its R2T)"),
    }
}

/// Appends the PDU that closed its connection, and the rule that it broke.
pub(crate) fn put_offence(line: &mut String, offence: &Offence) -> Result<(), AllocError> {
    let tag = offence.tag;
    match (name(offence.opcode), offence.opcode) {
        (None, Opcode::Other(number)) => write!(line, "opcode {number:02X}h")?,
        (None, _) => line.push_str("a PDU")?,
        (Some(name), _) => line.push_str(name)?,
    }
    write!(line, " ({tag:08X}h), ")?;
    match offence.violation {
        Some(violation) => put_violation(line, violation),
        None => line.push_str("a rule that is not known"),
    }
}
