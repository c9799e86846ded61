//! Which rule the last PDU of a connection broke, if the target closed the connection for that.
//!
//! A target judges each PDU as soon as it is whole, and reads no further once one broke a rule. As the connection closes
//! all of its answers have been sent. So what passed until then is all that the target knew.

use crate::connection::{Connection, State};
use crate::login_values::LoginValues;
use crate::transfer::{expected, unsolicited_bound};
use crate::violation::{Offence, Violation};
use iscsi_pdu::{Header, Opcode, RESERVED_TAG};

/// Returns the first rule that the data of a SCSI Command breaks, in the order in which a target tests them.
fn command_violation(command: &Header, values: &LoginValues) -> Option<Violation> {
    let length = command.data_length();
    let (end, bound) = unsolicited_bound(values.first_burst_length, expected(command));
    if length > 0 && !command.is_write() {
        Some(Violation::DataWithoutWrite)
    } else if length > 0 && !values.immediate_data {
        Some(Violation::ImmediateData)
    } else if command.is_write() && !command.is_final() && values.initial_r2t {
        Some(Violation::UnsolicitedData)
    } else if end < length {
        Some(Violation::LongImmediateData {
            reached: length,
            end,
            bound,
        })
    } else {
        None
    }
}

impl Connection {
    /// Returns the PDU that closed the connection, and the rule that it broke, as far as they are certain. Nothing else
    /// may have closed the connection.
    pub(crate) fn offence(&self) -> Option<Offence> {
        let header = Header::new(*self.requests.header());
        let violation = if self.requests.is_long() {
            let length = header.data_length();
            Some(Violation::LongSegment { length })
        } else if self.requests.is_whole() {
            self.violation(&header)
        } else {
            return None;
        };
        if violation.is_none() && !self.may_violate(&header) {
            return None;
        }
        Some(Offence {
            opcode: header.opcode(),
            tag: header.initiator_task_tag(),
            violation,
        })
    }

    /// Returns whether a PDU of this kind may break a rule of full feature phase.
    fn may_violate(&self, header: &Header) -> bool {
        match header.opcode() {
            Opcode::ScsiCommand | Opcode::TaskManagement | Opcode::DataOut => self.has_units(),
            _ => false,
        }
    }

    /// Returns whether the connection has a session with the units of a target. In a discovery session most PDUs are
    /// rejected, and break no rule.
    fn has_units(&self) -> bool {
        self.state == State::LoggedIn && !self.names.is_discovery
    }

    /// Returns the rule that a whole PDU broke, if that is certain.
    fn violation(&self, header: &Header) -> Option<Violation> {
        let is_login = header.opcode() == Opcode::Login;
        match self.state {
            State::LoggingIn if !is_login => Some(Violation::BeforeFullFeature),
            State::LoggedIn if is_login && self.unanswered_logins > 0 => {
                Some(Violation::InFullFeature)
            }
            State::LoggedIn if self.has_units() => self.session_violation(header),
            _ => None,
        }
    }

    /// Returns the rule that a PDU of a session with units broke, if that is certain.
    fn session_violation(&self, header: &Header) -> Option<Violation> {
        let tag = header.initiator_task_tag();
        match header.opcode() {
            Opcode::ScsiCommand | Opcode::TaskManagement if tag == RESERVED_TAG => {
                Some(Violation::ReservedTag)
            }
            Opcode::ScsiCommand => match command_violation(header, &self.values) {
                Some(violation) => Some(violation),
                None => self.tag_violation(tag),
            },
            Opcode::TaskManagement => self.tag_violation(tag),
            Opcode::DataOut => {
                let transfer = self.tasks.transfer_of(tag)?;
                transfer.violation_of(header, self.values.first_burst_length)
            }
            _ => None,
        }
    }

    /// Returns that a tag is in use, if a task other than the last one has it.
    fn tag_violation(&self, tag: u32) -> Option<Violation> {
        if self.tasks.live(tag) > 1 {
            return Some(Violation::TagInUse);
        }
        None
    }
}
