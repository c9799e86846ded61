//! Reading a command descriptor block.

ghost use Rattle.std.specs.Prelude.{◌≡◌};
ghost use Rattle.scsi_cdb.specs.Fault.{invalid_operation_code};
ghost use Rattle.scsi_cdb.specs.Command.{command_of};

use crate::command::Command;
use crate::operation::{Kind, Row};
use scsi_sense::{Condition, Sense};

/// A command descriptor block of up to 16 bytes, filled with zeros (RFC 7143 §11.3.5).
pub struct Cdb;

impl Cdb {
    /// Returns the command that the bytes encode for a unit of this kind, or why they are refused. An operation that
    /// does not exist is refused before any field. A tape's block length is as in
    /// [`Operation::command`](crate::Operation::command).
    pub fn read(bytes: [u8; 16], kind: Kind, block_length: u32) -> Result<Command, Sense>
        ensures { result ≡ command_of bytes kind block_length }
    {
        let Some(row) = Row::for_kind(bytes[0], kind) else {
            return Err(Cdb::no_operation());
        };
        match row.operation.command(bytes, block_length) {
            Ok(command) => Ok(command),
            Err(fault) => Err(fault.sense()),
        }
    }

    /// Returns the sense data INVALID COMMAND OPERATION CODE.
    pub fn no_operation() -> Sense
        ensures { result ≡ invalid_operation_code }
    {
        Sense::new(Condition::InvalidCommandOperationCode)
    }
}
