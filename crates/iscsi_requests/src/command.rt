//! Which requests are SCSI Commands.

ghost use Rattle.std.specs.Prelude.{◌≡◌};
ghost use Rattle.iscsi_requests.specs.Requests.{is_command};

use iscsi_pdu::{Frame, Opcode};

/// Returns whether a frame is a SCSI Command.
pub fn is_command(frame: &Frame) -> bool
    ensures { result ≡ is_command frame.now }
{
    matches!(frame.header.opcode(), Opcode::ScsiCommand)
}
