//! Rejecting a frame.

ghost use Rattle.std.specs.Prelude.{◌≡◌, ◌≤◌, length};
ghost use Rattle.iscsi_pdu.specs.Answer.{spelling};
ghost use Rattle.iscsi_pdu.specs.Frames as pdu;
ghost use Rattle.iscsi_requests.specs.Judging.{reject};

use iscsi_pdu::{Answer, Header, Reject, RejectReason, Stamp};

/// Returns a Reject of the frame with this header (RFC 7143 §11.17).
pub(crate) fn rejected(reason: RejectReason, stamp: Stamp, header: Header) -> Answer<'static>
    ensures value { (frame : pdu.Frame) → frame.header ≡ header → result ≡ reject reason stamp frame }
    ensures short { length (spelling result) ≤ 96 }
{
    Answer::Reject(Reject {
        reason,
        stamp,
        header,
    })
}
