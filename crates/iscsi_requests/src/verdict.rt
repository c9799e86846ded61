//! The verdict on a frame.

use iscsi_pdu::RejectReason;

/// What becomes of a frame in full feature phase.
#[derive(Clone, Copy)]
pub enum Verdict {
    /// Its number is outside the window, or has come before (RFC 7143 §4.2.2.1).
    Ignored,
    /// It is a Data-Out for a command that is not there.
    Dropped,
    /// It is answered by a Reject (RFC 7143 §11.17), and uses no number.
    Rejected(RejectReason),
    /// It breaks a rule of RFC 7143, and the connection closes.
    Violating,
    /// It is executed in its turn.
    Accepted,
    /// It is a Data-Out with data that is due.
    Feeding,
}
