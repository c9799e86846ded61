//! The multiples at which a command's data is cut.

ghost use Rattle.std.specs.Prelude.{◌≡◌, ◌&&◌, Some, None, IfSome, is_some, nat_lt, if◌then◌else◌};
ghost use Rattle.iscsi_login.specs.Values.{AreInRange};
ghost use Rattle.iscsi_outbox.specs.Answer.{AreAligned, is_aligned, limits_of, shorter, are_even, AreEven};

use iscsi_login::Values;

/// The multiples at which a command's data is cut (RFC 7143 §13.12, §13.13). Both are multiples of 4, so that no piece
/// but the last has padding.
#[derive(Clone, Copy)]
pub struct Limits {
    /// MaxBurstLength.
    pub burst: usize,
    /// MaxRecvDataSegmentLength of the initiator.
    pub segment: usize,
}

impl Limits {
    /// Returns the limits of a session, if both are multiples of 4.
    pub fn of(values: &Values) -> Option<Limits>
        requires { AreInRange values.now }
        ensures value { result ≡ (if is_aligned (limits_of values.now) then Some (limits_of values.now) else None) }
        ensures aligned { IfSome result (λ limits. AreAligned limits) }
    {
        let burst = values.max_burst_length as usize;
        let segment = values.max_recv_data_segment_length as usize;
        if burst % 4 == 0 && segment % 4 == 0 {
            Some(Limits { burst, segment })
        } else {
            None
        }
    }

    /// Returns the length of all pieces of data but the last, in bytes, if bursts are whole pieces.
    pub fn piece(self) -> Option<usize>
        ensures some { is_some result ≡ (nat_lt 0 (shorter self) && are_even self) }
        ensures value { IfSome result (λ piece. piece ≡ shorter self) }
        ensures even { IfSome result (λ piece. AreEven self) }
    {
        let piece = self.burst.min(self.segment);
        if piece > 0 && self.burst % piece == 0 {
            Some(piece)
        } else {
            None
        }
    }
}
