//! The reasons why the loop ends.

ghost use Rattle.std.specs.Prelude.{◌≡◌};

use thiserror::Error;

/// The call of the ports that failed, each with its number.
#[derive(Clone, Copy, Debug, PartialEq, Eq, Error)]
pub enum ServeFault {
    /// 1: a poll.
    #[error("the ports cannot be polled")]
    Poll = 1,
    /// 2: an accept.
    #[error("no connection can be accepted")]
    Accept = 2,
}

impl ServeFault {
    ghost use Rattle.iscsi_serve.specs.Fault.{fault_number};

    /// Returns the fault's number.
    pub fn number(&self) -> u8
        ensures { result ≡ fault_number self.now }
    {
        *self as u8
    }
}
