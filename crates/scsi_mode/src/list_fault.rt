//! Why a parameter list is refused.

ghost use Rattle.std.specs.Prelude.{◌≡◌};
ghost use Rattle.scsi_mode.specs.ParameterList.{fault_sense};

use scsi_sense::{Condition, Sense};

/// Why a parameter list is refused.
#[derive(Clone, Copy)]
pub enum ListFault {
    /// A part of it ends early.
    EndsEarly,
    /// A part of it would change what cannot be changed.
    InvalidField,
}

impl ListFault {
    /// Returns PARAMETER LIST LENGTH ERROR or INVALID FIELD IN PARAMETER LIST.
    pub fn sense(self) -> Sense
        ensures { result ≡ fault_sense self }
    {
        Sense::new(match self {
            ListFault::EndsEarly => Condition::ParameterListLengthError,
            ListFault::InvalidField => Condition::InvalidFieldInParameterList,
        })
    }
}
