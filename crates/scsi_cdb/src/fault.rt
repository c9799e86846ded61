//! Why the fields of a command descriptor block are refused.

ghost use Rattle.std.specs.Prelude.{◌≡◌};
ghost use Rattle.scsi_cdb.specs.Fault.{field_sense};

use scsi_sense::{Condition, Sense};

/// Why the fields of a command descriptor block are refused.
#[derive(Clone, Copy)]
pub enum FieldFault {
    /// A field has a value that is not accepted.
    InvalidField,
    /// Saved mode parameters are requested, and there are none.
    SavingNotSupported,
}

impl FieldFault {
    /// Returns the sense data: INVALID FIELD IN CDB, or SAVING PARAMETERS NOT SUPPORTED.
    pub fn sense(self) -> Sense
        ensures { result ≡ field_sense self }
    {
        Sense::new(match self {
            FieldFault::InvalidField => Condition::InvalidFieldInCdb,
            FieldFault::SavingNotSupported => Condition::SavingParametersNotSupported,
        })
    }
}
