//! What a reservation forbids.

ghost use Rattle.std.specs.Prelude.{◌≡◌};
ghost use Rattle.scsi_conflict.specs.Conflict.{is_refused};

use crate::reservation_type::ReservationType;
use scsi_cdb::ReservationClass;

/// The relation of a nexus to a reservation.
#[derive(Clone, Copy)]
pub enum Who {
    Holder,
    /// It is registered, and does not hold the reservation.
    Registrant,
    Neither,
}

/// What a reservation forbids a nexus.
#[derive(Clone, Copy)]
pub(crate) enum Refused {
    Nothing,
    Writing,
    ReadingAndWriting,
}

impl Refused {
    /// Returns whether it forbids commands of this class.
    fn has(self, class: ReservationClass) -> bool
        ensures { result ≡ is_refused self class }
    {
        match (self, class) {
            (_, ReservationClass::Always) | (Refused::Nothing, _) => false,
            (Refused::Writing, ReservationClass::Reading) => false,
            (Refused::Writing, ReservationClass::Writing) => true,
            (Refused::ReadingAndWriting, _) => true,
        }
    }
}

/// Returns what a reservation of this type forbids (SPC-4, SBC-3 and SSC-4, commands that are allowed in the presence
/// of various reservations).
fn refused_to(kind: ReservationType, who: Who) -> Refused
    ensures { result ≡ Rattle.scsi_conflict.specs.Conflict.refused_to kind who }
{
    use Refused::{Nothing, ReadingAndWriting, Writing};
    let (holder, registrant, neither) = match kind {
        ReservationType::WriteExclusive => (Nothing, Writing, Writing),
        ReservationType::ExclusiveAccess => (Nothing, ReadingAndWriting, ReadingAndWriting),
        ReservationType::WriteExclusiveRegistrantsOnly => (Nothing, Nothing, Writing),
        ReservationType::ExclusiveAccessRegistrantsOnly => (Nothing, Nothing, ReadingAndWriting),
        ReservationType::WriteExclusiveAllRegistrants => (Nothing, Nothing, Writing),
        ReservationType::ExclusiveAccessAllRegistrants => (Nothing, Nothing, ReadingAndWriting),
    };
    match who {
        Who::Holder => holder,
        Who::Registrant => registrant,
        Who::Neither => neither,
    }
}

/// Returns whether a command of this class is a RESERVATION CONFLICT.
pub(crate) fn conflict(kind: ReservationType, who: Who, class: ReservationClass) -> bool
    ensures { result ≡ Rattle.scsi_conflict.specs.Conflict.conflict kind who class }
{
    refused_to(kind, who).has(class)
}
