//! What a reservation allows a nexus.

ghost use Rattle.std.specs.Prelude.{◌≡◌};
ghost use Rattle.scsi_conflict.specs.Allowed.{is_allowed_by};

use crate::conflict::{Who, conflict};
use crate::registration::{Reservation, Row};
use scsi_cdb::ReservationClass;
use scsi_sense::Nexus;

/// Returns whether a reservation, if there is one, allows a nexus a command of this class, given the registrations.
#[tactic(auto, using(crate::proofs::Conflicts::allowed_all))]
pub fn allows(
    reservation: &Option<Reservation>,
    rows: &[Row],
    nexus: &Nexus,
    class: ReservationClass,
) -> bool
    ensures { result ≡ is_allowed_by reservation.now rows.now nexus.now class }
{
    match reservation {
        None => true,
        Some(reservation) => {
            // What is allowed to a nexus that is neither is allowed to all, so the registrants are not searched.
            if !conflict(reservation.kind, Who::Neither, class) {
                return true;
            }
            let who = reservation.who(rows, nexus);
            !conflict(reservation.kind, who, class)
        }
    }
}
