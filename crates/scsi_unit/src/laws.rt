//! Laws of the definitions. The functions do nothing: their contracts are the laws.

ghost use Rattle.scsi_unit.specs.Failed.{CommandsLeaveFailed, WriteErrorsFailUnits, FailedUnitsRefuse};

/// States that a unit of which a write, a cut or a sync failed is not ready until it is opened again (own):
///
/// - `fails`: after a command that was answered with 03/0C00, the unit has failed.
/// - `stays`: a unit that has failed still has after every command, however that comes out.
/// - `refuses`: it answers each operation that needs its medium with 04/4400, and nothing changes. The exception is an
///   operation that an earlier check refuses, for a unit attention or a reservation.
#[tactic(auto, using(crate::proofs::Failed::commands_leave_failed, crate::proofs::WriteErrors::write_errors_fail_units, crate::proofs::Failed::failed_units_refuse))]
pub fn failed_units_stay_failed()
    ensures fails { WriteErrorsFailUnits }
    ensures stays { CommandsLeaveFailed }
    ensures refuses { FailedUnitsRefuse }
{}
