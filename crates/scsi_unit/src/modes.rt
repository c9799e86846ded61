//! MODE SENSE.

ghost use Rattle.std.specs.Prelude.{◌≡◌, ◌≤◌, length, IfOk};
ghost use Rattle.scsi_mode.specs.ModeData.{mode_data};
ghost use Rattle.scsi_disk.specs.DiskCommands.{most_given};
ghost use Rattle.scsi_unit.specs.Unit.{mode_sense_outcome};

use crate::identity::field_refused;
use scsi_cdb::ModeSenseFields;
use scsi_disk::done_with_front;
use scsi_mode::{Parameters, sense};
use scsi_sense::Done;
use std::alloc::Global;
use target_limits::Memory;

/// Carries out MODE SENSE of a unit with these parameters.
#[tactic(auto, unfolding(crate::specs::Unit::mode_sense_outcome))]
pub(crate) fn mode_sense(
    alloc: Global,
    parameters: Parameters,
    fields: ModeSenseFields,
) -> Result<Done, Memory>
    ensures done { IfOk result (λ done. done ≡ mode_sense_outcome fields.allocation_length (mode_data fields parameters)) }
    ensures given { IfOk result (λ done. length done.given ≤ most_given) }
{
    match sense(parameters, fields) {
        Some(bytes) => done_with_front(alloc, bytes.as_slice(), fields.allocation_length),
        None => Ok(field_refused(alloc)),
    }
}
