//! INQUIRY, REPORT LUNS and the data of REQUEST SENSE, even if there is no unit.

ghost use Rattle.std.specs.Prelude.{◌≡◌, ◌≤◌, length, take, IfOk};
ghost use Rattle.scsi_sense.specs.Done.{good_with, check_condition};
ghost use Rattle.scsi_cdb.specs.Fault.{invalid_field};
ghost use Rattle.scsi_inquiry.specs.StandardData.{standard_data};
ghost use Rattle.scsi_inquiry.specs.ProductData.{most_serial, page_of};
ghost use Rattle.scsi_disk.specs.DiskCommands.{most_given};
ghost use Rattle.scsi_unit.specs.Identity.{page_outcome, inquiry_outcome, luns_outcome, sense_outcome, unsupported, without_unit};

use scsi_cdb::{Command, FieldFault, Kind, ReportLunsFields, Row, UnitCommand};
use scsi_disk::done_with_front;
use scsi_inquiry::{Peripheral, VpdPage, luns, page, standard};
use scsi_sense::{Condition, Done, Sense};
use std::alloc::Global;
use target_limits::Memory;

/// Returns CHECK CONDITION with INVALID FIELD IN CDB.
pub(crate) fn field_refused(alloc: Global) -> Done
    ensures { result ≡ check_condition invalid_field }
{
    Done::check_condition(alloc, FieldFault::InvalidField.sense())
}

/// Returns standard INQUIRY data.
fn standard_inquiry(
    alloc: Global,
    peripheral: Peripheral,
    allocation_length: u32,
) -> Result<Done, Memory>
    ensures done { IfOk result (λ done. done ≡ good_with (take allocation_length (standard_data peripheral))) }
    ensures given { IfOk result (λ done. length done.given ≤ most_given) }
{
    done_with_front(alloc, &standard(peripheral), allocation_length)
}

/// Returns a vital product data page, or refuses the field if the unit has no such page.
fn page_inquiry(
    alloc: Global,
    kind: Kind,
    serial: &[u8],
    code: u8,
    allocation_length: u32,
) -> Result<Done, Memory>
    requires { length serial.now ≤ most_serial }
    ensures done { IfOk result (λ done. done ≡ page_outcome kind serial.now allocation_length (page_of code kind)) }
    ensures given { IfOk result (λ done. length done.given ≤ most_given) }
{
    let Some(asked) = VpdPage::of(code, kind) else {
        return Ok(field_refused(alloc));
    };
    let bytes = page(kind, serial, asked);
    done_with_front(alloc, bytes.as_slice(), allocation_length)
}

/// Carries out INQUIRY of a unit.
#[tactic(auto, unfolding(crate::specs::Identity::inquiry_outcome))]
pub(crate) fn inquiry(
    alloc: Global,
    kind: Kind,
    serial: &[u8],
    page: Option<u8>,
    allocation_length: u32,
) -> Result<Done, Memory>
    requires { length serial.now ≤ most_serial }
    ensures done { IfOk result (λ done. done ≡ inquiry_outcome kind serial.now page allocation_length) }
    ensures given { IfOk result (λ done. length done.given ≤ most_given) }
{
    match page {
        Some(code) => page_inquiry(alloc, kind, serial, code, allocation_length),
        None => standard_inquiry(alloc, Peripheral::Unit(kind), allocation_length),
    }
}

/// Carries out REPORT LUNS for units with these numbers.
#[tactic(auto, unfolding(crate::specs::Identity::luns_outcome))]
pub(crate) fn report_luns(
    alloc: Global,
    numbers: &[u8],
    fields: ReportLunsFields,
) -> Result<Done, Memory>
    ensures done { IfOk result (λ done. done ≡ luns_outcome numbers.now fields) }
    ensures given { IfOk result (λ done. length done.given ≤ most_given) }
{
    if fields.allocation_length == 0 {
        return Ok(Done::good(alloc));
    }
    let bytes = luns(alloc, fields.select, numbers)?;
    done_with_front(alloc, &bytes, fields.allocation_length)
}

/// Returns sense data as data with GOOD.
#[tactic(auto, unfolding(crate::specs::Identity::sense_outcome))]
pub(crate) fn sense_data(
    alloc: Global,
    sense: Sense,
    allocation_length: u32,
) -> Result<Done, Memory>
    ensures done { IfOk result (λ done. done ≡ sense_outcome sense allocation_length) }
    ensures given { IfOk result (λ done. length done.given ≤ most_given) }
{
    done_with_front(alloc, &sense.bytes(), allocation_length)
}

/// Returns the sense data LOGICAL UNIT NOT SUPPORTED.
fn not_supported() -> Sense
    ensures { result ≡ unsupported }
{
    Sense::new(Condition::LogicalUnitNotSupported)
}

/// Answers a command if there is no unit: an operation that passes a missing unit is carried out. There are no pages
/// then.
#[tactic(auto, unfolding(crate::specs::Identity::without_unit))]
pub(crate) fn without_unit(alloc: Global, cdb: [u8; 16]) -> Result<Done, Memory>
    ensures done { IfOk result (λ done. done ≡ without_unit cdb) }
    ensures given { IfOk result (λ done. length done.given ≤ most_given) }
{
    let operation = match Row::of(cdb[0]) {
        Some(row) if row.passes_missing_unit => row.operation,
        _ => return Ok(Done::check_condition(alloc, not_supported())),
    };
    match operation.command(cdb, 0) {
        Ok(
            Command::Unit(
                UnitCommand::Inquiry {
                    page: None,
                    allocation_length,
                },
            ),
        ) => standard_inquiry(alloc, Peripheral::NoUnit, allocation_length),
        Ok(Command::Unit(UnitCommand::Inquiry { page: Some(_), .. })) => Ok(field_refused(alloc)),
        Ok(Command::Unit(UnitCommand::RequestSense { allocation_length })) => {
            sense_data(alloc, not_supported(), allocation_length)
        }
        Ok(_) => Ok(Done::check_condition(alloc, not_supported())),
        Err(fault) => Ok(Done::check_condition(alloc, fault.sense())),
    }
}
