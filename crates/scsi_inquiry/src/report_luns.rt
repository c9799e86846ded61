//! The logical units of a target.

ghost use Rattle.std.specs.Prelude.{◌≡◌, ◌+◌, ◌*◌, ◌≤◌, ◌++◌, length, IfOk, OnOk};
ghost use Rattle.std.specs.List.{flat_map};
ghost use Rattle.scsi_inquiry.specs.Luns.{rising, reported, lun_field, lun_data};

use scsi_cdb::SelectReport;
use std::alloc::{AllocError, Global};

/// The number of different numbers that a unit can have.
const NUMBERS: u16 = 256;

/// Returns the numbers of all units, rising.
fn rising(alloc: Global, numbers: &[u8]) -> Result<Vec<u8>, AllocError>
    ensures numbers { IfOk result (λ list. list.items ≡ rising numbers.now) }
    ensures few { IfOk result (λ list. length list.items ≤ 256) }
{
    let mut list = Vec::new(alloc);
    for number in 0..NUMBERS {
        let number = number as u8;
        if numbers.contains(&number) {
            list.push(number)?;
        }
    }
    Ok(list)
}

/// Returns the numbers of the units to be reported, rising.
fn reported(alloc: Global, select: SelectReport, numbers: &[u8]) -> Result<Vec<u8>, AllocError>
    ensures numbers { IfOk result (λ list. list.items ≡ reported select numbers.now) }
    ensures few { IfOk result (λ list. length list.items ≤ 256) }
{
    match select {
        SelectReport::LogicalUnits | SelectReport::All => rising(alloc, numbers),
        SelectReport::WellKnown => Ok(Vec::new(alloc)),
    }
}

/// Appends the LUNs of these numbers to other bytes.
fn write_luns(list: &mut Vec<u8>, numbers: &[u8]) -> Result<(), AllocError>
    ensures luns { OnOk result (list.new.items ≡ list.old.items ++ flat_map lun_field numbers.now) }
    ensures length { OnOk result (length list.new.items ≡ length list.old.items + 8 * length numbers.now) }
{
    for number in numbers {
        list.extend_from_slice(&[0, *number, 0, 0, 0, 0, 0, 0])?;
    }
    Ok(())
}

/// Returns the LUNs of units with these numbers, rising (SPC-4 "REPORT LUNS parameter data"). It fails only if an
/// allocation fails.
pub fn luns(alloc: Global, select: SelectReport, numbers: &[u8]) -> Result<Vec<u8>, AllocError>
    ensures luns { IfOk result (λ list. list.items ≡ lun_data select numbers.now) }
    ensures short { IfOk result (λ list. length list.items ≤ 2056) }
{
    let numbers = reported(alloc, select, numbers)?;
    let mut list = Vec::new(alloc);
    list.extend_from_slice(&(8 * numbers.len() as u32).to_be_bytes())?;
    list.extend_from_slice(&[0; 4])?;
    write_luns(&mut list, &numbers)?;
    Ok(list)
}
