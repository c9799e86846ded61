//! What REPORT LUNS requests.

ghost use Rattle.std.specs.Prelude.{◌≡◌};
ghost use Rattle.scsi_cdb.specs.Command.{report_luns_of};

use crate::fault::FieldFault;
use byteorder::{BigEndian, ByteOrder};

/// Which logical units are to be reported (SPC-4 "REPORT LUNS command", SELECT REPORT).
#[derive(Clone, Copy)]
pub enum SelectReport {
    /// 00h: all but the well known ones.
    LogicalUnits,
    /// 01h: the well known ones alone.
    WellKnown,
    /// 02h: all.
    All,
}

/// The fields of REPORT LUNS (SPC-4 "REPORT LUNS command").
#[derive(Clone, Copy)]
pub struct ReportLunsFields {
    pub select: SelectReport,
    pub allocation_length: u32,
}

impl ReportLunsFields {
    /// Returns the fields that the bytes encode.
    pub fn read(bytes: &[u8; 16]) -> Result<ReportLunsFields, FieldFault>
        ensures { result ≡ report_luns_of bytes.now }
    {
        let allocation_length = BigEndian::read_u32(&bytes[6..]);
        let select = match bytes[2] {
            0x00 => SelectReport::LogicalUnits,
            0x01 => SelectReport::WellKnown,
            0x02 => SelectReport::All,
            _ => return Err(FieldFault::InvalidField),
        };
        Ok(ReportLunsFields {
            select,
            allocation_length,
        })
    }
}
