//! What PERSISTENT RESERVE IN and PERSISTENT RESERVE OUT request.

ghost use Rattle.std.specs.Prelude.{◌≡◌};
ghost use Rattle.scsi_cdb.specs.PersistentReserve.{read_action_of, reserve_in_of, action_of, is_type as is_type_named, takes_type, reserve_out_of};

use crate::fault::FieldFault;
use byteorder::{BigEndian, ByteOrder};

/// SERVICE ACTION, in byte 1.
const SERVICE_ACTION: u8 = 0x1F;

/// TYPE, in byte 2.
const TYPE: u8 = 0x0F;

/// A service action of PERSISTENT RESERVE IN (SPC-4 "PERSISTENT RESERVE IN command").
#[derive(Clone, Copy)]
pub enum ReadAction {
    /// 00h
    ReadKeys,
    /// 01h
    ReadReservation,
    /// 02h
    ReportCapabilities,
}

impl ReadAction {
    /// Returns the service action of this code.
    pub fn of(code: u8) -> Option<ReadAction>
        ensures { result ≡ read_action_of code }
    {
        match code {
            0x00 => Some(ReadAction::ReadKeys),
            0x01 => Some(ReadAction::ReadReservation),
            0x02 => Some(ReadAction::ReportCapabilities),
            _ => None,
        }
    }
}

/// The fields of PERSISTENT RESERVE IN (SPC-4 "PERSISTENT RESERVE IN command").
#[derive(Clone, Copy)]
pub struct ReserveInFields {
    pub action: ReadAction,
    pub allocation_length: u16,
}

impl ReserveInFields {
    /// Returns the fields that the bytes encode.
    pub fn read(bytes: &[u8; 16]) -> Result<ReserveInFields, FieldFault>
        ensures { result ≡ reserve_in_of bytes.now }
    {
        let allocation_length = BigEndian::read_u16(&bytes[7..]);
        match ReadAction::of(bytes[1] & SERVICE_ACTION) {
            Some(action) => Ok(ReserveInFields {
                action,
                allocation_length,
            }),
            None => Err(FieldFault::InvalidField),
        }
    }
}

/// A service action of PERSISTENT RESERVE OUT (SPC-4 "PERSISTENT RESERVE OUT service actions").
#[derive(Clone, Copy)]
pub enum ServiceAction {
    /// 00h
    Register,
    /// 01h
    Reserve,
    /// 02h
    Release,
    /// 03h
    Clear,
    /// 04h
    Preempt,
    /// 06h
    RegisterAndIgnoreExistingKey,
}

impl ServiceAction {
    /// Returns the service action of this code.
    pub fn of(code: u8) -> Option<ServiceAction>
        ensures { result ≡ action_of code }
    {
        match code {
            0x00 => Some(ServiceAction::Register),
            0x01 => Some(ServiceAction::Reserve),
            0x02 => Some(ServiceAction::Release),
            0x03 => Some(ServiceAction::Clear),
            0x04 => Some(ServiceAction::Preempt),
            0x06 => Some(ServiceAction::RegisterAndIgnoreExistingKey),
            _ => None,
        }
    }

    /// Returns whether it is accepted with this SCOPE and TYPE.
    fn takes_type(self, scope: u8, code: u8) -> bool
        ensures { result ≡ takes_type self scope code }
    {
        match self {
            ServiceAction::Reserve | ServiceAction::Release => is_type(scope, code),
            ServiceAction::Register
            | ServiceAction::Clear
            | ServiceAction::Preempt
            | ServiceAction::RegisterAndIgnoreExistingKey => true,
        }
    }
}

/// Returns whether SCOPE and TYPE name a type of reservations (SPC-4 "Persistent reservations type").
fn is_type(scope: u8, code: u8) -> bool
    ensures { result ≡ is_type_named scope code }
{
    scope == 0 && (code == 1 || code == 3 || code == 5 || code == 6 || code == 7 || code == 8)
}

/// The fields of PERSISTENT RESERVE OUT (SPC-4 "PERSISTENT RESERVE OUT command"). SCOPE and TYPE name a type of
/// reservations if the action is RESERVE or RELEASE.
#[derive(Clone, Copy)]
pub struct ReserveOutFields {
    pub action: ServiceAction,
    /// SCOPE
    pub scope: u8,
    /// TYPE
    pub code: u8,
    /// The number of bytes of the parameter list.
    pub list_length: u32,
}

impl ReserveOutFields {
    /// Returns the fields that the bytes encode.
    pub fn read(bytes: &[u8; 16]) -> Result<ReserveOutFields, FieldFault>
        ensures { result ≡ reserve_out_of bytes.now }
    {
        let list_length = BigEndian::read_u32(&bytes[5..]);
        let scope = bytes[2] / 16;
        let code = bytes[2] & TYPE;
        match ServiceAction::of(bytes[1] & SERVICE_ACTION) {
            Some(action) if action.takes_type(scope, code) => Ok(ReserveOutFields {
                action,
                scope,
                code,
                list_length,
            }),
            _ => Err(FieldFault::InvalidField),
        }
    }
}
