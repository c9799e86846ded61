//! The data that PERSISTENT RESERVE IN returns.

ghost use Rattle.std.specs.Prelude.{◌≡◌, ◌++◌, IfOk, OnOk};
ghost use Rattle.std.specs.List.{flat_map};
ghost use Rattle.scsi_reserve.specs.ReadIn.{key_bytes, keys_data, reservation_data, data_of};

use crate::table::Table;
use scsi_cdb::ReadAction;
use scsi_conflict::{Row, own_key};
use std::alloc::AllocError;

/// The types of reservations that exist, and that they are reported (TMV).
const CAPABILITIES: [u8; 8] = [0x00, 0x08, 0x00, 0x80, 0xea, 0x01, 0x00, 0x00];

/// Appends the keys of registrations to other bytes.
fn write_keys(list: &mut Vec<u8>, rows: &[Row]) -> Result<(), AllocError>
    ensures { OnOk result (list.new.items ≡ list.old.items ++ flat_map key_bytes rows.now) }
{
    for row in rows {
        list.extend_from_slice(&row.key.to_be_bytes())?;
    }
    Ok(())
}

impl Table {
    /// Returns the data of PERSISTENT RESERVE IN. No data is truncated to an allocation length here. It fails only if
    /// an allocation fails.
    pub fn read_in(&self, action: ReadAction) -> Result<Vec<u8>, AllocError>
        ensures { IfOk result (λ list. list.items ≡ data_of action self.now) }
    {
        match action {
            ReadAction::ReadKeys => self.keys(),
            ReadAction::ReadReservation => self.reservation(),
            ReadAction::ReportCapabilities => Vec::from_slice(self.alloc, &CAPABILITIES),
        }
    }

    /// Returns the data of READ KEYS.
    #[tactic(auto, unfolding(crate::specs::ReadIn::keys_data))]
    fn keys(&self) -> Result<Vec<u8>, AllocError>
        ensures { IfOk result (λ list. list.items ≡ keys_data self.now) }
    {
        let mut list = Vec::new(self.alloc);
        list.extend_from_slice(&self.generation.to_be_bytes())?;
        list.extend_from_slice(&(8 * self.rows.len() as u32).to_be_bytes())?;
        write_keys(&mut list, self.rows.as_slice())?;
        Ok(list)
    }

    /// Returns the data of READ RESERVATION.
    #[tactic(auto, unfolding(crate::specs::ReadIn::reservation_data))]
    fn reservation(&self) -> Result<Vec<u8>, AllocError>
        ensures { IfOk result (λ list. list.items ≡ reservation_data self.now) }
    {
        let mut list = Vec::new(self.alloc);
        list.extend_from_slice(&self.generation.to_be_bytes())?;
        let Some(reservation) = &self.reservation else {
            list.extend_from_slice(&[0; 4])?;
            return Ok(list);
        };
        let key = if reservation.kind.is_of_all() {
            0
        } else {
            own_key(self.rows.as_slice(), &reservation.holder).unwrap_or(0)
        };
        list.extend_from_slice(&16_u32.to_be_bytes())?;
        list.extend_from_slice(&key.to_be_bytes())?;
        list.extend_from_slice(&[0, 0, 0, 0, 0, reservation.kind.code(), 0, 0])?;
        Ok(list)
    }
}
