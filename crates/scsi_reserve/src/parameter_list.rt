//! The parameter list of PERSISTENT RESERVE OUT.

ghost use Rattle.std.specs.Prelude.{◌≡◌};
ghost use Rattle.scsi_reserve.specs.Request.{list_of};

use byteorder::{BigEndian, ByteOrder};
use scsi_sense::Condition;

/// The number of bytes of a parameter list.
const LIST_LENGTH: usize = 24;

/// SPEC_I_PT, ALL_TG_PT and APTPL, in byte 20.
const REFUSED_BITS: u8 = 0x08 | 0x04 | 0x01;

/// The keys of a parameter list (SPC-4 "Basic PERSISTENT RESERVE OUT parameter list").
#[derive(Clone, Copy)]
pub(crate) struct ParameterList {
    /// RESERVATION KEY: the caller's own.
    pub key: u64,
    /// SERVICE ACTION RESERVATION KEY.
    pub action_key: u64,
}

impl ParameterList {
    /// Returns the keys that the bytes encode, or why the list is refused.
    pub fn read(list: &[u8]) -> Result<ParameterList, Condition>
        ensures { result ≡ list_of list.now }
    {
        if list.len() != LIST_LENGTH {
            return Err(Condition::ParameterListLengthError);
        }
        if list[20] & REFUSED_BITS != 0 {
            return Err(Condition::InvalidFieldInParameterList);
        }
        Ok(ParameterList {
            key: BigEndian::read_u64(list),
            action_key: BigEndian::read_u64(&list[8..]),
        })
    }
}
