//! The data that commands return.

ghost use Rattle.std.specs.Prelude.{◌≡◌, ◌≤◌, length, take, IfOk};
ghost use Rattle.scsi_sense.specs.Done.{good_with};

use scsi_sense::{Done, Given};
use std::alloc::Global;
use target_limits::Memory;

/// Returns the first bytes, at most `most`.
pub(crate) fn front(bytes: &[u8], most: usize) -> &[u8]
    ensures value { result.now ≡ take most bytes.now }
    ensures short { length result.now ≤ most }
{
    if bytes.len() > most {
        &bytes[..most]
    } else {
        bytes
    }
}

/// Returns GOOD with these bytes, truncated to the allocation length.
pub fn done_with_front(alloc: Global, bytes: &[u8], allocation_length: u32) -> Result<Done, Memory>
    ensures done { IfOk result (λ done. done ≡ good_with (take allocation_length bytes.now)) }
{
    let given = Given::copied(alloc, front(bytes, allocation_length as usize))?;
    Ok(Done::good_with(given))
}
