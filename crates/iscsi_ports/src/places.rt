//! Places for the connections of a listener.

ghost use Rattle.std.specs.Prelude.{◌≡◌, length, replicate, None, IfOk};

use std::alloc::{AllocError, Global};
use target_limits::CONNECTIONS;

/// Makes a free place for each number, and one more for a connection for which no number is free.
pub fn free_places<T: Drop>(alloc: Global) -> Result<Vec<Option<T>>, AllocError>
    ensures free { IfOk result (λ places. places.items ≡ replicate 65 None) }
    ensures count { IfOk result (λ places. length places.items ≡ 65) }
{
    let mut places = Vec::with_capacity(alloc, CONNECTIONS + 1)?;
    for _ in 0..CONNECTIONS + 1 {
        places.push(None)?;
    }
    Ok(places)
}
