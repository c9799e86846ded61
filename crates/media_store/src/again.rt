//! Calls of the system that are made again where a signal interrupts them (EINTR, signal(7)).

ghost use Rattle.media_store.specs.Again.{Tries};
ghost use Rattle.media_store.specs.Calls.{Measured, NotMeasured, Resized, NotResized, Synced, NotSynced};

use crate::fault::StoreFault;
use crate::file_calls::FileCalls;
use crate::interruption::{TRIES, is_interrupted};

/// Returns where the end is.
pub(crate) fn measure<C: FileCalls>(calls: &mut C) -> Result<u64, StoreFault>
    ensures { Tries Measured NotMeasured result (C.FileCalls.calls calls.old) (C.FileCalls.calls calls.new) }
{
    for _ in 0..TRIES {
        match calls.end() {
            Ok(end) => return Ok(end),
            Err(error) if is_interrupted(&error) => {}
            Err(_) => return Err(StoreFault),
        }
    }
    calls.give_up();
    Err(StoreFault)
}

/// Cuts the file to a length, or fills it up with zeros.
pub(crate) fn resize<C: FileCalls>(calls: &mut C, len: u64) -> Result<(), StoreFault>
    ensures { Tries (λ _. Resized len) (NotResized len) result (C.FileCalls.calls calls.old) (C.FileCalls.calls calls.new) }
{
    for _ in 0..TRIES {
        match calls.set_len(len) {
            Ok(()) => return Ok(()),
            Err(error) if is_interrupted(&error) => {}
            Err(_) => return Err(StoreFault),
        }
    }
    calls.give_up();
    Err(StoreFault)
}

/// Waits until what was written is on the medium.
pub(crate) fn sync<C: FileCalls>(calls: &mut C) -> Result<(), StoreFault>
    ensures { Tries (λ _. Synced) NotSynced result (C.FileCalls.calls calls.old) (C.FileCalls.calls calls.new) }
{
    for _ in 0..TRIES {
        match calls.sync() {
            Ok(()) => return Ok(()),
            Err(error) if is_interrupted(&error) => {}
            Err(_) => return Err(StoreFault),
        }
    }
    calls.give_up();
    Err(StoreFault)
}
