//! Whole reads and writes, by calls of the system that may do a part only.

ghost use Rattle.std.specs.Prelude.{is_ok};
ghost use Rattle.media_store.specs.Replay.{Origin};
ghost use Rattle.media_store.specs.Whole.{HasRead, HasWritten};

use crate::fault::StoreFault;
use crate::file_calls::FileCalls;
use crate::interruption::{TRIES, is_interrupted};
use crate::unwritten::Unwritten;

/// Fills a buffer with the bytes from an offset on. A call that a signal interrupts is made again, and
/// one that gives no byte fails: there are fewer.
pub(crate) fn read_whole<C: FileCalls>(
    calls: &mut C,
    at: u64,
    buf: &mut [u8],
) -> Result<(), StoreFault>
    ensures { (origin : Origin) → HasRead origin at buf.new (is_ok result) (C.FileCalls.calls calls.old) (C.FileCalls.calls calls.new) }
{
    let mut done = 0;
    for _ in 0..TRIES {
        if done >= buf.len() {
            return Ok(());
        }
        let Some(from) = at.checked_add(done as u64) else {
            calls.give_up();
            return Err(StoreFault);
        };
        match calls.read_some(from, &mut buf[done..]) {
            Ok(0) => return Err(StoreFault),
            Ok(count) => done += count,
            Err(error) if is_interrupted(&error) => {}
            Err(_) => return Err(StoreFault),
        }
    }
    calls.give_up();
    Err(StoreFault)
}

/// Writes bytes from an offset on, by one call at least. A call that a signal interrupts is made again, and one that
/// takes no byte of some fails.
pub(crate) fn write_whole<C: FileCalls>(
    calls: &mut C,
    at: u64,
    bytes: Unwritten,
) -> Result<(), StoreFault>
    ensures { (origin : Origin) → HasWritten origin at bytes.entry (is_ok result) (C.FileCalls.calls calls.old) (C.FileCalls.calls calls.new) }
{
    let total = bytes.len();
    let mut rest = bytes;
    let mut done = 0;
    for _ in 0..TRIES {
        let Some(to) = at.checked_add(done as u64) else {
            calls.give_up();
            return Err(StoreFault);
        };
        match calls.write_some(to, &rest) {
            Ok(count) => {
                done += count;
                if done >= total {
                    return Ok(());
                }
                if count == 0 {
                    return Err(StoreFault);
                }
                rest = rest.after(count);
            }
            Err(error) if is_interrupted(&error) => {}
            Err(_) => return Err(StoreFault),
        }
    }
    calls.give_up();
    Err(StoreFault)
}
