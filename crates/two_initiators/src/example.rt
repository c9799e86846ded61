//! The example of the page of `iscsi_target`. Nothing calls it: it is here to be proved.

ghost use Rattle.std.specs.Prelude.{◌≡◌, ◌<◌, false, OnOk};
ghost use Rattle.iscsi_world.specs.Machine.{is_open_at};

use iscsi_target::{Memory, Target};
use media_store::Store;

/// Opens a connection under a free number, feeds what arrived on it, writes a front of the answer, and ends it.
fn answer<S: Store>(
    target: &mut Target<S>,
    c: usize,
    arrived: &[u8],
    written: &mut Vec<u8>,
) -> Result<(), Memory>
    requires in_range { c < 64 }
    requires free { is_open_at target.old c ≡ false }
    ensures { OnOk result (is_open_at target.new c ≡ false) }
{
    // A failed allocation closes one connection; the others go on.
    target.open(c)?;
    target.feed(c, arrived)?;
    // The front ends where a PDU does. A socket may take fewer bytes.
    let front = target.out(c);
    written.extend_from_slice(front)?;
    let count = front.len();
    target.sent(c, count);
    target.gone(c);
    Ok(())
}
