//! The connections that a poll named.

ghost use Rattle.std.specs.Prelude.{◌≡◌};
ghost use Rattle.iscsi_serve.specs.Named.{named_from};

use iscsi_ports::Named;
use target_limits::CONNECTIONS;

/// Returns how many connections the poll named.
pub(crate) fn count_named(named: &Named) -> usize
    ensures { result ≡ named_from named.now 0 }
{
    // A byte, so that the compiler counts 16 at a time: there is a turn for each PDU.
    let mut count: u8 = 0;
    for c in 0..CONNECTIONS {
        if named.connections[c] {
            count += 1;
        }
    }
    usize::from(count)
}
