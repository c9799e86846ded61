//! That a signal interrupted a call of the system (EINTR, signal(7)).

ghost use Rattle.std.specs.Prelude.{◌≡◌};
ghost use Rattle.media_store.specs.Calls.{was_interrupted};

use std::io;
use std::io::ErrorKind;

/// The most calls of the system that one call of a store makes.
pub(crate) const TRIES: u64 = u64::MAX;

/// Returns whether an error says that a signal interrupted the call.
pub(crate) fn is_interrupted(error: &io::Error) -> bool
    ensures { result ≡ was_interrupted error.now }
{
    match error.kind() {
        ErrorKind::Interrupted => true,
        _ => false,
    }
}
