//! When ports over sockets ask the system, and when they put off a write.

ghost use Rattle.std.specs.Prelude.{◌≡◌, true, false, option_map};
ghost use Rattle.std.specs.Duration.{as_nanos};
ghost use Rattle.iscsi_ports.specs.Readiness as ready;
ghost use Rattle.iscsi_ports.specs.Polls.{wait_for};
ghost use Rattle.iscsi_ports.specs.Asking as asking;

use crate::socket_failure::SocketFailure;
use std::time::Duration;

/// For how many seconds a poll waits at most while an accept is to be tried again, a connection lingers, or a buffer is
/// kept.
const SHORTLY: u64 = 1;

/// How many polls in a row are answered at most without asking the system.
pub(crate) const MOST_UNASKED: u32 = 63;

/// A poll asks once this number of bytes was read and written without asking.
const MOST_CARRIED: usize = 262_144;

/// The bytes of a header (RFC 7143 §11.2.1).
pub(crate) const HEADER: usize = 48;

/// A write of fewer bytes may be put off.
const MOST_PUT_OFF: usize = 262_144;

/// Returns whether a poll asks in any case: as many polls were answered as may be, or bytes carried, without asking the
/// system.
pub(crate) fn is_due(unasked: u32, most_unasked: u32, carried: usize) -> bool
    ensures { result ≡ asking.is_due unasked most_unasked carried }
{
    unasked >= most_unasked || carried >= MOST_CARRIED
}

/// Returns whether bytes that are ahead were just read, or something was done right after a poll that asked. A poll
/// does not ask then, unless it is due.
pub(crate) fn is_to_go_on(holding: bool, busy: bool, unasked: u32) -> bool
    ensures { result ≡ asking.is_to_go_on holding busy unasked }
{
    holding || busy && unasked == 0
}

/// Counts the bytes that were carried without asking, after a read or a write, up to [`MOST_CARRIED`].
pub(crate) fn carried_after(answer: Result<usize, SocketFailure>, carried: usize) -> usize
    ensures { result ≡ asking.carried_after answer carried }
{
    match answer {
        Ok(count) => carried.saturating_add(count).min(MOST_CARRIED),
        Err(_) => carried,
    }
}

/// Returns how many polls in a row may be answered without asking, once the system was asked: twice as many and one,
/// up to 63.
pub(crate) fn longer(most_unasked: u32) -> u32
    ensures { result ≡ asking.longer most_unasked }
{
    if most_unasked >= MOST_UNASKED / 2 {
        return MOST_UNASKED;
    }
    2 * most_unasked + 1
}

/// Returns whether a write is put off that is offered this number of bytes. It is, if bytes of the connection were just
/// read and those that are ahead may hold a whole header, whose answer can go with it.
pub(crate) fn is_put_off(has_read: bool, ahead: usize, offered: usize) -> bool
    ensures { result ≡ asking.is_put_off has_read ahead offered }
{
    has_read && ahead >= HEADER && offered < MOST_PUT_OFF
}

/// Returns for how long the next poll waits: not at all if there may be more, and no longer than [`SHORTLY`] if an
/// accept is to be tried again.
pub(crate) fn to_wait(busy: bool, refused: bool, wait: Option<Duration>) -> Option<Duration>
    ensures { option_map as_nanos result ≡ wait_for busy refused (option_map as_nanos wait) }
{
    if busy {
        return Some(Duration::ZERO);
    }
    if !refused {
        return wait;
    }
    shortly(wait)
}

/// Returns this wait, but no more than [`SHORTLY`].
pub(crate) fn shortly(wait: Option<Duration>) -> Option<Duration>
    ensures { option_map as_nanos result ≡ wait_for false true (option_map as_nanos wait) }
{
    let shortly = Duration::from_secs(SHORTLY);
    Some(wait.map_or(shortly, |limit| limit.min(shortly)))
}

/// Returns whether an accept was refused: those who wait are still there, and no event will tell of them.
pub(crate) fn is_refused(answer: Result<bool, SocketFailure>) -> bool
    ensures { result ≡ asking.is_refused answer }
{
    matches!(answer, Err(SocketFailure::Refused))
}

/// Returns whether something was done, or is to be tried again at once.
pub(crate) fn goes_on(answer: Result<usize, SocketFailure>) -> bool
    ensures { result ≡ ready.goes_on answer }
{
    matches!(answer, Ok(_) | Err(SocketFailure::Interrupted))
}

/// Returns whether a read gave bytes.
pub(crate) fn gave(answer: Result<usize, SocketFailure>) -> bool
    ensures { result ≡ asking.gave answer }
{
    match answer {
        Ok(count) => count > 0,
        Err(_) => false,
    }
}

/// Returns how many polls in a row may be answered without asking, after a write.
pub(crate) fn most_after(answer: Result<usize, SocketFailure>, most_unasked: u32) -> u32
    ensures { result ≡ asking.most_after answer most_unasked }
{
    match answer {
        Err(SocketFailure::WouldWait) => 0,
        _ => most_unasked,
    }
}
