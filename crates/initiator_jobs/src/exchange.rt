//! How an initiator's bytes are brought to the target, and its answers are taken, as the loop over sockets does it.

use crate::devices::Targets;
use crate::fault::Fault;
use crate::host::Host;

/// The most bytes that the loop reads at a time.
const MOST_READ: usize = 65_536;

/// Opens a connection with this number.
pub fn open(target: &mut Targets, c: usize) -> Result<(), Fault> {
    if c >= 64 || target.is_open(c) {
        return Err(Fault::Unanswered);
    }
    target.open(c)?;
    Ok(())
}

/// Ends a connection after everything that waited on it was sent.
pub fn close(target: &mut Targets, c: usize) -> Result<(), Fault> {
    if c >= 64 || !target.is_open(c) || !target.closing(c) {
        return Err(Fault::Unanswered);
    }
    target.gone(c);
    Ok(())
}

/// Feeds bytes in one piece.
pub fn feed(target: &mut Targets, c: usize, bytes: &[u8]) -> Result<(), Fault> {
    if c >= 64 || !target.is_open(c) {
        return Err(Fault::Unanswered);
    }
    target.feed(c, bytes)?;
    Ok(())
}

/// Brings bytes that arrived together. Feeds as many of them at a time as the target wants.
fn bring_piece(target: &mut Targets, c: usize, bytes: &[u8]) -> Result<(), Fault> {
    let mut rest = bytes;
    for _ in 0..bytes.len() {
        if rest.is_empty() || c >= 64 || !target.is_open(c) {
            break;
        }
        let count = target.want(c).min(MOST_READ).min(rest.len());
        let (front, behind) = rest.split_at(count);
        target.feed(c, front)?;
        rest = behind;
    }
    if !rest.is_empty() {
        return Err(Fault::Unanswered);
    }
    Ok(())
}

/// Brings a stream in pieces of `cut` bytes.
pub fn bring(target: &mut Targets, c: usize, stream: &[u8], cut: usize) -> Result<(), Fault> {
    let mut rest = stream;
    for _ in 0..stream.len() {
        if rest.is_empty() {
            break;
        }
        let (front, behind) = rest.split_at(cut.max(1).min(rest.len()));
        bring_piece(target, c, front)?;
        rest = behind;
    }
    Ok(())
}

/// Takes everything that the target answers.
pub fn drain(target: &mut Targets, host: &mut Host) -> Result<(), Fault> {
    let c = host.c;
    for _ in 0..u64::MAX {
        if c >= 64 || !target.is_open(c) {
            return Err(Fault::Unanswered);
        }
        let front = target.out(c);
        if front.is_empty() {
            break;
        }
        let count = front.len();
        host.answers.take(front)?;
        target.sent(c, count);
    }
    Ok(())
}
