//! A line of the input.

ghost use Rattle.std.specs.Prelude.{◌≡◌, ◌<◌, IfOk, IfSome, option_map};
ghost use Rattle.iscsi_target.specs.Events.{event_view};
ghost use Rattle.target_replay.specs.Line.{connection_in, connection_of, bytes_of, event_of};

use hex::FromHexError;
use iscsi_target::{CONNECTIONS, Event, Memory};
use std::alloc::Global;

/// Reads the number of a connection, in decimal and without leading zeros.
#[tactic(auto, unfolding(crate::specs::Line::connection_of))]
fn connection(text: &str) -> Option<usize>
    ensures value { result ≡ connection_of text.now }
    ensures in_range { IfSome result (λ c. c < 64) }
{
    let number = match *text.as_bytes() {
        [ones @ b'0'..=b'9'] => usize::from(ones - b'0'),
        [tens @ b'1'..=b'9', ones @ b'0'..=b'9'] => {
            10 * usize::from(tens - b'0') + usize::from(ones - b'0')
        }
        _ => return None,
    };
    (number < CONNECTIONS).then_some(number)
}

/// Reads a connection and the bytes on it, in hexadecimal digits of either case.
#[tactic(auto, unfolding(crate::specs::Line::bytes_of))]
fn bytes(alloc: Global, text: &str) -> Result<Option<Event>, Memory>
    ensures event { IfOk result (λ event. option_map event_view event ≡ bytes_of text.now) }
    ensures in_range { IfOk result (λ event. IfSome event (λ e. connection_in e < 64)) }
{
    let Some((number, digits)) = text.split_once(' ') else {
        return Ok(None);
    };
    let Some(connection) = connection(number) else {
        return Ok(None);
    };
    match hex::decode(alloc, digits) {
        Ok(bytes) => Ok(Some(Event::Bytes(connection, bytes))),
        Err(FromHexError::OutOfMemory) => Err(Memory),
        Err(_) => Ok(None),
    }
}

/// Returns the event of a line, given without its newline, or `None` if it has another form:
///
/// ```text
/// open C        bytes C HEX        gone C
/// ```
///
/// C is the number of a connection, in decimal and without leading zeros. HEX are digits of either case, two for each
/// byte, or none.
#[tactic(auto, unfolding(crate::specs::Line::event_of))]
pub fn line(alloc: Global, text: &str) -> Result<Option<Event>, Memory>
    ensures event { IfOk result (λ event. option_map event_view event ≡ event_of text.now) }
    ensures in_range { IfOk result (λ event. IfSome event (λ e. connection_in e < 64)) }
{
    if let Some(number) = text.strip_prefix("open ") {
        return Ok(connection(number).map(Event::Open));
    }
    if let Some(number) = text.strip_prefix("gone ") {
        return Ok(connection(number).map(Event::Gone));
    }
    match text.strip_prefix("bytes ") {
        Some(rest) => bytes(alloc, rest),
        None => Ok(None),
    }
}
