//! What a line of the input does to the target, and what is printed after it.

ghost use Rattle.std.specs.Prelude.{◌≡◌, ◌<◌, List, true, None, IfOk, IfSome, MatchOption, option_map, string_bytes};
ghost use Rattle.iscsi_session.specs.Comings.{Coming};
ghost use Rattle.iscsi_target.specs.History.{History};
ghost use Rattle.iscsi_target.specs.World.{Setting, world};
ghost use Rattle.iscsi_target.specs.Machine.{ReflectsSoundness, IsSure};
ghost use Rattle.iscsi_target.specs.Events.{event_view};
ghost use Rattle.target_replay.specs.Line.{connection_in};
ghost use Rattle.target_replay.specs.Comings.{Kind, IsOf};
ghost use Rattle.target_replay.specs.Printed.{HasSentAll};
ghost use Rattle.target_replay.specs.Reply.{is_allowed, event_in, HasActed, HasReplied, reply_by};

use crate::line::line;
use crate::printing::print;
use iscsi_target::{Event, Memory, Starved, Target};
use media_store::Store;
use std::alloc::Global;
use std::str;

/// Carries out an event if it is allowed, and returns whether it is.
fn act<S: Store>(target: &mut Target<S>, event: &Event) -> Result<bool, Starved>
    requires { connection_in event.now < 64 }
    ensures allowed { IfOk result (λ allowed. (s : Setting) (h : History) → HasSentAll s h target.old
        → allowed ≡ is_allowed (world s h) (event_view event.now)) }
    ensures acted { IfOk result (λ allowed. allowed ≡ true → (kind : Kind) → IsOf kind target.new → (s : Setting) (h : History)
        → HasSentAll s h target.old → HasActed kind s h (event_view event.now) target.new) }
    ensures each { ReflectsSoundness target.old target.new }
    ensures sure { IsSure target.old → IsSure target.new }
{
    match event {
        Event::Open(c) => {
            if target.is_open(*c) {
                return Ok(false);
            }
            target.open(*c)?;
        }
        Event::Bytes(c, piece) => {
            if !target.is_open(*c) {
                return Ok(false);
            }
            target.feed(*c, piece.as_slice())?;
        }
        Event::Gone(c) => {
            if !target.is_open(*c) {
                return Ok(false);
            }
            target.gone(*c);
        }
    }
    Ok(true)
}

/// Returns the event of a line, given without its newline, or `None` if it has another form.
fn event(alloc: Global, bytes: &[u8]) -> Result<Option<Event>, Memory>
    ensures event { IfOk result (λ event. option_map event_view event ≡ event_in bytes.now) }
    ensures in_range { IfOk result (λ event. IfSome event (λ e. connection_in e < 64)) }
{
    match str::from_utf8(bytes) {
        Ok(text) => line(alloc, text),
        Err(_) => Ok(None),
    }
}

/// Carries out a line, given without its newline, and returns what is then printed. Returns `None` if the line has
/// another form or breaks a condition.
pub fn reply<S: Store>(
    alloc: Global,
    target: &mut Target<S>,
    bytes: &[u8],
) -> Result<Option<String>, Memory>
    ensures reply { IfOk result (λ text. (kind : Kind) → IsOf kind target.new → (s : Setting) (h : History) → HasSentAll s h target.old
        → MatchOption text ((comings : List Coming) → reply_by s comings h bytes.now ≡ None)
        (λ text. HasReplied kind s h bytes.now (string_bytes text) target.new)) }
    ensures each { ReflectsSoundness target.old target.new }
    ensures sure { IsSure target.old → IsSure target.new }
{
    let Some(event) = event(alloc, bytes)? else {
        return Ok(None);
    };
    match act(target, &event) {
        Ok(true) => Ok(Some(print(alloc, target)?)),
        Ok(false) => Ok(None),
        Err(Starved { .. }) => Err(Memory),
    }
}
