//! The text of a login, and which keys and values are refused.

ghost use Rattle.std.specs.Prelude.{◌≡◌, ◌++◌, IfOk, option_map};
ghost use Rattle.std.specs.List.{list_any};
ghost use Rattle.iscsi_login.specs.Rules.{is_again_after, is_segment_refused as is_refused_segment};

use crate::keys::{is_answer, is_name, same};
use crate::number::number_in;
use crate::values::{LEAST_SEGMENT, MOST_SEGMENT};
use iscsi_text::Pairs;
use std::alloc::Global;
use target_limits::Memory;

/// Returns the text so far followed by that of one more request.
pub(crate) fn joined(alloc: Global, kept: &[u8], more: &[u8]) -> Result<Vec<u8>, Memory>
    ensures { IfOk result (λ text. text.items ≡ kept.now ++ more.now) }
{
    let mut text = Vec::from_slice(alloc, kept)?;
    text.extend_from_slice(more)?;
    Ok(text)
}

/// Returns whether this pair repeats a key in a way that is refused. `before` is the earlier value of the key, if it
/// has one. Only a name may be repeated, with the same value.
pub(crate) fn is_again(before: Option<&str>, key: &str, value: &str) -> bool
    ensures { result ≡ is_again_after (key.now, value.now) (option_map (λ said. said.now) before.entry) }
{
    match before {
        Some(before) => !(is_name(key) && before == value),
        None => false,
    }
}

/// Returns whether the value is neither a valid length of a data segment nor an answer (RFC 7143 §13.12).
#[tactic(auto, unfolding(crate::specs::Rules::is_segment_refused))]
fn is_segment_refused(key: &str, value: &str) -> bool
    ensures { result ≡ is_refused_segment (key.now, value.now) }
{
    same(key, "MaxRecvDataSegmentLength")
        && !is_answer(value)
        && number_in(value, LEAST_SEGMENT, MOST_SEGMENT).is_none()
}

/// Returns whether one of the pairs declares an invalid length of a data segment.
pub(crate) fn says_no_segment(pairs: &Pairs) -> bool
    ensures { result ≡ list_any is_refused_segment pairs.now }
{
    for at in 0..pairs.len() {
        let (key, value) = pairs.pair(at);
        if is_segment_refused(key, value) {
            return true;
        }
    }
    false
}
