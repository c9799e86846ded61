//! The text of an answer.

ghost use Rattle.std.specs.Prelude.{◌≡◌, ◌≤◌, ◌++◌, ◌∷◌, [], length, take, IfOk, OnOk, if◌then◌else◌};
ghost use Rattle.std.specs.List.{filter_map};
ghost use Rattle.iscsi_text.specs.Pairs.{spelled, text_of};
ghost use Rattle.iscsi_login.specs.Values.{with_pairs};
ghost use Rattle.iscsi_login.specs.Login.{longest_piece, answered_pair, answered_text, answer_pairs};

use crate::keys::{KeyResult, boolean_word, settled};
use crate::values::Values;
use iscsi_text::{Pairs, put_pair};
use itoa::Buffer;
use std::alloc::Global;
use target_limits::Memory;

/// The longest piece of an answer's text, in bytes.
pub(crate) const LONGEST_PIECE: usize = 8192;

/// Appends a pair to an answer's text.
fn put(text: &mut Vec<u8>, key: &str, value: &str) -> Result<(), Memory>
    ensures { OnOk result (text.new.items ≡ text.old.items ++ spelled (key.now, value.now)) }
{
    if put_pair(text, key, value).is_err() {
        return Err(Memory);
    }
    Ok(())
}

/// Appends a pair to an answer's text if `is_told` is set.
fn put_told(text: &mut Vec<u8>, is_told: bool, key: &str, value: &str) -> Result<(), Memory>
    ensures { OnOk result (text.new.items ≡ text.old.items ++ text_of (if is_told then (key.now, value.now) ∷ [] else [])) }
{
    if is_told {
        put(text, key, value)?;
    }
    Ok(())
}

/// Appends the result of an offer to an answer's text, if the offer is answered.
fn put_result(text: &mut Vec<u8>, key: &str, answer: KeyResult) -> Result<(), Memory>
    ensures { OnOk result (text.new.items ≡ text.old.items ++ answered_text key.now answer) }
{
    match answer {
        KeyResult::NoAnswer => Ok(()),
        KeyResult::Boolean(value) => put(text, key, boolean_word(value)),
        KeyResult::Number(value) => put(text, key, Buffer::new().format(value)),
        KeyResult::Word(word) => put(text, key, word.text()),
    }
}

/// Appends the results of offers to an answer's text, in their order. Returns the values in force after them, so that
/// each offer is settled once.
fn put_results(text: &mut Vec<u8>, offers: &Pairs, before: Values) -> Result<Values, Memory>
    ensures text { OnOk result (text.new.items ≡ text.old.items ++ text_of (filter_map answered_pair offers.now)) }
    ensures values { IfOk result (λ values. values ≡ with_pairs before offers.now) }
{
    let mut values = before;
    for at in 0..offers.len() {
        let (key, offer) = offers.pair(at);
        let answer = settled(key, offer);
        put_result(text, key, answer)?;
        values = values.with_pair(key, offer, answer);
    }
    Ok(values)
}

/// Returns the text of a whole answer to these offers, and the values in force after them. The text has the portal
/// group's tag if `tells_group` is set. It has the most that the target accepts in one PDU if `is_told` is set (RFC
/// 7143 §13.9, §13.12).
#[tactic(auto, using(crate::proofs::Answered::answer_parts), unfolding(crate::specs::Login::answer_pairs))]
pub(crate) fn answer_text(
    alloc: Global,
    tells_group: bool,
    is_told: bool,
    offers: &Pairs,
    before: Values,
) -> Result<(Vec<u8>, Values), Memory>
    ensures text { IfOk result (λ answer. answer.0.items ≡ text_of (answer_pairs tells_group is_told offers.now)) }
    ensures values { IfOk result (λ answer. answer.1 ≡ with_pairs before offers.now) }
{
    let mut text = Vec::new(alloc);
    put_told(&mut text, tells_group, "TargetPortalGroupTag", "1")?;
    let values = put_results(&mut text, offers, before)?;
    put_told(&mut text, is_told, "MaxRecvDataSegmentLength", "262144")?;
    Ok((text, values))
}

/// Returns the first piece of the text that is still to be sent.
pub(crate) fn first_piece(alloc: Global, due: &[u8]) -> Result<Vec<u8>, Memory>
    ensures piece { IfOk result (λ piece. piece.items ≡ take longest_piece due.now) }
    ensures short { IfOk result (λ piece. length piece.items ≤ longest_piece) }
{
    let length = LONGEST_PIECE.min(due.len());
    Ok(Vec::from_slice(alloc, &due[..length])?)
}
