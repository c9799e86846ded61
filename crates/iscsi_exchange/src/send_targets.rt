//! The answers to the pairs of a text, written directly as text.

ghost use Rattle.std.specs.Prelude.{◌≡◌, ◌<◌, ◌++◌, ◌∷◌, [], None, Some, codes, length, slice_get, string_bytes, IfOk, OnOk};
ghost use Rattle.iscsi_text.specs.Pairs.{text_of};
ghost use Rattle.iscsi_exchange.specs.SendTargets.{target_pairs, asked_pairs, told_of, discovery_answer, normal_answer, send_targets as targets_sent, pair_answer, pairs_answer};

use iscsi_login::{Directory, SessionParams, is_known, is_passed_over, position};
use iscsi_text::{Pairs, put_pair};
use std::alloc::Global;
use target_limits::Memory;

/// Appends a pair to the text of an answer.
fn put(answer: &mut Vec<u8>, key: &str, value: &str) -> Result<(), Memory>
    ensures { OnOk result (answer.new.items ≡ answer.old.items ++ text_of ((key.now, value.now) ∷ [])) }
{
    if put_pair(answer, key, value).is_err() {
        return Err(Memory);
    }
    Ok(())
}

/// Returns the address of the targets: the portal, with the tag of its group (RFC 7143 §13.8).
fn address(alloc: Global, directory: &Directory) -> Result<String, Memory>
    ensures { IfOk result (λ address. string_bytes address ≡ directory.now.portal ++ codes ",1") }
{
    let mut address = String::from_str(alloc, directory.portal.as_str())?;
    address.push_str(",1")?;
    Ok(address)
}

/// Returns the name of the target at a place.
fn name(directory: &Directory, at: usize) -> &str
    requires { at < length directory.now.names }
    ensures { slice_get directory.now.names at ≡ Some result.now }
{
    directory.targets[at].as_str()
}

/// Returns how many targets there are.
fn count(directory: &Directory) -> usize
    ensures { result ≡ length directory.now.names }
{
    directory.targets.len()
}

/// Appends a target to an answer: its name and its address.
fn put_target(
    alloc: Global,
    answer: &mut Vec<u8>,
    directory: &Directory,
    name: &str,
) -> Result<(), Memory>
    ensures { OnOk result (answer.new.items ≡ answer.old.items ++ text_of (target_pairs directory.now.portal name.now)) }
{
    let address = address(alloc, directory)?;
    put(answer, "TargetName", name)?;
    put(answer, "TargetAddress", address.as_str())
}

/// Appends a target to an answer, if its name is the one that is asked for.
fn put_asked(
    alloc: Global,
    answer: &mut Vec<u8>,
    directory: &Directory,
    name: &str,
    asked: &str,
) -> Result<(), Memory>
    ensures { OnOk result (answer.new.items ≡ answer.old.items ++ text_of (asked_pairs directory.now.portal (Some asked.now) (name.now ∷ []))) }
{
    if asked == name {
        return put_target(alloc, answer, directory, name);
    }
    Ok(())
}

/// Appends all targets to an answer, in their order.
#[tactic(auto, unfolding(crate::specs::SendTargets::told_of))]
fn put_all(alloc: Global, answer: &mut Vec<u8>, directory: &Directory) -> Result<(), Memory>
    ensures { OnOk result (answer.new.items ≡ answer.old.items ++ text_of (told_of directory.now None)) }
{
    for at in 0..count(directory) {
        put_target(alloc, answer, directory, name(directory, at))?;
    }
    Ok(())
}

/// Appends the targets with this name to an answer.
#[tactic(auto, unfolding(crate::specs::SendTargets::told_of))]
fn put_named(
    alloc: Global,
    answer: &mut Vec<u8>,
    directory: &Directory,
    asked: &str,
) -> Result<(), Memory>
    ensures { OnOk result (answer.new.items ≡ answer.old.items ++ text_of (told_of directory.now (Some asked.now))) }
{
    for at in 0..count(directory) {
        put_asked(alloc, answer, directory, name(directory, at), asked)?;
    }
    Ok(())
}

/// Appends the answer to SendTargets in a discovery session.
fn put_discovery(
    alloc: Global,
    answer: &mut Vec<u8>,
    directory: &Directory,
    value: &str,
) -> Result<(), Memory>
    ensures { OnOk result (answer.new.items ≡ answer.old.items ++ text_of (discovery_answer directory.now value.now)) }
{
    if value.is_empty() {
        return put(answer, "SendTargets", "Reject");
    }
    if value == "All" {
        return put_all(alloc, answer, directory);
    }
    put_named(alloc, answer, directory, value)
}

/// Appends the answer to SendTargets in a normal session.
fn put_own(
    alloc: Global,
    answer: &mut Vec<u8>,
    directory: &Directory,
    value: &str,
) -> Result<(), Memory>
    ensures { OnOk result (answer.new.items ≡ answer.old.items ++ text_of (normal_answer directory.now value.now)) }
{
    if value.is_empty() || position(directory.targets.as_slice(), value).is_some() {
        return put_all(alloc, answer, directory);
    }
    put(answer, "SendTargets", "Reject")
}

/// Appends the answer to SendTargets (RFC 7143 Appendix C).
#[tactic(auto, unfolding(crate::specs::SendTargets::send_targets))]
fn put_send_targets(
    alloc: Global,
    answer: &mut Vec<u8>,
    params: &SessionParams,
    value: &str,
) -> Result<(), Memory>
    ensures { OnOk result (answer.new.items ≡ answer.old.items ++ text_of (targets_sent params.now value.now)) }
{
    if params.target.is_none() {
        return put_discovery(alloc, answer, &params.directory, value);
    }
    put_own(alloc, answer, &params.directory, value)
}

/// Appends the answer to a pair, if it has one.
#[tactic(auto, unfolding(crate::specs::SendTargets::pair_answer))]
fn put_answer(
    alloc: Global,
    answer: &mut Vec<u8>,
    params: &SessionParams,
    key: &str,
    value: &str,
) -> Result<(), Memory>
    ensures { OnOk result (answer.new.items ≡ answer.old.items ++ text_of (pair_answer params.now (key.now, value.now))) }
{
    if is_passed_over(key, value) {
        return Ok(());
    }
    if key == "SendTargets" {
        return put_send_targets(alloc, answer, params, value);
    }
    if is_known(key) {
        return put(answer, key, "Reject");
    }
    put(answer, key, "NotUnderstood")
}

/// Returns the text that answers the pairs of a text, in their order.
pub(crate) fn answer_text(
    alloc: Global,
    params: &SessionParams,
    said: &Pairs,
) -> Result<Vec<u8>, Memory>
    ensures { IfOk result (λ text. text.items ≡ text_of (pairs_answer params.now said.now)) }
{
    let mut answer = Vec::new(alloc);
    for at in 0..said.len() {
        let (key, value) = said.pair(at);
        put_answer(alloc, &mut answer, params, key, value)?;
    }
    Ok(answer)
}
