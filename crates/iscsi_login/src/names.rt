//! The session that the first whole text asks for: its names, and its TSIH.

ghost use Rattle.std.specs.Prelude.{◌≡◌, ◌<◌, ◌==◌, length, map, Some, None, true, false, codes, IfOk, IfErr, IfSome, MatchResult, string_bytes};
ghost use Rattle.iscsi_login.specs.Lookup.{lookup_in};
ghost use Rattle.iscsi_login.specs.LoginState.{IsTargetBelow};
ghost use Rattle.iscsi_login.specs.Session.{is_of as is_session_of, target_named};
ghost use Rattle.iscsi_login.specs.Rules.{refusal_by, rules_of_names, rules_of_handle, said as said_by, session_type, is_normal, is_discovery, target_asked, told_of, asked_for, first_refusal, Tells};

use crate::directory::Directory;
use crate::fault::Fault;
use crate::requested_session::RequestedSession;
use crate::session_params::SessionParams;
use iscsi_pdu::{Header, LoginRefusal};
use iscsi_text::Pairs;
use scsi_sense::Nexus;
use std::alloc::Global;
use target_limits::Memory;

/// The longest name, in bytes (RFC 7143 §4.2.7.2).
const LONGEST_NAME: usize = 223;

/// Returns the value of a key in the text, or an empty text.
#[tactic(auto, unfolding(crate::specs::Rules::said))]
fn what_is_said<'a>(said: &'a Pairs, key: &str) -> &'a str
    ensures { result.now ≡ said_by key.now said.now }
{
    match said.get(key) {
        Some(value) => value,
        None => "",
    }
}

/// Returns the type of the session: Normal if the text does not give one.
#[tactic(auto, unfolding(crate::specs::Rules::session_type))]
fn type_of(said: &Pairs) -> &str
    ensures { result.now ≡ session_type said.now }
{
    match said.get("SessionType") {
        Some(value) => value,
        None => "Normal",
    }
}

/// Returns whether the session is a Normal one.
#[tactic(auto, unfolding(crate::specs::Rules::is_normal))]
pub(crate) fn is_normal_session(said: &Pairs) -> bool
    ensures { result ≡ is_normal said.now }
{
    type_of(said) == "Normal"
}

/// Returns whether the session is a discovery session.
#[tactic(auto, unfolding(crate::specs::Rules::is_discovery))]
fn is_discovery_session(said: &Pairs) -> bool
    ensures { result ≡ is_discovery said.now }
{
    type_of(said) == "Discovery"
}

/// Returns the position of the target with this name.
#[tactic(auto, unfolding(crate::specs::Session::target_named))]
pub fn position(names: &[String], name: &str) -> Option<usize>
    ensures value { result ≡ target_named (map string_bytes names.now) name.now }
    ensures bound { IfSome result (λ at. at < length names.now) }
{
    names.iter().position(|other| other.as_str() == name)
}

/// Returns the position of the target that the text of a Normal session names, or why the names in it are refused.
fn target_of(names: &[String], said: &Pairs) -> Result<usize, LoginRefusal>
    requires normal { is_normal said.now ≡ true }
    requires initiator { (length (said_by (codes "InitiatorName") said.now) == 0) ≡ false }
    ensures rules { MatchResult result (λ _. refusal_by (rules_of_names (map string_bytes names.now) said.now) ≡ None)
        (λ refusal. refusal_by (rules_of_names (map string_bytes names.now) said.now) ≡ Some refusal) }
    ensures target { IfOk result (λ at. target_named (map string_bytes names.now) (said_by (codes "TargetName") said.now) ≡ Some at) }
    ensures bound { IfOk result (λ at. at < length names.now) }
{
    let initiator = what_is_said(said, "InitiatorName");
    let target = what_is_said(said, "TargetName");
    if target.is_empty() {
        return Err(LoginRefusal::MissingParameter);
    }
    if initiator.len() > LONGEST_NAME || target.len() > LONGEST_NAME {
        return Err(LoginRefusal::InitiatorError);
    }
    position(names, target).ok_or(LoginRefusal::TargetNotFound)
}

/// Returns the target that the text asks for, or why the names in it are refused.
#[tactic(auto, unfolding(crate::specs::Rules::target_asked))]
fn target_asked_for(names: &[String], said: &Pairs) -> Result<Option<usize>, LoginRefusal>
    ensures rules { MatchResult result (λ _. refusal_by (rules_of_names (map string_bytes names.now) said.now) ≡ None)
        (λ refusal. refusal_by (rules_of_names (map string_bytes names.now) said.now) ≡ Some refusal) }
    ensures target { IfOk result (λ target. target ≡ target_asked (map string_bytes names.now) said.now) }
    ensures bound { IfOk result (IsTargetBelow (length names.now)) }
{
    let initiator = what_is_said(said, "InitiatorName");
    if initiator.is_empty() {
        return Err(LoginRefusal::MissingParameter);
    }
    if is_normal_session(said) {
        return match target_of(names, said) {
            Ok(target) => Ok(Some(target)),
            Err(refusal) => Err(refusal),
        };
    }
    if !is_discovery_session(said) || initiator.len() > LONGEST_NAME {
        return Err(LoginRefusal::InitiatorError);
    }
    Ok(None)
}

/// Returns the targets that the session may learn of: a discovery session of all, a Normal one of its own.
#[tactic(auto, unfolding(crate::specs::Rules::told_of))]
fn told(alloc: Global, directory: &Directory, said: &Pairs) -> Result<Directory, Memory>
    ensures { IfOk result (λ told. told ≡ told_of directory.now said.now) }
{
    if !is_normal_session(said) {
        return Ok(directory.clone()?);
    }
    let mut targets = Vec::new(alloc);
    targets.push(String::from_str(alloc, what_is_said(said, "TargetName"))?)?;
    Ok(Directory {
        targets,
        portal: directory.portal.clone()?,
    })
}

impl RequestedSession {
    /// Returns whether the other is a session of the same nexus with the same target.
    fn is_same(&self, other: &Option<SessionParams>) -> bool
        ensures { result ≡ is_session_of self.now.nexus self.now.target other.now }
    {
        match other {
            Some(other) => other.is_of(&self.nexus, self.target),
            None => false,
        }
    }
}

/// Returns why the session that is asked for is refused, if it is. A TSIH other than 0 would join a session.
fn refusal_of_handle(
    session: &RequestedSession,
    tsih: u16,
    named: &Option<SessionParams>,
) -> Option<LoginRefusal>
    ensures { result ≡ refusal_by (rules_of_handle session.now tsih named.now) }
{
    if session.is_same(named) {
        return Some(LoginRefusal::TooManyConnections);
    }
    if tsih != 0 {
        return Some(LoginRefusal::SessionDoesNotExist);
    }
    None
}

/// Returns the session that the first whole text asks for, or why it is refused.
#[tactic(auto, unfolding(crate::specs::Rules::asked_for, crate::specs::Rules::first_refusal))]
pub(crate) fn asked(
    alloc: Global,
    directory: &Directory,
    named: &Option<SessionParams>,
    header: &Header,
    said: &Pairs,
) -> Result<RequestedSession, Fault>
    ensures session { IfOk result (λ session. session ≡ asked_for directory.now header.now said.now) }
    ensures bound { IfOk result (λ session. IsTargetBelow (length directory.now.names) session.target) }
    ensures accepted { IfOk result (λ _. first_refusal (lookup_in directory.now named.now) header.now said.now ≡ None) }
    ensures refused { IfErr result (Tells (first_refusal (lookup_in directory.now named.now) header.now said.now)) }
{
    let target = match target_asked_for(directory.targets.as_slice(), said) {
        Ok(target) => target,
        Err(refusal) => return Err(Fault::Refused(refusal)),
    };
    let initiator_name = String::from_str(alloc, what_is_said(said, "InitiatorName"))?;
    let nexus = Nexus {
        initiator_name,
        isid: header.isid(),
    };
    let directory = told(alloc, directory, said)?;
    let session = RequestedSession {
        nexus,
        target,
        directory,
    };
    match refusal_of_handle(&session, header.tsih(), named) {
        Some(refusal) => Err(Fault::Refused(refusal)),
        None => Ok(session),
    }
}
