//! The results of offers of keys (RFC 7143 §6.2, §12, §13).

ghost use Rattle.std.specs.Prelude.{◌≡◌, IfOk, bytes_eq, decimal, option_map, string_bytes};
ghost use Rattle.iscsi_login.specs.Keys.{word_text, boolean_text, result_text, negotiation_of, transfer_negotiation as transfer_negotiation_of, session_negotiation as session_negotiation_of, is_listed as is_listed_word, boolean_of, result_by, is_answer as is_answer_value, is_name_key, is_passed_over as is_pair_passed_over, is_understood, is_known as is_known_key, settled as settled_of, key_result};

use crate::number::number_in;
use itoa::Buffer;
use std::alloc::Global;
use target_limits::Memory;

/// A word that is sent as an answer.
#[derive(Clone, Copy)]
pub enum Word {
    None,
    Rfc3720,
    Reject,
    NotUnderstood,
}

/// The result of an offer.
#[derive(Clone, Copy)]
pub enum KeyResult {
    /// No answer: the key is a declaration, or the value is itself an answer.
    NoAnswer,
    /// Yes or No, which comes into force.
    Boolean(bool),
    /// A number, which comes into force.
    Number(u32),
    /// A word.
    Word(Word),
}

/// How a key is negotiated (RFC 7143 §6.2), with the value of this target.
#[derive(Clone, Copy)]
pub enum Negotiation {
    /// A list of values, of which this one is chosen.
    Choice(Word),
    /// Yes or No: Yes if either side says so.
    Or(bool),
    /// Yes or No: Yes if both sides say so.
    And(bool),
    /// A number within limits: the smaller of the two.
    Minimum(u32, u32, u32),
    /// A number within limits: the greater of the two.
    Maximum(u32, u32, u32),
    /// This result, whatever is offered.
    Always(KeyResult),
    /// Declared by the initiator alone.
    Declared,
}

const REJECTED: KeyResult = KeyResult::Word(Word::Reject);

impl Word {
    /// Returns the word as it is sent.
    pub(crate) fn text(self) -> &'static str
        ensures { result.now ≡ word_text self }
    {
        match self {
            Word::None => "None",
            Word::Rfc3720 => "RFC3720",
            Word::Reject => "Reject",
            Word::NotUnderstood => "NotUnderstood",
        }
    }
}

/// Returns a boolean value as it is sent.
pub(crate) fn boolean_word(value: bool) -> &'static str
    ensures { result.now ≡ boolean_text value }
{
    if value { "Yes" } else { "No" }
}

/// Returns whether the two texts are equal. Most differ in length, which needs no call to compare.
#[inline]
#[tactic(auto, using(crate::proofs::Texts::lengths_differ))]
pub(crate) fn same(text: &str, other: &str) -> bool
    ensures { result ≡ bytes_eq text.now other.now }
{
    text.len() == other.len() && text == other
}

/// Returns the row of a table with this key, or the last row for a key that has none: a `match` by [`same`].
macro_rules! of_key {
    ($key:expr; $($name:literal => $row:expr,)* _ => $other:expr,) => {{
        $(
            if same($key, $name) {
                return $row;
            }
        )*
        $other
    }};
}

/// Returns how a key is negotiated: the keys of RFC 7143 §12.1 to §13.9, in its order, and then the others.
#[tactic(auto, unfolding(crate::specs::Keys::negotiation_of))]
fn negotiation_for(key: &str) -> Negotiation
    ensures { result ≡ negotiation_of key.now }
{
    of_key! { key;
        "AuthMethod" => Negotiation::Choice(Word::None),
        "HeaderDigest" => Negotiation::Choice(Word::None),
        "DataDigest" => Negotiation::Choice(Word::None),
        "MaxConnections" => Negotiation::Minimum(1, 65535, 1),
        "SendTargets" => Negotiation::Always(REJECTED),
        "TargetName" => Negotiation::Declared,
        "InitiatorName" => Negotiation::Declared,
        "TargetAlias" => Negotiation::Always(REJECTED),
        "InitiatorAlias" => Negotiation::Declared,
        "TargetAddress" => Negotiation::Always(REJECTED),
        "TargetPortalGroupTag" => Negotiation::Always(REJECTED),
        _ => transfer_negotiation(key),
    }
}

/// Returns how a key of RFC 7143 §13.10 to §13.19 is negotiated, in its order, and then the others.
#[tactic(auto, unfolding(crate::specs::Keys::transfer_negotiation))]
fn transfer_negotiation(key: &str) -> Negotiation
    ensures { result ≡ transfer_negotiation_of key.now }
{
    of_key! { key;
        "InitialR2T" => Negotiation::Or(false),
        "ImmediateData" => Negotiation::And(true),
        "MaxRecvDataSegmentLength" => Negotiation::Declared,
        "MaxBurstLength" => Negotiation::Minimum(512, 16_777_215, 262_144),
        "FirstBurstLength" => Negotiation::Minimum(512, 16_777_215, 65_536),
        "DefaultTime2Wait" => Negotiation::Maximum(0, 3600, 2),
        "DefaultTime2Retain" => Negotiation::Minimum(0, 3600, 20),
        "MaxOutstandingR2T" => Negotiation::Minimum(1, 65535, 4),
        "DataPDUInOrder" => Negotiation::Or(true),
        "DataSequenceInOrder" => Negotiation::Or(true),
        _ => session_negotiation(key),
    }
}

/// Returns how a key of RFC 7143 §13.20 to §13.25 is negotiated, or an unknown key.
#[tactic(auto, unfolding(crate::specs::Keys::session_negotiation))]
fn session_negotiation(key: &str) -> Negotiation
    ensures { result ≡ session_negotiation_of key.now }
{
    of_key! { key;
        "ErrorRecoveryLevel" => Negotiation::Minimum(0, 2, 0),
        "SessionType" => Negotiation::Declared,
        "TaskReporting" => Negotiation::Choice(Word::Rfc3720),
        "IFMarker" => Negotiation::Always(KeyResult::Boolean(false)),
        "OFMarker" => Negotiation::Always(KeyResult::Boolean(false)),
        "IFMarkInt" => Negotiation::Always(REJECTED),
        "OFMarkInt" => Negotiation::Always(REJECTED),
        _ => Negotiation::Always(KeyResult::Word(Word::NotUnderstood)),
    }
}

/// Returns whether the key is one of RFC 7143.
#[tactic(auto, unfolding(crate::specs::Keys::is_known))]
pub fn is_known(key: &str) -> bool
    ensures { result ≡ is_known_key key.now }
{
    !matches!(
        negotiation_for(key),
        Negotiation::Always(KeyResult::Word(Word::NotUnderstood))
    )
}

/// Returns whether the word is in the list, which is separated by commas.
#[tactic(auto, unfolding(crate::specs::Keys::is_listed))]
fn is_listed(word: &str, offer: &str) -> bool
    ensures { result ≡ is_listed_word word.now offer.now }
{
    offer.split(',').any(|listed| same(word, listed))
}

/// Returns the boolean value of Yes or No, and `None` for anything else.
#[tactic(auto, unfolding(crate::specs::Keys::boolean_of))]
fn boolean(offer: &str) -> Option<bool>
    ensures { result ≡ boolean_of offer.now }
{
    of_key! { offer;
        "Yes" => Some(true),
        "No" => Some(false),
        _ => None,
    }
}

/// Returns whether the value answers an offer, and so is not an offer itself.
#[tactic(auto, unfolding(crate::specs::Keys::is_answer))]
pub(crate) fn is_answer(value: &str) -> bool
    ensures { result ≡ is_answer_value value.now }
{
    same(value, "NotUnderstood") || same(value, "Irrelevant") || same(value, "Reject")
}

/// Returns whether the key names the initiator, the target or the type of session.
#[tactic(auto, unfolding(crate::specs::Keys::is_name_key))]
pub(crate) fn is_name(key: &str) -> bool
    ensures { result ≡ is_name_key key.now }
{
    same(key, "InitiatorName") || same(key, "TargetName") || same(key, "SessionType")
}

/// Returns whether the pair is ignored: its value answers an offer, and its key is not one of the names.
#[tactic(auto, unfolding(crate::specs::Keys::is_passed_over))]
pub fn is_passed_over(key: &str, value: &str) -> bool
    ensures { result ≡ is_pair_passed_over key.now value.now }
{
    is_answer(value) && !is_name(key)
}

impl Negotiation {
    /// Returns the result of an offer. One of wrong form or out of range is rejected.
    #[tactic(auto, unfolding(crate::specs::Keys::result_by))]
    fn result(self, offer: &str) -> KeyResult
        ensures { result ≡ result_by self offer.now }
    {
        match self {
            Negotiation::Choice(word) => {
                if is_listed(word.text(), offer) {
                    return KeyResult::Word(word);
                }
                REJECTED
            }
            Negotiation::Or(own) => match boolean(offer) {
                Some(value) => KeyResult::Boolean(value || own),
                None => REJECTED,
            },
            Negotiation::And(own) => match boolean(offer) {
                Some(value) => KeyResult::Boolean(value && own),
                None => REJECTED,
            },
            Negotiation::Minimum(low, high, own) => match number_in(offer, low, high) {
                Some(value) => KeyResult::Number(own.min(value)),
                None => REJECTED,
            },
            Negotiation::Maximum(low, high, own) => match number_in(offer, low, high) {
                Some(value) => KeyResult::Number(own.max(value)),
                None => REJECTED,
            },
            Negotiation::Always(result) => result,
            Negotiation::Declared => KeyResult::NoAnswer,
        }
    }
}

/// Returns the result of an offer. A value that is an answer gets no answer.
#[tactic(auto, unfolding(crate::specs::Keys::settled))]
pub(crate) fn settled(key: &str, offer: &str) -> KeyResult
    ensures { result ≡ settled_of key.now offer.now }
{
    if is_answer(offer) {
        return KeyResult::NoAnswer;
    }
    negotiation_for(key).result(offer)
}

/// Returns a number as it is sent, in decimal.
fn number_text(alloc: Global, value: u32) -> Result<String, Memory>
    ensures { IfOk result (λ text. string_bytes text ≡ decimal value) }
{
    let mut buffer = Buffer::new();
    Ok(String::from_str(alloc, buffer.format(value))?)
}

/// Returns the answer to an offer of a key, if there is any.
#[tactic(auto, unfolding(crate::specs::Keys::key_result))]
pub fn settle_key(alloc: Global, key: &str, offer: &str) -> Result<Option<String>, Memory>
    ensures { IfOk result (λ answer. option_map string_bytes answer ≡ key_result key.now offer.now) }
{
    let answer = match settled(key, offer) {
        KeyResult::NoAnswer => return Ok(None),
        KeyResult::Boolean(value) => String::from_str(alloc, boolean_word(value))?,
        KeyResult::Number(value) => number_text(alloc, value)?,
        KeyResult::Word(word) => String::from_str(alloc, word.text())?,
    };
    Ok(Some(answer))
}
