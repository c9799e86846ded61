//! Reading the pairs of a text.

ghost use Rattle.std.specs.Prelude.{◌≡◌, ◌<◌, ◌∷◌, length, None, Some, IfOk, IfErr, position};
ghost use Rattle.std.specs.List.{before_first, after_first};
ghost use Rattle.iscsi_text.specs.Pairs.{is_zero, is_equals, pieces, own_fault, text_pairs};
ghost use Rattle.iscsi_text.specs.Reading.{Gives};

use crate::fault::TextFault;
use crate::list::Pairs;
use std::alloc::Global;
use std::collections::BTreeSet;

/// The most bytes that a text may have.
pub const LONGEST_TEXT: usize = 65536;

/// The most bytes that a key may have (RFC 7143 §6.1).
const LONGEST_KEY: usize = 63;

/// The most bytes that a value may have (RFC 7143 §6.1).
const LONGEST_VALUE: usize = 255;

/// Returns the place of the first zero byte.
fn first_zero(text: &[u8]) -> Option<usize>
    ensures { result ≡ position is_zero text.now }
{
    text.iter().position(|byte| *byte == 0)
}

/// Returns the bytes before the first zero byte, whether there is one, and the bytes after it.
fn first_piece(text: &[u8]) -> (&[u8], bool, &[u8])
    requires { 0 < length text.now }
    ensures piece { 0 < length result.0.now →
        pieces text.now ≡ record { bytes = result.0.now; ended = result.1 } ∷ pieces result.2.now }
    ensures empty { length result.0.now ≡ 0 → pieces text.now ≡ pieces result.2.now }
    ensures shorter { length result.2.now < length text.now }
{
    match first_zero(text) {
        Some(end) => (&text[..end], true, &text[end + 1..]),
        None => (text, false, &text[text.len()..]),
    }
}

/// Returns the key and the value of a piece that is not empty, or the piece's own fault.
#[tactic(auto, unfolding(crate::specs::Pairs::own_fault))]
fn pair_in(piece: &[u8], ended: bool) -> Result<(&str, &str), TextFault>
    ensures whole { IfOk result (λ pair.
        own_fault (record { bytes = piece.now; ended = ended }) ≡ None) }
    ensures key { IfOk result (λ pair. pair.0.now ≡ before_first is_equals piece.now) }
    ensures value { IfOk result (λ pair. pair.1.now ≡ after_first is_equals piece.now) }
    ensures fault { IfErr result (λ fault.
        own_fault (record { bytes = piece.now; ended = ended }) ≡ Some fault) }
{
    if !ended {
        return Err(TextFault::NotTerminated);
    }
    let Ok(piece) = std::str::from_utf8(piece) else {
        return Err(TextFault::NotUtf8);
    };
    let Some((key, value)) = piece.split_once('=') else {
        return Err(TextFault::NoKey);
    };
    if key.is_empty() {
        return Err(TextFault::NoKey);
    }
    if LONGEST_KEY < key.len() {
        return Err(TextFault::LongKey);
    }
    if LONGEST_VALUE < value.len() {
        return Err(TextFault::LongValue);
    }
    Ok((key, value))
}

/// Returns the pairs of a text (RFC 7143 §6.1), or its fault. A text that is too long has that fault; any other has
/// the first fault of its first faulty piece. An allocation may fail as well.
#[tactic(auto, unfolding(crate::specs::Pairs::text_pairs))]
pub fn pairs(alloc: Global, text: &[u8]) -> Result<Pairs, TextFault>
    ensures { Gives result (text_pairs text.now) }
{
    if LONGEST_TEXT < text.len() {
        return Err(TextFault::TooLong);
    }
    let mut pairs = Pairs::new(alloc);
    let mut keys = BTreeSet::new(alloc);
    let mut rest = text;
    while !rest.is_empty() {
        let (piece, ended, after) = first_piece(rest);
        if !piece.is_empty() {
            let (key, value) = pair_in(piece, ended)?;
            if !keys.insert(key)? {
                return Err(TextFault::KeyTwice);
            }
            pairs.push(key, value)?;
        }
        rest = after;
    }
    Ok(pairs)
}
