//! An exchange of texts.

ghost use Rattle.std.specs.Prelude.{◌≡◌, ◌≤◌, ◌<◌, [], length, drop, is_some, true, Some, IfOk, IfSome, OnOk, OnErr};
ghost use Rattle.iscsi_exchange.specs.ExchangeState.{no_exchange, open_with};
ghost use Rattle.iscsi_exchange.specs.Exchange.{rejects, tells, piece_limit as limit_of, sends, keeps, answers_to, hears_in, hears, text_on, IsLongAs, IsShort};
ghost use Rattle.iscsi_pdu.specs.Segment.{most_data};
ghost use Rattle.iscsi_text.specs.Pairs.{text_pairs};

use crate::send_targets::answer_text;
use crate::told::{Piece, Told};
use iscsi_login::SessionParams;
use iscsi_pdu::{EXCHANGE_TAG, Frame, MOST_DATA, RESERVED_TAG, TextStep};
use iscsi_text::{LONGEST_TEXT, TextFault, pairs};
use std::alloc::Global;
use std::marker::Model;
use target_limits::Memory;

/// The state of an exchange of texts (RFC 7143 §11.10). It has the text so far that is to be continued, and the rest of
/// an answer that is still to be sent. A session has one exchange at a time.
#[derive(Drop)]
pub struct Exchange {
    alloc: Global,
    is_open: bool,
    kept: Vec<u8>,
    /// The answer. No more of it was sent than is left.
    answer: Vec<u8>,
    /// How many of its bytes were sent.
    sent: usize,
}

impl Model for Exchange {
    ghost use Rattle.std.specs.Prelude.{◌≤◌, ◌+◌, length, drop};
    ghost use Rattle.iscsi_exchange.specs.ExchangeState.{ExchangeState};

    ghost Value = { ExchangeState };

    ghost view = { λ e. record { is_open = e.is_open; kept = e.kept.items; due = drop e.sent e.answer.items } };

    ghost invariant = { λ e. e.sent + e.sent ≤ length e.answer.items };
}

/// Returns the most text that one answer carries, in bytes: what the initiator takes (RFC 7143 §13.12), and no more
/// than a PDU of this target has.
fn piece_limit(params: &SessionParams) -> usize
    ensures value { result ≡ limit_of params.now }
    ensures bound { result ≤ most_data }
{
    MOST_DATA.min(params.values.max_recv_data_segment_length as usize)
}

impl Exchange {
    /// Creates an exchange that is not open. Allocates no memory.
    pub fn none(alloc: Global) -> Exchange
        ensures { result ≡ no_exchange }
    {
        Exchange {
            alloc,
            is_open: false,
            kept: Vec::new(alloc),
            answer: Vec::new(alloc),
            sent: 0,
        }
    }

    /// Returns the rest of the answer, which is still to be sent.
    fn due(&self) -> &[u8]
        ensures { result.now ≡ self.now.due }
    {
        &self.answer[self.sent..]
    }

    /// Returns the answer to a Text Request in a session with these parameters, and the exchange after it. The only
    /// error is out of memory.
    #[tactic(auto, unfolding(crate::specs::Exchange::hears))]
    pub fn hear(&self, request: &Frame, params: &SessionParams) -> Result<Told, Memory>
        ensures told { IfOk result (λ told. told ≡ hears self.now request.now params.now) }
        ensures short { IfOk result (λ told. IsShort told.piece) }
    {
        let tag = request.header.target_transfer_tag();
        if tag == RESERVED_TAG {
            return Exchange::none(self.alloc).hear_in(request, params);
        }
        if self.is_open && tag == EXCHANGE_TAG {
            return self.hear_in(request, params);
        }
        Ok(rejected(self.alloc))
    }

    /// Returns the answer to a request of this exchange, and the exchange after it.
    #[tactic(auto, unfolding(crate::specs::Exchange::hears_in))]
    fn hear_in(&self, request: &Frame, params: &SessionParams) -> Result<Told, Memory>
        ensures told { IfOk result (λ told. told ≡ hears_in self.now request.now params.now) }
        ensures short { IfOk result (λ told. IsShort told.piece) }
    {
        let due = self.due();
        if !due.is_empty() {
            if !request.body.is_empty() {
                return Ok(rejected(self.alloc));
            }
            return send(self.alloc, params, request, due);
        }
        let body = request.body.as_slice();
        if self.kept.is_empty() && !request.header.is_continued() {
            return answer(self.alloc, params, request, body);
        }
        let mut text = Vec::from_slice(self.alloc, self.kept.as_slice())?;
        text.extend_from_slice(body)?;
        if request.header.is_continued() {
            return Ok(keep(self.alloc, text));
        }
        answer(self.alloc, params, request, text.as_slice())
    }

    /// Returns the length in bytes of the text that answers a request which only continues its exchange, so that
    /// [`Exchange::go_on`] can answer it. It is 0 for a piece of a text that continues. For an answer that is longer,
    /// it is what the initiator takes in one PDU. Returns `None` for any other request.
    #[tactic(auto, unfolding(crate::specs::Exchange::text_on))]
    pub fn text_on(&self, request: &Frame, params: &SessionParams) -> Option<usize>
        ensures text { result ≡ text_on self.now request.now params.now }
        ensures short { IfSome result (λ length. length ≤ most_data) }
    {
        let header = &request.header;
        if !self.is_open || header.target_transfer_tag() != EXCHANGE_TAG {
            return None;
        }
        let due = self.due().len();
        if due > 0 {
            let limit = piece_limit(params);
            return (due > limit && request.body.is_empty()).then_some(limit);
        }
        let is_kept = header.is_continued() && self.kept.len() + request.body.len() <= LONGEST_TEXT;
        is_kept.then_some(0)
    }

    /// Answers a request for which [`Exchange::text_on`] returns a length, like [`Exchange::hear`]. The exchange is
    /// changed in place, without a copy. The only error is out of memory, and then nothing changes.
    pub fn go_on(
        &mut self,
        request: &Frame,
        params: &SessionParams,
    ) -> Result<Option<Piece>, Memory>
        requires { is_some (text_on self.old request.now params.now) ≡ true }
        ensures told { IfOk result (λ piece. record { exchange = self.new; piece = piece } ≡ hears self.old request.now params.now) }
        ensures text { IfOk result (λ piece. IsLongAs (text_on self.old request.now params.now) piece) }
        ensures err { OnErr result (self.new ≡ self.old) }
    {
        if self.due().is_empty() {
            self.kept.extend_from_slice(request.body.as_slice())?;
            let text = Vec::new(self.alloc);
            let step = TextStep::GoesOn;
            return Ok(Some(Piece { step, text }));
        }
        let limit = piece_limit(params);
        let text = Vec::from_slice(self.alloc, &self.due()[..limit])?;
        self.skip(limit)?;
        self.kept = Vec::new(self.alloc);
        let step = TextStep::Continued;
        Ok(Some(Piece { step, text }))
    }

    /// Skips `count` bytes of the answer, which were sent. If more was sent than is left, moves what is left, so that
    /// at most twice its length is kept. So all of an answer is copied at most once on its way.
    fn skip(&mut self, count: usize) -> Result<(), Memory>
        requires { count < length self.old.due }
        ensures skipped { OnOk result (self.new ≡ record self.old { due = drop count self.old.due }) }
        ensures err { OnErr result (self.new ≡ self.old) }
    {
        let sent = self.sent + count;
        if sent <= self.answer.len() - sent {
            self.sent = sent;
            return Ok(());
        }
        self.answer = Vec::from_slice(self.alloc, &self.answer[sent..])?;
        self.sent = 0;
        Ok(())
    }
}

/// Returns a rejection, which ends the exchange.
fn rejected(alloc: Global) -> Told
    ensures { result ≡ rejects }
{
    Told {
        exchange: Exchange::none(alloc),
        piece: None,
    }
}

/// Keeps a text that continues, or rejects it if it is too long.
#[tactic(auto, unfolding(crate::specs::Exchange::keeps))]
fn keep(alloc: Global, text: Vec<u8>) -> Told
    ensures told { result ≡ keeps text.items }
    ensures short { IsShort result.piece }
{
    if text.len() > LONGEST_TEXT {
        return rejected(alloc);
    }
    Told {
        exchange: Exchange {
            alloc,
            is_open: true,
            kept: text,
            answer: Vec::new(alloc),
            sent: 0,
        },
        piece: Some(Piece {
            step: TextStep::GoesOn,
            text: Vec::new(alloc),
        }),
    }
}

/// Answers a whole text, or rejects it if it is malformed.
fn answer(
    alloc: Global,
    params: &SessionParams,
    request: &Frame,
    text: &[u8],
) -> Result<Told, Memory>
    ensures told { IfOk result (λ told. told ≡ answers_to params.now request.now (text_pairs text.now)) }
    ensures short { IfOk result (λ told. IsShort told.piece) }
{
    match pairs(alloc, text) {
        Ok(pairs) => {
            let answer = answer_text(alloc, params, &pairs)?;
            send(alloc, params, request, answer.as_slice())
        }
        Err(TextFault::Memory) => Err(Memory),
        Err(_) => Ok(rejected(alloc)),
    }
}

/// Returns an answer after which the exchange continues, with `due` still to be sent.
fn told(alloc: Global, due: Vec<u8>, step: TextStep, text: Vec<u8>) -> Told
    ensures { result ≡ tells (open_with [] due.items) step text.items }
{
    Told {
        exchange: Exchange {
            alloc,
            is_open: true,
            kept: Vec::new(alloc),
            answer: due,
            sent: 0,
        },
        piece: Some(Piece { step, text }),
    }
}

/// Returns an answer that ends its exchange.
fn ended(alloc: Global, text: Vec<u8>) -> Told
    ensures { result ≡ tells no_exchange TextStep.Ends text.items }
{
    Told {
        exchange: Exchange::none(alloc),
        piece: Some(Piece {
            step: TextStep::Ends,
            text,
        }),
    }
}

/// Returns the next piece of an answer, and the exchange after it.
#[tactic(auto, unfolding(crate::specs::Exchange::sends))]
fn send(alloc: Global, params: &SessionParams, request: &Frame, text: &[u8]) -> Result<Told, Memory>
    ensures told { IfOk result (λ told. told ≡ sends params.now request.now text.now) }
    ensures short { IfOk result (λ told. IsShort told.piece) }
{
    let limit = piece_limit(params);
    if text.len() > limit {
        let due = Vec::from_slice(alloc, &text[limit..])?;
        let piece = Vec::from_slice(alloc, &text[..limit])?;
        return Ok(told(alloc, due, TextStep::Continued, piece));
    }
    let text = Vec::from_slice(alloc, text)?;
    if request.header.is_transit() {
        return Ok(ended(alloc, text));
    }
    Ok(told(alloc, Vec::new(alloc), TextStep::GoesOn, text))
}
