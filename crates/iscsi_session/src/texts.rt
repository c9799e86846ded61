//! Executing the Text Requests that are taken.

ghost use Rattle.std.specs.Prelude.{◌≡◌, ◌≤◌, ◌<◌, ◌+◌, ◌++◌, ◌∷◌, ℕ, List, length, true, IfOk, OnErr};
ghost use Rattle.iscsi_pdu.specs.Answer.{spelling};
ghost use Rattle.iscsi_pdu.specs.Segment.{most_data};
ghost use Rattle.iscsi_exchange.specs.ExchangeState.{ExchangeState};
ghost use Rattle.iscsi_exchange.specs.Exchange.{IsShort, hears};
ghost use Rattle.iscsi_requests.specs.Requests.{Past, frame_of, due};
ghost use Rattle.iscsi_requests.specs.Texts.{is_text as is_text_in, text_answer};
ghost use Rattle.iscsi_session.specs.Room.{room_to_tell};
ghost use Rattle.iscsi_requests.specs.State.{Stands, waiting};
ghost use Rattle.iscsi_session.specs.Runs.{ActsAs, output};

use crate::act::Act;
use crate::rejecting::rejected;
use crate::session::Session;
use iscsi_exchange::Piece;
use iscsi_outbox::Outbox;
use iscsi_pdu::{Answer, Frame, Opcode, RejectReason, Stamp, TextResponse};
use target_limits::Memory;

/// The most bytes that a Text Response or a Reject takes, not counting the text.
const ROOM_TO_TELL: usize = 99;

/// Returns whether a frame is a Text Request.
pub(crate) fn is_text(frame: &Frame) -> bool
    ensures { result ≡ is_text_in frame.now }
{
    matches!(frame.header.opcode(), Opcode::Text)
}

/// Returns how many bytes the text of an answer takes.
fn text_length(piece: &Option<Piece>) -> usize
    requires { IsShort piece.now }
    ensures value { result + 99 ≡ room_to_tell piece.now }
    ensures bound { result ≤ most_data }
{
    match piece {
        Some(piece) => piece.text.len(),
        None => 0,
    }
}

/// Appends the answer to a Text Request to `out`. There must be room for it.
fn put_told(out: &mut Outbox, stamp: Stamp, piece: &Option<Piece>, frame: &Frame)
    requires short { IsShort piece.now }
    requires room { room_to_tell piece.now ≤ out.old.spare }
    ensures { out.new.items ≡ out.old.items ++ spelling (text_answer stamp piece.now frame.now) }
{
    match piece {
        Some(piece) => out.put(&Answer::TextResponse(TextResponse {
            initiator_task_tag: frame.header.initiator_task_tag(),
            stamp,
            step: piece.step,
            text: piece.text.as_slice(),
        })),
        None => out.put(&rejected(RejectReason::InvalidField, stamp, frame.header)),
    }
}

impl Session {
    /// Answers the first request that is due, a Text Request, at the end of `out`. Its exchange continues or is over.
    /// If an allocation fails, nothing changes.
    pub(crate) fn answer_text(&mut self, out: &mut Outbox) -> Result<Act, Memory>
        ensures taken { IfOk result (λ a. 0 < length self.old.tasks.due → a ≡ Act.Taken) }
        ensures acts { IfOk result (λ a. (luns : List ℕ) (past : Past) (k : ℕ) (others : List ℕ) → Stands past self.old → due past ≡ k ∷ others
            → is_text_in (frame_of past.came k) ≡ true
            → (orders : List (List ℕ)) → ActsAs luns k past a self.new (output out.old.items orders) (output out.new.items orders)) }
        ensures grows { (more : List ℕ) × (out.new.items ≡ out.old.items ++ more) }
        ensures fewer { IfOk result (λ a. a ≡ Act.Taken → waiting self.new.tasks < waiting self.old.tasks) }
        ensures params { self.new.params ≡ self.old.params }
        ensures err { OnErr result (self.new ≡ self.old) }
        ensures out_err { OnErr result (out.new.items ≡ out.old.items) }
    {
        let Some(frame) = self.tasks.due() else {
            return Ok(Act::Idle);
        };
        if let Some(length) = self.exchange.text_on(frame, &self.params) {
            out.reserve(length + ROOM_TO_TELL)?;
            let piece = self.exchange.go_on(frame, &self.params)?;
            return Ok(self.answer_told(out, &piece));
        }
        let told = self.exchange.hear(frame, &self.params)?;
        out.reserve(text_length(&told.piece) + ROOM_TO_TELL)?;
        self.exchange = told.exchange;
        Ok(self.answer_told(out, &told.piece))
    }

    /// Finishes the first request that is due, a Text Request that its exchange has heard, and answers it with `piece`.
    /// There must be room for the answer, so no memory is allocated.
    fn answer_told(&mut self, out: &mut Outbox, piece: &Option<Piece>) -> Act
        requires short { IsShort piece.now }
        requires room { room_to_tell piece.now ≤ out.old.spare }
        ensures taken { 0 < length self.old.tasks.due → result ≡ Act.Taken }
        ensures acts { (luns : List ℕ) (past : Past) (k : ℕ) (others : List ℕ) (before : ExchangeState)
            → Stands past (record self.old { exchange = before }) → due past ≡ k ∷ others → is_text_in (frame_of past.came k) ≡ true
            → record { exchange = self.old.exchange; piece = piece.now } ≡ hears before (frame_of past.came k) self.old.params
            → (orders : List (List ℕ)) → ActsAs luns k past result self.new (output out.old.items orders) (output out.new.items orders) }
        ensures grows { (more : List ℕ) × (out.new.items ≡ out.old.items ++ more) }
        ensures fewer { result ≡ Act.Taken → waiting self.new.tasks < waiting self.old.tasks }
        ensures params { self.new.params ≡ self.old.params }
    {
        let Some(frame) = self.tasks.finish_due() else {
            return Act::Idle;
        };
        let stamp = self.next_stamp();
        put_told(out, stamp, piece, &frame);
        Act::Taken
    }
}
