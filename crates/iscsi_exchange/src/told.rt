//! The answer to a Text Request.

use crate::exchange::Exchange;
use iscsi_pdu::TextStep;
use std::marker::Model;

/// The text of an answer, or a piece of it, and how the exchange continues.
#[derive(Drop)]
pub struct Piece {
    pub step: TextStep,
    pub text: Vec<u8>,
}

impl Model for Piece {
    ghost use Rattle.iscsi_exchange.specs.Exchange.{TextPiece};

    ghost Value = { TextPiece };

    ghost view = { λ p. record { step = p.step; text = p.text.items } };
}

/// The exchange after a request, and its answer.
#[derive(Drop)]
pub struct Told {
    pub exchange: Exchange,
    /// `None` if the request is rejected.
    pub piece: Option<Piece>,
}

impl Model for Told {
    ghost use Rattle.iscsi_exchange.specs.Exchange.{ToldState};

    ghost Value = { ToldState };

    ghost view = { λ t. record { exchange = t.exchange; piece = t.piece } };
}
