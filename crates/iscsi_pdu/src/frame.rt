//! One PDU as an initiator sent it.

use crate::header::Header;
use std::marker::Model;

/// A whole PDU without its additional header segments and its padding. Clauses see it as the bytes of its header and
/// those of its data segment.
#[derive(Drop)]
pub struct Frame {
    /// The 48 header bytes.
    pub header: Header,
    /// The data segment.
    pub body: Vec<u8>,
}

impl Model for Frame {
    ghost use Rattle.iscsi_pdu.specs.Frames as specs;

    ghost Value = { specs.Frame };

    ghost view = { λ f. record { header = f.header; body = f.body.items } };
}
