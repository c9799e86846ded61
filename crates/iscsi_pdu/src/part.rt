//! What a framer gives of a piece.

use crate::frame::Frame;
use crate::header::Header;

/// What the next bytes of a piece bring, if the data of a Data-Out is lent while its PDU arrives.
#[derive(Drop)]
pub enum Part<'p> {
    /// All bytes of the piece are used, and no PDU is whole.
    Nothing,
    /// A PDU that is no Data-Out is whole.
    Frame(Frame),
    /// The next data bytes of a Data-Out, lent from the piece, without pad bytes.
    Data(Header, &'p [u8]),
    /// The last byte of a Data-Out came. Its data was lent before.
    End(Header),
}
