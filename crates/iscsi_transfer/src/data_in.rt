//! The data of a command in SCSI Data-In PDUs.

ghost use Rattle.std.specs.Prelude.{◌≡◌, ◌≤◌, ◌<◌, Some, IfOk, slice_get};
ghost use Rattle.iscsi_transfer.specs.DataIn.{pieces_of, piece_count};

use std::alloc::{AllocError, Global};

/// The part of a command's data that one SCSI Data-In carries (RFC 7143 §11.7). Its DataSN is its place among the
/// pieces, counted from 0 over all bursts.
#[derive(Clone, Copy)]
pub struct Piece {
    /// Where it begins in the data: the Buffer Offset.
    pub offset: usize,
    /// Its length in bytes.
    pub length: usize,
    /// F: it is the last piece of its burst.
    pub is_final: bool,
}

/// Computes how many pieces data has that may have several.
fn count_among(length: usize, burst: usize, segment: usize) -> usize
    requires burst { 1 ≤ burst }
    requires segment { 1 ≤ segment }
    ensures { result ≡ piece_count length burst segment }
{
    length / burst * burst.div_ceil(segment) + (length % burst).div_ceil(segment)
}

/// Returns how many pieces data of this length has. Less data has no more pieces. Allocates no memory.
#[tactic(auto, using(crate::proofs::Numbered::few_pieces))]
pub fn piece_count(length: usize, burst: usize, segment: usize) -> usize
    requires burst { 1 ≤ burst }
    requires segment { 1 ≤ segment }
    ensures { result ≡ piece_count length burst segment }
{
    if length <= burst && length <= segment {
        // Most data is one piece, which is known without a division.
        return length.min(1);
    }
    count_among(length, burst, segment)
}

/// Returns piece number `number` of data that may have several pieces, like [`piece_at`].
fn piece_among(length: usize, burst: usize, segment: usize, number: usize) -> Piece
    requires burst { 1 ≤ burst }
    requires segment { 1 ≤ segment }
    requires number { number < piece_count length burst segment }
    ensures { slice_get (pieces_of length burst segment) number ≡ Some result }
{
    let each = burst.div_ceil(segment);
    let start = number / each * burst;
    let end = start + burst.min(length - start);
    let offset = start + number % each * segment;
    let length = segment.min(end - offset);
    Piece {
        offset,
        length,
        is_final: offset + length == end,
    }
}

/// Returns piece number `number` of data of this length, counted from 0. The data is cut at the multiples of
/// MaxBurstLength, here `burst`. Each burst is cut at the multiples of the initiator's MaxRecvDataSegmentLength, here
/// `segment`, from its start (RFC 7143 §13.12, §13.13).
#[tactic(auto, using(crate::proofs::Numbered::only_piece))]
pub fn piece_at(length: usize, burst: usize, segment: usize, number: usize) -> Piece
    requires burst { 1 ≤ burst }
    requires segment { 1 ≤ segment }
    requires number { number < piece_count length burst segment }
    ensures { slice_get (pieces_of length burst segment) number ≡ Some result }
{
    if length <= burst && length <= segment {
        return Piece {
            offset: 0,
            length,
            is_final: true,
        };
    }
    piece_among(length, burst, segment, number)
}

/// Returns the pieces in which data of this length is sent, in order, as [`piece_at`] computes them. Empty data has no
/// piece.
pub fn data_ins(
    alloc: Global,
    length: usize,
    burst: usize,
    segment: usize,
) -> Result<Vec<Piece>, AllocError>
    requires burst { 1 ≤ burst }
    requires segment { 1 ≤ segment }
    ensures { IfOk result (λ pieces. pieces.items ≡ pieces_of length burst segment) }
{
    let count = piece_count(length, burst, segment);
    let mut pieces = Vec::with_capacity(alloc, count)?;
    for number in 0..count {
        pieces.push_reserved(piece_at(length, burst, segment, number));
    }
    Ok(pieces)
}
