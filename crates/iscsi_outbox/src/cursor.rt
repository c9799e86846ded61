//! How far a command's data has been sent.

ghost use Rattle.std.specs.Prelude.{◌≡◌, ◌<◌, ◌≤◌, ◌+◌, ◌-◌, ◌^◌, ◌++◌, Some, length, take, drop, slice_get, flat_map, OnOk};
ghost use Rattle.std.specs.List.{enumerate_from};
ghost use Rattle.scsi_sense.specs.Given.{headroom};
ghost use Rattle.iscsi_pdu.specs.Answer.{spelling};
ghost use Rattle.iscsi_pdu.specs.DataIn.{data_in_header};
ghost use Rattle.iscsi_pdu.specs.Segment.{most_data};
ghost use Rattle.iscsi_transfer.specs.DataIn.{pieces_of, piece_count};
ghost use Rattle.iscsi_outbox.specs.Answer.{AreAligned, answered, fields_of, unpadded};
ghost use Rattle.iscsi_outbox.specs.Cut.{IsCut};
ghost use Rattle.iscsi_outbox.specs.Cursor.{pieces_left, left, IsPlaced, IsReady};
ghost use Rattle.iscsi_outbox.specs.Offered.{EndsPdu};

use crate::limits::Limits;
use crate::put::put;
use crate::shared::SharedFields;
use bytes::BytesMut;
use iscsi_pdu::{Answer, padding};
use iscsi_transfer::{Piece, piece_at, piece_count};
use scsi_sense::HEADROOM;
use std::alloc::AllocError;

/// How far a command's answer has been sent. Its buffer has room for a header, then the data, then what ends the
/// answer. No byte of the data is moved: the header of the next piece is written over bytes that were sent.
#[derive(Drop)]
pub(crate) struct Cursor {
    pub buffer: BytesMut,
    pub shared: SharedFields,
    pub limits: Limits,
    /// The length of the data, in bytes.
    pub length: usize,
    /// The number of the next piece.
    pub number: usize,
    /// Where in the data the piece that is being sent ends, and the next piece begins.
    pub offset: usize,
    /// The place in the buffer of the next byte to send.
    pub at: usize,
}

/// Writes a header over the bytes at a place.
pub(crate) fn put_over(buffer: &mut BytesMut, at: usize, header: &[u8; HEADROOM])
    requires { at + headroom ≤ length buffer.old.items }
    ensures items { buffer.new.items ≡ take at buffer.old.items ++ (header.now ++ drop (at + headroom) buffer.old.items) }
    ensures spare { buffer.new.spare ≡ buffer.old.spare }
{
    buffer.as_mut_slice()[at..at + HEADROOM].copy_from_slice(header);
}

impl Cursor {
    /// Creates the answer from data that lies in a buffer after room for a header. `last`, the PDU that ends the
    /// command, is appended to the data. Allocates no memory.
    pub fn new(mut buffer: BytesMut, shared: SharedFields, limits: Limits, last: &Answer) -> Cursor
        requires room { headroom ≤ length buffer.items }
        requires short { length (drop headroom buffer.items) < 2 ^ 32 }
        requires spare { length (spelling last.now) + 3 ≤ buffer.spare }
        requires limits { AreAligned limits }
        ensures value { left result ≡ answered shared limits (drop headroom buffer.items) (spelling last.now) }
        ensures ready { IsReady result }
    {
        let length = buffer.len() - HEADROOM;
        buffer.extend_reserved(&[0; 3][..padding(length)]);
        put(&mut buffer, last);
        let mut cursor = Cursor {
            buffer,
            shared,
            limits,
            length,
            number: 0,
            offset: 0,
            at: HEADROOM,
        };
        cursor.start_piece();
        cursor
    }

    /// Creates the answer that lies ready in a buffer, headers and all. None of it is cut any more.
    pub fn ready(buffer: BytesMut, shared: SharedFields, limits: Limits) -> Cursor
        requires room { headroom ≤ length buffer.items }
        requires limits { AreAligned limits }
        ensures value { left result ≡ buffer.items }
        ensures ready { IsReady result }
    {
        Cursor {
            buffer,
            shared,
            limits,
            length: 0,
            number: 0,
            offset: 0,
            at: 0,
        }
    }

    /// Returns the next piece.
    fn piece(&self) -> Piece
        requires placed { IsPlaced self.now }
        requires more { self.now.offset < self.now.length }
        ensures value { slice_get (pieces_of self.now.length self.now.limits.burst self.now.limits.segment) self.now.number ≡ Some result }
        ensures lies { IsCut self.now.length self.now.limits.burst self.now.offset result }
    {
        piece_at(
            self.length,
            self.limits.burst,
            self.limits.segment,
            self.number,
        )
    }

    /// Returns the header of a piece, which has this number.
    fn header(&self, number: usize, piece: Piece) -> [u8; HEADROOM]
        requires number { number < 2 ^ 32 }
        requires offset { piece.offset < 2 ^ 32 }
        requires short { piece.length ≤ most_data }
        requires within { headroom + (piece.offset + piece.length) ≤ length self.now.buffer.items }
        ensures { result ≡ data_in_header (fields_of self.now.shared (drop headroom self.now.buffer.items) (number, piece)) }
    {
        let data = &self.buffer.as_slice()[HEADROOM..];
        let body = &data[piece.offset..piece.offset + piece.length];
        self.shared.header(number, piece, body)
    }

    /// Writes the header of the next piece in front of its data, once the piece before it was sent.
    pub fn start_piece(&mut self)
        requires { IsPlaced self.old }
        ensures same { left self.new ≡ left self.old }
        ensures ready { IsReady self.new }
    {
        if self.offset < self.length && self.at == HEADROOM + self.offset {
            let piece = self.piece();
            let header = self.header(self.number, piece);
            put_over(&mut self.buffer, self.offset, &header);
            self.at = self.offset;
            self.number += 1;
            self.offset += piece.length;
        }
    }

    /// Returns where in the buffer the bytes end that lie together.
    fn end(&self) -> usize
        requires { IsReady self.now }
        ensures more { self.now.offset < self.now.length → result ≡ headroom + self.now.offset }
        ensures last { self.now.length ≤ self.now.offset → result ≡ length self.now.buffer.items }
        ensures ahead { self.now.at ≤ result }
    {
        if self.offset < self.length {
            return HEADROOM + self.offset;
        }
        self.buffer.len()
    }

    /// Returns the next bytes to send, as many as lie together.
    pub fn front(&self) -> &[u8]
        requires { IsReady self.now }
        ensures prefix { result.now ≡ take (length result.now) (left self.now) }
        ensures some { 0 < length (left self.now) → 0 < length result.now }
        ensures ends { EndsPdu (left self.now) result.now }
    {
        &self.buffer.as_slice()[self.at..self.end()]
    }

    /// Skips at most `n` bytes that were sent, as far as they lay together. Returns how many it skipped.
    pub fn skip_some(&mut self, n: usize) -> usize
        requires { IsReady self.old }
        ensures within { result ≤ n }
        ensures there { result ≤ length (left self.old) }
        ensures some { 0 < n → 0 < length (left self.old) → 0 < result }
        ensures rest { left self.new ≡ drop result (left self.old) }
        ensures ready { IsReady self.new }
    {
        let step = n.min(self.end() - self.at);
        self.at += step;
        self.start_piece();
        step
    }

    /// Appends the header of a piece, which has this number, and then the piece.
    fn copy_piece(&self, number: usize, piece: Piece, bytes: &mut Vec<u8>) -> Result<(), AllocError>
        requires number { number < 2 ^ 32 }
        requires offset { piece.offset < 2 ^ 32 }
        requires short { piece.length ≤ most_data }
        requires within { headroom + (piece.offset + piece.length) ≤ length self.now.buffer.items }
        ensures { OnOk result (bytes.new.items ≡ bytes.old.items ++ unpadded self.now.shared (drop headroom self.now.buffer.items) (number, piece)) }
    {
        let header = self.header(number, piece);
        let data = &self.buffer.as_slice()[HEADROOM..];
        bytes.extend_from_slice(&header)?;
        bytes.extend_from_slice(&data[piece.offset..piece.offset + piece.length])?;
        Ok(())
    }

    /// Appends the pieces that are still to come, each after its header.
    fn copy_pieces(&self, bytes: &mut Vec<u8>) -> Result<(), AllocError>
        requires { IsPlaced self.now }
        ensures { OnOk result (bytes.new.items ≡ bytes.old.items
            ++ flat_map (unpadded self.now.shared (drop headroom self.now.buffer.items)) (enumerate_from self.now.number (pieces_left self.now))) }
    {
        let count = piece_count(self.length, self.limits.burst, self.limits.segment);
        for number in self.number..count {
            let piece = piece_at(self.length, self.limits.burst, self.limits.segment, number);
            self.copy_piece(number, piece, bytes)?;
        }
        Ok(())
    }

    /// Appends what is left to send.
    pub fn copy_to(&self, bytes: &mut Vec<u8>) -> Result<(), AllocError>
        requires { IsPlaced self.now }
        ensures { OnOk result (bytes.new.items ≡ bytes.old.items ++ left self.now) }
    {
        let items = self.buffer.as_slice();
        let end = self.at.max(HEADROOM + self.offset);
        let last = self.at.max(HEADROOM + self.length);
        bytes.extend_from_slice(&items[self.at..end])?;
        self.copy_pieces(bytes)?;
        bytes.extend_from_slice(&items[last..])?;
        Ok(())
    }
}
