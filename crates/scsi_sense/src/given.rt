//! The data that a command returns.

ghost use Rattle.std.specs.Prelude.{◌≡◌, ◌<◌, ◌≤◌, ◌^◌, ◌==◌, [], length, drop, IsOk, IfOk, IfErr};
ghost use Rattle.scsi_sense.specs.Given.{headroom, tailroom, gathered, IsLaid};

use bytes::BytesMut;
use std::alloc::{AllocError, Global};
use std::marker::Model;

/// The number of bytes kept free before the data, for the header of the PDU that carries it: a basic header segment
/// (RFC 7143 §11.2.1). The layer that sends the data writes the header there, and shows that it fits.
pub const HEADROOM: usize = 48;

/// The additional room that a buffer has after the data, so that the PDUs that end the command are sent from there too.
/// That is the padding of the data, at most 3 (RFC 7143 §11.1), and a SCSI Response with sense data, 68 (§11.4).
pub const TAILROOM: usize = 71;

/// Where data lies in pieces.
#[derive(Clone, Copy)]
struct Pieces {
    /// The length of each piece but the last, in bytes.
    length: usize,
    count: usize,
}

/// The data that a command returns, as it lies in a buffer: after [`HEADROOM`] bytes, and before room for [`TAILROOM`]
/// more. So it is sent from where it was read. If several PDUs are to carry it, it may lie in pieces, each after
/// [`HEADROOM`] bytes. Clauses see the data.
#[derive(Drop)]
pub struct Given {
    buffer: BytesMut,
    pieces: Option<Pieces>,
}

impl Model for Given {
    ghost use Rattle.std.specs.Prelude.{List, ℕ, ◌<◌, ◌≤◌, length};
    ghost use Rattle.scsi_sense.specs.Given.{tailroom, data_lying, AreThere};

    ghost Value = { List ℕ };

    ghost view = { λ given. data_lying given.pieces given.buffer.items };

    ghost invariant = { λ given. (0 < length (data_lying given.pieces given.buffer.items) → tailroom ≤ given.buffer.spare)
        × AreThere given.pieces given.buffer.items };
}

/// Moves pieces together, after the room for the header of the first.
fn join(buffer: &mut BytesMut, pieces: Pieces)
    requires { IsLaid pieces.length pieces.count buffer.old.items }
    ensures data { drop headroom buffer.new.items ≡ gathered pieces.length pieces.count buffer.old.items }
    ensures spare { buffer.old.spare ≤ buffer.new.spare }
{
    let len = buffer.len();
    for number in 1..pieces.count {
        let from = HEADROOM + number * (HEADROOM + pieces.length);
        let end = len.min(from + pieces.length);
        let to = HEADROOM + number * pieces.length;
        buffer.as_mut_slice().copy_within(from..end, to);
    }
    buffer.truncate(len - HEADROOM * (pieces.count - 1));
}

impl Given {
    /// Returns no data. It allocates nothing.
    pub fn nothing(alloc: Global) -> Given
        ensures { result ≡ [] }
    {
        Given {
            buffer: BytesMut::new(alloc),
            pieces: None,
        }
    }

    /// Returns the data after the room for a header in this buffer, which has room for what is sent after it.
    pub fn in_place(buffer: BytesMut) -> Given
        requires { tailroom ≤ buffer.spare }
        ensures { result ≡ drop headroom buffer.items }
    {
        Given {
            buffer,
            pieces: None,
        }
    }

    /// Returns the data of `count` pieces that lie in this buffer, each after room for a header. All but the last have
    /// `length` bytes. The buffer has room for what is sent after them.
    pub fn in_pieces(buffer: BytesMut, length: usize, count: usize) -> Given
        requires laid { IsLaid «length» count buffer.items }
        requires spare { tailroom ≤ buffer.spare }
        ensures { result ≡ gathered «length» count buffer.items }
    {
        Given {
            buffer,
            pieces: Some(Pieces { length, count }),
        }
    }

    /// Copies this data. It allocates nothing if there is none.
    pub fn copied(alloc: Global, data: &[u8]) -> Result<Given, AllocError>
        ensures data { IfOk result (λ given. given ≡ «data».now) }
        ensures nothing { «data».now ≡ [] → IsOk result }
    {
        if data.is_empty() {
            return Ok(Given::nothing(alloc));
        }
        let mut buffer = BytesMut::new(alloc);
        buffer.reserve(HEADROOM + data.len() + TAILROOM)?;
        buffer.extend_reserved(&[0; HEADROOM]);
        buffer.extend_reserved(data);
        Ok(Given::in_place(buffer))
    }

    pub fn is_empty(&self) -> bool
        ensures { result ≡ (length self.now == 0) }
    {
        self.len() == 0
    }

    pub fn len(&self) -> usize
        ensures value { result ≡ length self.now }
        ensures bound { result < 2 ^ 63 }
    {
        match self.pieces {
            None => self.buffer.len().saturating_sub(HEADROOM),
            Some(pieces) => self.buffer.len() - HEADROOM * pieces.count,
        }
    }

    /// Returns the buffer, in which the data lies after [`HEADROOM`] bytes, and before room for [`TAILROOM`] more. If
    /// there is no data, it may be shorter than that, and have no room. Data that lies in pieces is moved together.
    pub fn into_buffer(self) -> BytesMut
        ensures data { drop headroom result.items ≡ self }
        ensures roomy { 0 < length self → tailroom ≤ result.spare }
    {
        let mut buffer = self.buffer;
        if let Some(pieces) = self.pieces {
            join(&mut buffer, pieces);
        }
        buffer
    }

    /// Returns the buffer, and in how many pieces the data lies in it, if these have this length. If not, returns the
    /// data as it is.
    pub fn into_pieces(self, length: usize) -> Result<(BytesMut, usize), Given>
        ensures laid { IfOk result (λ laid. IsLaid «length» laid.1 laid.0.items × (gathered «length» laid.1 laid.0.items ≡ self)) }
        ensures spare { IfOk result (λ laid. tailroom ≤ laid.0.spare) }
        ensures others { IfErr result (λ given. given ≡ self) }
    {
        match self.pieces {
            Some(pieces) if pieces.length == length => Ok((self.buffer, pieces.count)),
            _ => Err(self),
        }
    }
}
