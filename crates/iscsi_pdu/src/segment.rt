//! Data segments and their padding (RFC 7143 §11.1).

ghost use Rattle.std.specs.Prelude.{◌≡◌, ◌+◌, ◌-◌, ◌<◌, ◌≤◌, ◌^◌, ◌++◌, length, IfErr, OnOk, OnErr};
ghost use Rattle.iscsi_pdu.specs.Segment.{most_data, padded, segment};

use crate::fault::PduFault;
use crate::header::HEADER_LENGTH;
use bytes::BytesMut;

/// The length in bytes of the longest data segment that is accepted or sent.
pub const MOST_DATA: usize = 262144;

/// Returns the length of a data segment with its padding to a multiple of 4.
pub fn padded(length: usize) -> usize
    requires { length < 2 ^ 32 }
    ensures { result ≡ padded length }
{
    4 * ((length + 3) / 4)
}

/// Returns how many bytes pad a data segment of this length to a multiple of 4.
pub fn padding(length: usize) -> usize
    ensures value { result ≡ padded length - length }
    ensures bound { result ≤ 3 }
{
    (4 - length % 4) % 4
}

/// Writes a header, its data segment and the padding, or nothing.
pub fn put(out: &mut BytesMut, header: &[u8; HEADER_LENGTH], body: &[u8]) -> Result<(), PduFault>
    requires { length body.now ≤ most_data }
    ensures ok { OnOk result (out.new.items ≡ out.old.items ++ (header.now ++ segment body.now)) }
    ensures spare { OnOk result (length (header.now ++ segment body.now) ≤ out.old.spare
        → out.new.spare + length (header.now ++ segment body.now) ≡ out.old.spare) }
    ensures err { OnErr result (out.new.items ≡ out.old.items) }
    ensures memory { IfErr result (λ fault. fault ≡ PduFault.Memory) }
    ensures full { OnErr result (out.old.spare < length (header.now ++ segment body.now)) }
{
    let padding = &[0; 3][..padding(body.len())];
    let length = header.len() + body.len() + padding.len();
    if out.capacity() - out.len() < length {
        out.reserve(length)?;
    }
    out.extend_reserved(header);
    out.extend_reserved(body);
    out.extend_reserved(padding);
    Ok(())
}
