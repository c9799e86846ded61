//! Cutting a text into pieces.

ghost use Rattle.std.specs.Prelude.{◌≡◌, ◌*◌, ◌≤◌, IfOk, IsOkUnless};
ghost use Rattle.iscsi_text.specs.Cut.{piece_at, cut_of};

use crate::fault::TextFault;
use std::alloc::Global;
use std::ops::Range;

/// Returns piece number `number` of a text of `len` bytes, counted from 0.
#[tactic(auto, using(crate::proofs::Cuts::next_multiple))]
fn piece(len: usize, limit: usize, number: usize) -> Range<usize>
    requires { number * limit ≤ len }
    ensures { result ≡ piece_at len limit number }
{
    let start = number * limit;
    let end = start + limit.min(len - start);
    start..end
}

/// Returns the pieces of a text of `len` bytes, in order, each as the range of its bytes. The text is cut at the
/// multiples of `limit`. An empty text is one empty piece. The only fault is out of memory.
pub fn cut(alloc: Global, len: usize, limit: usize) -> Result<Vec<Range<usize>>, TextFault>
    requires { 1 ≤ limit }
    ensures pieces { IfOk result (λ pieces. pieces.items ≡ cut_of len limit) }
    ensures memory { IsOkUnless result TextFault.Memory }
{
    let count = len.div_ceil(limit).max(1);
    let mut pieces = Vec::new(alloc);
    for number in 0..count {
        pieces.push(piece(len, limit, number))?;
    }
    Ok(pieces)
}
