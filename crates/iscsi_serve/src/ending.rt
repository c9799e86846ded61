//! The connections that have ended in a turn.

ghost use Rattle.std.specs.Prelude.{◌≡◌, ◌<◌, ℕ, true, false, ◌||◌, ◌&&◌, ◌==◌, length, slice_index_or};
ghost use Rattle.iscsi_target.specs.Machine.{link_at, is_open_at, is_closing};

use iscsi_target::Target;
use media_store::Store;
use target_limits::CONNECTIONS;

/// Returns whether the connection has ended, or the target has closed it and nothing waits on it.
#[tactic(auto, using(crate::proofs::Fronts::same_none))]
pub(crate) fn is_done<S: Store>(target: &Target<S>, ended: &[bool; CONNECTIONS], c: usize) -> bool
    requires in_range { c < 64 }
    requires open { is_open_at target.now c ≡ true }
    ensures { result ≡ (slice_index_or ended.now c false || is_closing (link_at target.now c).phase && length (link_at target.now c).waiting == 0) }
{
    ended[c] || target.closing(c) && target.out(c).is_empty()
}

/// Returns whether an open connection has ended in this turn.
pub(crate) fn has_ended<S: Store>(target: &Target<S>, ended: &[bool; CONNECTIONS], c: usize) -> bool
    requires { c < 64 }
    ensures { result ≡ (slice_index_or ended.now c false && is_open_at target.now c) }
{
    ended[c] && target.is_open(c)
}

/// Returns whether at least one of the two holds.
pub(crate) fn either(one: bool, other: bool) -> bool
    ensures { result ≡ (one || other) }
{
    one || other
}

/// Returns whether any connection has ended in this turn.
pub(crate) fn any_ended(ended: &[bool; CONNECTIONS]) -> bool
    ensures { result ≡ false → (c : ℕ) → c < 64 → slice_index_or ended.now c false ≡ false }
{
    for c in 0..CONNECTIONS {
        if ended[c] {
            return true;
        }
    }
    false
}
