//! That a call on a store failed.

ghost use Rattle.std.specs.Prelude.{◌≡◌, MatchResult, IsErr};
ghost use Rattle.media_store.specs.Failures.{risen, counted as counted_calls};

use thiserror::Error;

/// A call on a store failed: the device did, or the store does not have the range.
#[derive(Clone, Copy, Debug, PartialEq, Eq, Error)]
#[error("the store failed")]
pub struct StoreFault;

/// Counts a call that failed, and returns its fault.
pub(crate) fn count(failures: &mut u64) -> StoreFault
    ensures { failures.new ≡ risen failures.old }
{
    *failures = failures.saturating_add(1);
    StoreFault
}

/// Counts a call if it failed, and returns its result.
pub(crate) fn counted<T, E: Drop>(
    outcome: Result<T, E>,
    failures: &mut u64,
) -> Result<T, StoreFault>
    ensures value { MatchResult outcome (λ value. result ≡ Ok value) (λ _. IsErr result) }
    ensures failures { failures.new ≡ counted_calls outcome failures.old }
{
    match outcome {
        Ok(value) => Ok(value),
        Err(_) => Err(count(failures)),
    }
}
