//! What is left of the file of a unit that is not opened.

use crate::store::SystemStore;
use media_store::{Start, UnopenedFile};

/// What is left of the file of a unit that is not opened. With it the clauses name the call that failed, or the rule
/// that the file breaks.
#[derive(Drop)]
pub enum Refused<S: Start> {
    /// No unit was refused.
    Nothing,
    /// The file was not opened, or not locked.
    Unopened(UnopenedFile),
    /// The store of a file on which a call failed, or that is no disk, or no tape of the capacity.
    Unfit(SystemStore<S>),
}
