//! What no contract says of stores, shown by tests:
//!
//! - that a file returns what was written
//! - which calls the stores for tests refuse
//! - which calls a tape makes
//!
//! ```text
//!   FileStore::write(0, ab) ──> a file of the system ──> FileStore::read(0, 2) = ab
//! ```
//!
//! Only this is proved: the tests are safe and total. They are apart from `media_store` and `media_tape`, since a crate
//! with test functions is proved twice.
#![tactic(auto)]

#[cfg(test)]
mod stores;
#[cfg(test)]
mod tapes;
