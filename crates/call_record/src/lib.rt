//! A record of calls that only clauses read: it has no bytes and costs no time.
//!
//! A program that asks the system for something notes what it asked and what the answer was. The clauses of the
//! program may then speak of the whole conversation, of which no code keeps anything:
//!
//! ```text
//!   code                                        clauses
//!   let answer = write(file, at, bytes)         calls = record { numbers = at, count; bytes; flags = failed } ∷ ..
//!   record.note(&[at, count], bytes, &[failed])
//! ```
//!
//! Promised:
//!
//! - [`Record::new`] has no call in it.
//! - [`Record::note`] puts a call in front of those noted before, [`Record::note_joined`] one whose bytes lie in four
//!   slices.
//!
//! The first and the last are proved by hand, since they set what no memory holds; the body of the last is empty. Whether
//! a note is true of its call is for the reader of the noting function to check: the note is beside the call.
#![tactic(auto)]

mod record;

pub use record::Record;
