//! The descriptors 0 to 2, which belong to the standard streams, and which nothing else may get.
//!
//! A program may be started with one of them closed. The system gives the next file that is opened the lowest free
//! number. If that file is a disk, the output to a standard stream would be written into it:
//!
//! ```text
//! 2 is closed     Streams::take opens /dev/null as 2, and holds it     a disk is opened as 3 or above
//! ```
//!
//! [`Streams::take`] opens files until one gets another number, or three are held. It holds each that got one of these
//! numbers, and records what the system returned for each opening. The first file is for standard input, and is held
//! only if it got that number.
//!
//! No contract says that the recorded number is the file's, which a reader has to check. That the system gives the
//! lowest free number is its own promise (open(2)).
#![tactic(auto)]

mod streams;

pub use streams::Streams;
