//! The command line of `targetd`, read by `clap`:
//!
//! ```text
//! replay --config F
//! serve --config F [--turns N]
//! ```
//!
//! The options come in any order, each once, and their value may come after an equals sign. F is not empty. N is a
//! number in decimal digits, below 2^64.
//!
//! These are proved:
//!
//! - [`mode_of`] returns the command if the words are one, and otherwise [`WordsFault::Usage`]. Only if an allocation
//!   fails does it return neither.
//! - [`is_help`] recognizes words that call for help, and [`usage`] returns the text that answers them.
//! - [`as_texts`] returns the words as texts.
#![tactic(auto)]

mod app;
mod fault;
mod help;
mod mode;
mod texts;
mod turns;
mod words;

pub use fault::WordsFault;
pub use help::{is_help, usage};
pub use mode::Mode;
pub use texts::as_texts;
pub use words::mode_of;
