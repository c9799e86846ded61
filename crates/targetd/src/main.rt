//! An iSCSI target as a program.
//!
//! ```text
//! targetd serve --config F [--turns N]
//! ```
//!
//! makes the target that the TOML file F describes, listens on its address, prints
//! `listening on ADDR`, and serves initiators, for N turns or without end.
//!
//! ```text
//! targetd replay --config F
//! ```
//!
//! makes the target that the TOML file F describes, reads events from standard input, one per line,
//! and prints what the target answers:
//!
//! ```text
//! open 0             connection 0 opens
//! bytes 0 43870000   the next bytes come on it
//! gone 0             it has ended
//!
//! 0 23870000         bytes of the target's answer on connection 0
//! 0 closed           the target has closed it
//! ```
//!
//! A run that reaches the end of its input or of its turns has status 0. Any other run prints its
//! [`Fault`], and ends with the fault's status.
#![tactic(auto)]

mod arguments;
mod causes;
mod help;
mod left;
mod opening;
mod run;

use arguments::arguments;
use left::Left;
use media_store::Unknown;
use run::run;
use std::io;
use std::process::ExitCode;
use target_serving::{Fault, status_of};

/// Runs the program with the words of the command line.
fn run_with_words(rt: &HostRuntime) -> Result<(), Fault> {
    let words = arguments(rt)?;
    run::<Unknown, _, _>(
        rt,
        words.as_slice(),
        &mut Left::new(),
        &mut rt.reader(),
        &mut io::writer(rt),
    )
}

fn main(rt: HostRuntime) -> ExitCode {
    let ended = run_with_words(&rt);
    if let Err(fault) = &ended {
        // If standard error fails, there is nowhere left to report it.
        let _ = eprintln!(rt; "{fault}");
    }
    ExitCode::from(status_of(&ended))
}
