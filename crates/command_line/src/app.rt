//! The commands and their options, as `clap` gets them.

ghost use Rattle.std.specs.Prelude.{◌≡◌, false, IfOk};
ghost use Rattle.clap.specs.Words.{app_of, rule_of};
ghost use Rattle.command_line.specs.App.{app, config_rule};

use clap::builder::ValueParser;
use clap::{Arg, Command};
use std::alloc::{AllocError, Global};

/// Returns `--config F`.
fn config<'a>(alloc: Global) -> Arg<'a>
    ensures rule { rule_of result ≡ config_rule }
    ensures local { result.global ≡ false }
{
    Arg::new(alloc, "config")
        .long("config")
        .required(true)
        .value_parser(ValueParser::NonEmptyString)
}

/// Returns `replay` and `serve` with their options. A call for help is no command.
pub fn command<'a>(alloc: Global) -> Result<Command<'a>, AllocError>
    ensures { IfOk result (λ command. app_of command ≡ app) }
{
    let replay = Command::new(alloc, "replay").arg(config(alloc))?;
    let turns = Arg::new(alloc, "turns").long("turns");
    let serve = Command::new(alloc, "serve").arg(config(alloc))?.arg(turns)?;
    Command::new(alloc, "targetd")
        .no_binary_name(true)
        .disable_help_flag(true)
        .disable_help_subcommand(true)
        .subcommand(replay)?
        .subcommand(serve)
}
