//! The command that words give.

ghost use Rattle.std.specs.Prelude.{◌≡◌, ◌⊎◌, true, false, None, Some, map, option_map, MatchResult};
ghost use Rattle.clap.specs.Words.{found_of, rows_of, subcommand_of, subcommand_rows_of};
ghost use Rattle.command_line.specs.App.{app};
ghost use Rattle.command_line.specs.Words.{has_dashes, is_taken, mode_in, mode_named as named_in, mode_view, replay_in, serve_in};
ghost use Rattle.command_line.specs.declared.fault.WordsFault.TheVariants.{Usage, Memory};

use crate::app::command;
use crate::fault::WordsFault;
use crate::mode::Mode;
use crate::turns::turns;
use clap::ArgMatches;
use clap::error::ErrorKind;
use std::alloc::Global;

/// Returns `replay` with the options that were found.
fn replay<'a>(options: &ArgMatches<'a>) -> Option<Mode<'a>>
    ensures { option_map mode_view result ≡ replay_in (rows_of (found_of options.now)) }
{
    let config = options.get_str("config")?;
    Some(Mode::Replay { config })
}

/// Returns `serve` with the options that were found.
fn serve<'a>(options: &ArgMatches<'a>) -> Option<Mode<'a>>
    ensures { option_map mode_view result ≡ serve_in (rows_of (found_of options.now)) }
{
    let config = options.get_str("config")?;
    let turns = turns(options.get_str("turns"))?;
    Some(Mode::Serve { config, turns })
}

/// Returns the command that was found, with its options.
fn mode_named<'a>(matches: &ArgMatches<'a>) -> Option<Mode<'a>>
    ensures { option_map mode_view result ≡ named_in (subcommand_rows_of matches.now) }
{
    let (name, options) = matches.subcommand()?;
    match name {
        "replay" => replay(options),
        "serve" => serve(options),
        _ => None,
    }
}

/// Returns whether one of the words is `--`. `clap` would accept it after the last option.
fn ends_options(words: &[&str]) -> bool
    ensures { result ≡ has_dashes (map (λ word. word.now) words.now) }
{
    words.contains(&"--")
}

/// Returns what `clap` finds in the words.
fn matches_of<'a>(alloc: Global, words: &'a [&'a str]) -> Result<ArgMatches<'a>, WordsFault>
    ensures { let texts = map (λ word. word.now) words.entry.now in
        MatchResult result (λ matches. (is_taken texts ≡ true) × (subcommand_rows_of matches ≡ subcommand_of app texts))
        (λ fault. ((fault ≡ Usage) × (is_taken texts ≡ false)) ⊎ (fault ≡ Memory)) }
{
    let Ok(command) = command(alloc) else {
        return Err(WordsFault::Memory);
    };
    match command.try_get_matches_from(words) {
        Ok(matches) => Ok(matches),
        Err(error) => match error.kind() {
            ErrorKind::OutOfMemory => Err(WordsFault::Memory),
            _ => Err(WordsFault::Usage),
        },
    }
}

/// Returns the command that the words after the program's name give.
///
/// Words that are no command are [`WordsFault::Usage`], and a failed allocation is [`WordsFault::Memory`].
pub fn mode_of<'a>(alloc: Global, words: &'a [&'a str]) -> Result<Mode<'a>, WordsFault>
    ensures { let texts = map (λ word. word.now) words.entry.now in
        MatchResult result (λ mode. mode_in texts ≡ Some (mode_view mode))
        (λ fault. ((fault ≡ Usage) × (mode_in texts ≡ None)) ⊎ (fault ≡ Memory)) }
{
    if ends_options(words) {
        return Err(WordsFault::Usage);
    }
    let matches = matches_of(alloc, words)?;
    mode_named(&matches).ok_or(WordsFault::Usage)
}
