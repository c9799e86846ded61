//! Words that are no command, and the usage that is printed for a call for help.

ghost use Rattle.std.specs.Prelude.{map};
ghost use Rattle.command_line.specs.Help.{calls_for_help};
ghost use Rattle.targetd.specs.Help.{RefusesWords};

use command_line::{is_help, usage};
use std::io::Write;
use target_replay::print_all;
use target_serving::Fault;

/// Returns the fault of a run whose words are no command. If they call for help, prints the usage first.
pub fn refuse_words<W: Write>(words: &[&str], writer: &mut W) -> Fault
    ensures { RefusesWords (W.contents writer.old) (W.contents writer.new) (calls_for_help (map (λ word. word.now) words.now)) result }
{
    if is_help(words) && print_all(usage().as_bytes(), writer).is_err() {
        return Fault::Output;
    }
    Fault::Usage
}
