//! Calls for help, and the text that answers them.

ghost use Rattle.std.specs.Prelude.{◌≡◌, map};
ghost use Rattle.command_line.specs.Help.{calls_for_help, has_word as is_among, usage_text};

/// The program with its version, and its commands.
const USAGE: &str = "targetd 1.0.0\n\
    An iSCSI target (RFC 7143) for disks and tape drives.\n\
    \n\
    Usage:\n\
    \x20 targetd serve --config FILE [--turns N]\n\
    \x20 targetd replay --config FILE\n\
    \n\
    serve listens on the address of the configuration and serves initiators, until a\n\
    signal ends it or it has made N turns of its loop. replay carries out the events\n\
    that it reads from standard input. See targetd(8), and targetd.toml(5) for FILE.\n";

fn has_word(words: &[&str], wanted: &str) -> bool
    ensures { result ≡ is_among wanted.now (map (λ word. word.now) words.now) }
{
    words.contains(&wanted)
}

/// Returns whether one of the words is `--help`, `-h` or `help`.
pub fn is_help(words: &[&str]) -> bool
    ensures { result ≡ calls_for_help (map (λ word. word.now) words.now) }
{
    has_word(words, "--help") || has_word(words, "-h") || has_word(words, "help")
}

/// Returns the text that answers a call for help.
#[tactic(auto, unfolding(crate::specs::Help::usage_text))]
pub fn usage() -> &'static str
    ensures { result.now ≡ usage_text }
{
    USAGE
}
