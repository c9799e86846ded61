//! The number of turns given to `serve`.

ghost use Rattle.std.specs.Prelude.{◌≡◌, option_map};
ghost use Rattle.std.specs.List.{list_all};
ghost use Rattle.std.specs.Char.{is_ascii_digit};
ghost use Rattle.command_line.specs.Turns.{decimal_of, turns_in};

/// Returns whether every byte is a decimal digit.
fn is_all_digits(text: &str) -> bool
    ensures { result ≡ list_all is_ascii_digit text.now }
{
    text.as_bytes().iter().all(|byte| byte.is_ascii_digit())
}

/// Returns a number in decimal digits alone, below 2^64. `clap` would accept a sign.
fn decimal(text: &str) -> Option<u64>
    ensures { result ≡ decimal_of text.now }
{
    if text.is_empty() || !is_all_digits(text) {
        return None;
    }
    match text.parse() {
        Ok(number) => Some(number),
        Err(_) => None,
    }
}

/// Returns the number of turns in the value of `--turns`, or the largest if the option is not given.
pub fn turns(value: Option<&str>) -> Option<u64>
    ensures { result ≡ turns_in (option_map (λ text. text.now) value.entry) }
{
    match value {
        Some(text) => decimal(text),
        None => Some(u64::MAX),
    }
}
