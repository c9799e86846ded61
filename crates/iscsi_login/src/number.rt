//! Numbers in values (RFC 7143 §6.1).

ghost use Rattle.std.specs.Prelude.{◌≡◌, ◌≤◌};
ghost use Rattle.std.specs.Option.{option_and_then};
ghost use Rattle.iscsi_login.specs.Number.{numeral as numeral_of, number_of, number_in as is_number_in, within};

/// Returns the number that digits of this radix spell, if it fits 32 bits.
fn numeral(digits: &str, radix: u32) -> Option<u32>
    requires least { 2 ≤ radix }
    requires most { radix ≤ 16 }
    ensures { result ≡ option_and_then (within 0 0xFFFFFFFF) (numeral_of radix digits.now) }
{
    if digits.starts_with('+') {
        return None;
    }
    u32::from_str_radix(digits, radix).ok()
}

/// Returns the number that a value is, if it fits 32 bits: hexadecimal after `0x` or `0X`, or decimal without leading
/// zeros.
#[tactic(auto, unfolding(crate::specs::Number::number_of))]
fn number(text: &str) -> Option<u32>
    ensures { result ≡ option_and_then (within 0 0xFFFFFFFF) (number_of text.now) }
{
    if let Some(digits) = text.strip_prefix("0x") {
        return numeral(digits, 16);
    }
    if let Some(digits) = text.strip_prefix("0X") {
        return numeral(digits, 16);
    }
    if text.len() > 1 && text.starts_with('0') {
        return None;
    }
    numeral(text, 10)
}

/// Returns the number that a value is, if it is within these limits.
#[tactic(auto, unfolding(crate::specs::Number::number_in))]
pub(crate) fn number_in(text: &str, low: u32, high: u32) -> Option<u32>
    ensures { result ≡ is_number_in low high text.now }
{
    let number = number(text)?;
    (low <= number && number <= high).then_some(number)
}
