//! Names that strangers send, as one word of a line.

ghost use Rattle.std.specs.Prelude.{◌≡◌, ◌<◌, ◌++◌, ◌∷◌, [], OnOk, string_bytes};
ghost use Rattle.session_log.specs.Escape.{is_plain as is_plain_byte, escaped, escaped_byte, hex_digit};

use std::alloc::AllocError;

/// Returns whether a byte is printable ASCII other than a space and the backslash.
fn is_plain(byte: u8) -> bool
    ensures { result ≡ is_plain_byte byte }
{
    0x21 <= byte && byte <= 0x7E && byte != 0x5C
}

/// Returns the hexadecimal digit of a number below 16.
fn digit(number: u8) -> u8
    requires { number < 16 }
    ensures value { result ≡ hex_digit number }
    ensures ascii { result < 128 }
{
    if number < 10 {
        0x30 + number
    } else {
        0x37 + number
    }
}

/// Appends a byte of ASCII to a text.
fn put_ascii(text: &mut String, byte: u8) -> Result<(), AllocError>
    requires { byte < 128 }
    ensures { OnOk result (string_bytes text.new ≡ string_bytes text.old ++ byte ∷ []) }
{
    text.push(char::from(byte))
}

/// Appends a byte to a text: as it is, or as `\x` and two digits.
fn put_byte(text: &mut String, byte: u8) -> Result<(), AllocError>
    ensures { OnOk result (string_bytes text.new ≡ string_bytes text.old ++ escaped_byte byte) }
{
    if is_plain(byte) {
        return put_ascii(text, byte);
    }
    put_ascii(text, b'\\')?;
    put_ascii(text, b'x')?;
    put_ascii(text, digit(byte / 16))?;
    put_ascii(text, digit(byte % 16))
}

/// Appends a name to a text, without spaces and line ends.
pub(crate) fn put_escaped(text: &mut String, name: &[u8]) -> Result<(), AllocError>
    ensures { OnOk result (string_bytes text.new ≡ string_bytes text.old ++ escaped name.now) }
{
    for byte in name {
        put_byte(text, *byte)?;
    }
    Ok(())
}
