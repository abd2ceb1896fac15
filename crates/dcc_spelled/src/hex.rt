//! Numbers as hexadecimal digits.

ghost use Rattle.std.specs.Prelude.{◌≡◌, ◌<◌, ◌++◌, true, OnOk};
ghost use Rattle.std.specs.Fmt.{digit_glyph};
ghost use Rattle.dcc_spelled.specs.Hex.{hex_byte, hex_word, hex_bytes};

use std::alloc::AllocError;

// The digit of a number, in upper case.
fn hex_digit(number: u8) -> u8
    requires { number < 16 }
    ensures { result ≡ digit_glyph true number }
{
    if number < 10 {
        b'0' + number
    } else {
        b'A' - 10 + number
    }
}

/// Appends a byte, as two digits.
pub fn push_byte(text: &mut Vec<u8>, byte: u8) -> Result<(), AllocError>
    ensures { OnOk result (text.new.items ≡ text.old.items ++ hex_byte byte) }
{
    text.extend_from_slice(&[hex_digit(byte / 16), hex_digit(byte % 16)])
}

/// Appends a word, as four digits.
pub fn push_word(text: &mut Vec<u8>, word: u16) -> Result<(), AllocError>
    ensures { OnOk result (text.new.items ≡ text.old.items ++ hex_word word) }
{
    push_byte(text, (word / 256) as u8)?;
    push_byte(text, (word % 256) as u8)
}

/// Appends bytes, each after a space.
pub fn push_bytes(text: &mut Vec<u8>, bytes: &[u8]) -> Result<(), AllocError>
    ensures { OnOk result (text.new.items ≡ text.old.items ++ hex_bytes bytes.now) }
{
    for byte in bytes {
        text.push(b' ')?;
        push_byte(text, *byte)?;
    }
    Ok(())
}
