//! Controls as JSON escapes them, and what else is escaped on a line for people.
ghost use Rattle.std.specs.Prelude.{◌≡◌, ◌<◌, ◌/◌, ◌%◌, [], ◌∷◌, ◌++◌, OnOk, codes};
ghost use Rattle.std.specs.Char.{digit_char};
ghost use Rattle.forms.specs.Escapes.{escaped, escaped_char, hexadecimal, is_unseen, plain_char, shown_byte};

use std::alloc::AllocError;

/// The text with a byte behind it: a control byte, which is below 32, is escaped.
pub(crate) fn push_shown_byte(text: &mut Vec<u8>, byte: u8) -> Result<(), AllocError>
    ensures { OnOk result (text.new.items ≡ text.old.items ++ shown_byte byte) }
{
    if byte < b' ' {
        return push_escape(text, byte);
    }
    text.push(byte)?;
    Ok(())
}

/// The text with the escape of a byte behind it.
fn push_escape(text: &mut Vec<u8>, byte: u8) -> Result<(), AllocError>
    ensures { OnOk result (text.new.items ≡ text.old.items ++ escaped byte) }
{
    match byte {
        b'\n' => text.extend_from_slice(b"\\n"),
        b'\r' => text.extend_from_slice(b"\\r"),
        b'\t' => text.extend_from_slice(b"\\t"),
        _ => push_digits(text, byte),
    }
}

/// The text with the escape of a byte behind it that names its two hexadecimal digits.
fn push_digits(text: &mut Vec<u8>, byte: u8) -> Result<(), AllocError>
    ensures { OnOk result (text.new.items ≡ text.old.items ++ (codes "\\u00" ++ digit_char (byte / 16) ∷ digit_char (byte % 16) ∷ [])) }
{
    text.extend_from_slice(b"\\u00")?;
    text.push(digit(byte / 16))?;
    text.push(digit(byte % 16))?;
    Ok(())
}

/// A hexadecimal digit, in lower case.
fn digit(value: u8) -> u8
    requires { value < 16 }
    ensures { result ≡ digit_char value }
{
    if value < 10 {
        b'0' + value
    } else {
        b'a' - 10 + value
    }
}

/// Whether a character controls a terminal, or turns the text beside it round.
pub fn is_unseen(letter: char) -> bool
    ensures { result ≡ is_unseen letter }
{
    letter < ' '
        || ('\u{7f}' <= letter && letter <= '\u{9f}')
        || letter == '\u{61c}'
        || ('\u{200e}' <= letter && letter <= '\u{200f}')
        || ('\u{202a}' <= letter && letter <= '\u{202e}')
        || ('\u{2066}' <= letter && letter <= '\u{2069}')
}

/// The text with a character after it, as a line for people has it.
pub(crate) fn push_plain(text: &mut Vec<u8>, letter: char) -> Result<(), AllocError>
    ensures { OnOk result (text.new.items ≡ text.old.items ++ plain_char letter) }
{
    if letter == '\\' {
        return text.extend_from_slice(b"\\\\");
    }
    if is_unseen(letter) {
        return push_escaped(text, letter);
    }
    let mut room = [0; 4];
    text.extend_from_slice(letter.encode_utf8(&mut room).as_bytes())
}

/// The text with the escape of a character after it.
fn push_escaped(text: &mut Vec<u8>, letter: char) -> Result<(), AllocError>
    ensures { OnOk result (text.new.items ≡ text.old.items ++ escaped_char letter) }
{
    match letter {
        '\n' => text.extend_from_slice(b"\\n"),
        '\r' => text.extend_from_slice(b"\\r"),
        '\t' => text.extend_from_slice(b"\\t"),
        _ => push_hexadecimal(text, letter as u32),
    }
}

/// The text with the four hexadecimal digits of a character after it.
fn push_hexadecimal(text: &mut Vec<u8>, code: u32) -> Result<(), AllocError>
    ensures { OnOk result (text.new.items ≡ text.old.items ++ hexadecimal code) }
{
    text.extend_from_slice(b"\\u")?;
    text.push(digit((code / 4096 % 16) as u8))?;
    text.push(digit((code / 256 % 16) as u8))?;
    text.push(digit((code / 16 % 16) as u8))?;
    text.push(digit((code % 16) as u8))?;
    Ok(())
}
