//! Bytes from outside as at most 200 bytes of printing ASCII.

ghost use Rattle.std.specs.Prelude.{◌≡◌, ◌≤◌, ◌<◌, ◌++◌, length, IfOk, OnOk};
ghost use Rattle.answer_words.specs.inner.Words.{hex_digit, is_plain, shown_byte, shown_within};

use std::alloc::{AllocError, Global};

/// The most bytes of what is shown of an answer.
pub const WORDS_MAX: usize = 200;

/// Whether a byte is shown as it is: a printing ASCII character or a space, but for the quotation mark and the backslash.
fn is_plain(byte: u8) -> bool
    ensures { result ≡ is_plain byte }
{
    (32..127).contains(&byte) && byte != b'"' && byte != b'\\'
}

/// The hexadecimal digit of a number below 16.
fn hex_digit(number: u8) -> u8
    requires { number < 16 }
    ensures { result ≡ hex_digit number }
{
    if number < 10 {
        b'0' + number
    } else {
        b'A' + (number - 10)
    }
}

/// How many bytes a byte is shown as.
fn shown_len(byte: u8) -> usize
    ensures { result ≡ length (shown_byte byte) }
{
    if is_plain(byte) { 1 } else { 4 }
}

/// Adds a byte: as it is where it is plain, else as `\xHH`.
fn add_byte(text: &mut Vec<u8>, byte: u8) -> Result<(), AllocError>
    ensures { OnOk result (text.new.items ≡ text.old.items ++ shown_byte byte) }
{
    if is_plain(byte) {
        return Ok(text.push(byte)?);
    }
    text.extend_from_slice(&[b'\\', b'x', hex_digit(byte / 16), hex_digit(byte % 16)])
}

/// Bytes as they are shown: each that is no printing ASCII character and no space, and each quotation mark and backslash, as `\xHH`;
/// as many of the first as take 200 bytes at most.
///
/// # Errors
///
/// Where memory is refused.
pub fn shown(alloc: Global, bytes: &[u8]) -> Result<Vec<u8>, AllocError>
    ensures { IfOk result (λ text. text.items ≡ shown_within 200 bytes.now) }
{
    let mut text = Vec::new(alloc);
    for byte in bytes {
        if text.len() + shown_len(*byte) > WORDS_MAX {
            return Ok(text);
        }
        add_byte(&mut text, *byte)?;
    }
    Ok(text)
}
