//! Escape sequences (HL7 v2.5.1, 2.7). The text between two bytes that need one is copied as a whole.

ghost use Rattle.std.specs.Prelude.{◌≡◌, ◌++◌, IfOk, OnOk, IsSome, [], unwrap_or, is_some, IfSome, ◌<◌, not, true, false};
ghost use Rattle.std.specs.List.{list_all, position};
ghost use Rattle.er7_tree.specs.Delims.{lacks};
ghost use Rattle.er7_tree.specs.inner.Delims.{AreDelims};
ghost use Rattle.er7_tree.specs.Escape.{plain, meaning, letters, meant_by, letter_for, letter_meaning, hex_digit, escaped, sequence, hex_value, hex_bytes, escape as escape_of};
ghost use Rattle.er7_tree.specs.inner.Escape.{special, reserved};

use crate::delims::{Delims, lacks};
use crate::pieces::cut;
use fixed_numbers::HEXADECIMAL;
use std::alloc::{AllocError, Global};

/// The value of a hexadecimal digit.
fn hex_value(digit: u8) -> Option<u8>
    ensures small { IfSome result (λ value. value < 16) }
    ensures value { result ≡ hex_value digit }
{
    match digit {
        b'0'..=b'9' => Some(digit - b'0'),
        b'A'..=b'F' => Some(digit - (b'A' - 10)),
        b'a'..=b'f' => Some(digit - (b'a' - 10)),
        _ => None,
    }
}

/// Whether the digits are pairs of hexadecimal digits.
fn are_hex_pairs(digits: &[u8]) -> bool
    ensures { result ≡ is_some (hex_bytes digits.now) }
{
    let mut rest = digits;
    while let [high, low, after @ ..] = rest {
        if hex_value(*high).is_none() || hex_value(*low).is_none() {
            return false;
        }
        rest = after;
    }
    rest.is_empty()
}

/// The bytes of pairs of hexadecimal digits, at the end of a text.
fn push_hex(out: &mut Vec<u8>, digits: &[u8]) -> Result<(), AllocError>
    requires { IsSome (hex_bytes digits.now) }
    ensures { OnOk result (out.new.items ≡ out.old.items ++ unwrap_or (hex_bytes digits.now) []) }
{
    let mut rest = digits;
    while let [high, low, after @ ..] = rest {
        let high = hex_value(*high).unwrap_or(0);
        let low = hex_value(*low).unwrap_or(0);
        out.push(16 * high + low)?;
        rest = after;
    }
    Ok(())
}

/// The letters of escape sequences, each with the delimiter that it means.
fn letters(delims: &Delims) -> [(u8, u8); 5]
    ensures { result ≡ letters delims.now }
{
    [
        (b'F', delims.field()),
        (b'S', delims.component()),
        (b'T', delims.subcomponent()),
        (b'R', delims.repetition()),
        (b'E', delims.escape()),
    ]
}

/// The delimiter that a letter means.
fn meant_by(delims: &Delims, letter: u8) -> Option<u8>
    ensures { result ≡ meant_by delims.now letter }
{
    let letters = letters(delims);
    letters
        .iter()
        .find(|entry| entry.0 == letter)
        .map(|entry| entry.1)
}

/// The letter that means a byte, where it is a delimiter.
fn letter_for(delims: &Delims, byte: u8) -> Option<u8>
    ensures { result ≡ letter_for delims.now byte }
{
    let letters = letters(delims);
    letters
        .iter()
        .find(|entry| entry.1 == byte)
        .map(|entry| entry.0)
}

/// What one letter between two escape characters means, at the end of a text.
fn push_letter(out: &mut Vec<u8>, delims: &Delims, letter: u8) -> Result<(), AllocError>
    ensures { OnOk result (out.new.items ≡ out.old.items ++ letter_meaning delims.now letter) }
{
    match meant_by(delims, letter) {
        Some(byte) => out.push(byte)?,
        None => push_sequence(out, delims, &[letter])?,
    }
    Ok(())
}

/// Appends what the text between two escape characters means.
fn push_meaning(out: &mut Vec<u8>, delims: &Delims, inner: &[u8]) -> Result<(), AllocError>
    ensures { OnOk result (out.new.items ≡ out.old.items ++ meaning delims.now inner.now) }
{
    let [first, digits @ ..] = inner else {
        return push_sequence(out, delims, inner);
    };
    if digits.is_empty() {
        return push_letter(out, delims, *first);
    }
    if *first != HEXADECIMAL {
        return push_sequence(out, delims, inner);
    }
    if !are_hex_pairs(digits) {
        return push_sequence(out, delims, inner);
    }
    push_hex(out, digits)
}

/// The bytes that are not written as they are.
fn special(delims: &Delims) -> [u8; 9]
    ensures value { result ≡ special delims.now }
    ensures declared { AreDelims delims.now }
{
    [
        delims.field(),
        delims.component(),
        delims.subcomponent(),
        delims.repetition(),
        delims.escape(),
        b'\r',
        0x0B,
        0x1C,
        b'\n',
    ]
}

/// The index of the first byte that is one of these.
fn first_among(text: &[u8], bytes: &[u8]) -> Option<usize>
    ensures { result ≡ position (λ b. not (lacks b bytes.now)) text.now }
{
    text.iter().position(|byte| !lacks(bytes, *byte))
}

/// A digit of a number below 16.
fn hex_digit(value: u8) -> u8
    requires { value < 16 }
    ensures { result ≡ hex_digit value }
{
    b"0123456789ABCDEF"[value as usize]
}

/// How a byte is written that is not written as it is, at the end of a text.
fn push_escaped(out: &mut Vec<u8>, delims: &Delims, byte: u8) -> Result<(), AllocError>
    requires { lacks byte (special delims.now) ≡ false }
    ensures { OnOk result (out.new.items ≡ out.old.items ++ escaped delims.now byte) }
{
    if let Some(letter) = letter_for(delims, byte) {
        return push_sequence(out, delims, &[letter]);
    }
    let digits = [HEXADECIMAL, hex_digit(byte / 16), hex_digit(byte % 16)];
    push_sequence(out, delims, &digits)
}

/// A text between two escape characters, at the end of a text.
fn push_sequence(out: &mut Vec<u8>, delims: &Delims, inner: &[u8]) -> Result<(), AllocError>
    ensures { OnOk result (out.new.items ≡ out.old.items ++ sequence delims.now inner.now) }
{
    out.push(delims.escape())?;
    out.extend_from_slice(inner)?;
    out.push(delims.escape())?;
    Ok(())
}

/// The text that means these bytes: delimiters and the bytes CR, LF, VT and FS as escape sequences, all others as
/// they are (HL7 v2.5.1, 2.7).
///
/// # Errors
///
/// Where memory is refused.
pub fn escape(alloc: Global, delims: &Delims, value: &[u8]) -> Result<Vec<u8>, AllocError>
    ensures value { IfOk result (λ text. text.items ≡ escape_of delims.now value.now) }

    // What was escaped is read back, and holds neither separators nor bytes that end a segment or a block.
    ensures back { IfOk result (λ text. plain delims.now text.items ≡ value.now) }
    ensures bare { IfOk result (λ text. list_all (λ b. lacks b text.items) (reserved delims.now) ≡ true) }
{
    let special = special(delims);
    let mut out = Vec::new(alloc);
    let mut rest = value;
    while let Some(at) = first_among(rest, &special) {
        out.extend_from_slice(&rest[..at])?;
        push_escaped(&mut out, delims, rest[at])?;
        rest = &rest[at + 1..];
    }
    out.extend_from_slice(rest)?;
    Ok(out)
}

/// The bytes that a text means. Between two escape characters `F`, `S`, `T`, `R`, `E` mean the delimiters and `X`
/// with pairs of hexadecimal digits means bytes (HL7 v2.5.1, 2.7); any other sequence, and an escape character that
/// none follows, is kept as it is written.
///
/// # Errors
///
/// Where memory is refused.
pub fn unescape(alloc: Global, delims: &Delims, text: &[u8]) -> Result<Vec<u8>, AllocError>
    ensures { IfOk result (λ value. value.items ≡ plain delims.now text.now) }
{
    let mut out = Vec::new(alloc);
    let mut rest = text;
    loop {
        let (before, after) = cut(rest, delims.escape());
        out.extend_from_slice(before)?;
        let Some(after) = after else {
            return Ok(out);
        };
        let (inner, next) = cut(after, delims.escape());
        let Some(next) = next else {
            out.push(delims.escape())?;
            out.extend_from_slice(inner)?;
            return Ok(out);
        };
        push_meaning(&mut out, delims, inner)?;
        rest = next;
    }
}
