//! Bytes of messages as lines.

ghost use Rattle.std.specs.Prelude.{◌≡◌, ◌<◌, ◌++◌, OnOk, true};
ghost use Rattle.dry_run.specs.inner.Lines.{byte_shown, byte_line, hex_digit, lines_from};

use std::alloc::AllocError;

/// A hexadecimal digit of a number below 16.
fn hex_digit(number: u8) -> u8
    requires { number < 16 }
    ensures { result ≡ hex_digit number }
{
    if number < 10 {
        b'0' + number
    } else {
        b'A' + (number - 10)
    }
}

/// Appends a byte as it is shown: as it is, or as `\xHH` where it is a control byte.
fn add_shown(out: &mut Vec<u8>, byte: u8) -> Result<(), AllocError>
    ensures { OnOk result (out.new.items ≡ out.old.items ++ byte_shown byte) }
{
    if byte >= 32 && byte != 127 {
        return Ok(out.push(byte)?);
    }
    out.extend_from_slice(&[b'\\', b'x', hex_digit(byte / 16), hex_digit(byte % 16)])
}

/// Appends a byte of a text: a new line instead of CR, and two blanks before the first byte of each line.
fn add_byte(out: &mut Vec<u8>, starts: bool, byte: u8) -> Result<(), AllocError>
    ensures { OnOk result (out.new.items ≡ out.old.items ++ byte_line starts byte) }
{
    if starts {
        out.extend_from_slice(b"  ")?;
    }
    if byte == b'\r' {
        return Ok(out.push(b'\n')?);
    }
    add_shown(out, byte)
}

/// Appends a message's text, a segment a line, with two blanks before each. Control bytes are shown as `\xHH`.
///
/// # Errors
///
/// Where memory is refused.
pub(crate) fn add_lines(out: &mut Vec<u8>, text: &[u8]) -> Result<(), AllocError>
    ensures { OnOk result (out.new.items ≡ out.old.items ++ lines_from true text.now) }
{
    let mut starts = true;
    for byte in text {
        add_byte(out, starts, *byte)?;
        starts = *byte == b'\r';
    }
    if !starts {
        out.push(b'\n')?;
    }
    Ok(())
}
