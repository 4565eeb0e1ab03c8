//! A message as a text file has it.

ghost use Rattle.std.specs.Prelude.{◌≡◌, ◌++◌, IfOk, OnOk, false};
ghost use Rattle.dry_run.specs.inner.Segments.{ended, segments};

use std::alloc::{AllocError, Global};

/// Appends a byte of a text, with CR instead of LF, and nothing in place of an LF that follows a CR.
fn add_byte(out: &mut Vec<u8>, after_return: bool, byte: u8) -> Result<(), AllocError>
    ensures { OnOk result (out.new.items ≡ out.old.items ++ ended after_return byte) }
{
    match byte {
        b'\n' if after_return => Ok(()),
        b'\n' => Ok(out.push(b'\r')?),
        byte => Ok(out.push(byte)?),
    }
}

/// The message that a text has, whose segments end by CR, LF or CR LF: the same text with CR as the end of each.
///
/// # Errors
///
/// Where memory is refused.
pub fn segments_of(alloc: Global, text: &[u8]) -> Result<Vec<u8>, AllocError>
    ensures { IfOk result (λ message. message.items ≡ segments false text.now) }
{
    let mut message = Vec::with_capacity(alloc, text.len())?;
    let mut after_return = false;
    for byte in text {
        add_byte(&mut message, after_return, *byte)?;
        after_return = *byte == b'\r';
    }
    Ok(message)
}
