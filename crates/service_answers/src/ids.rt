//! Control ids as the log shows them.

use std::alloc::{AllocError, Global};

/// The value of a hexadecimal digit.
fn digit(byte: u8) -> Option<u8> {
    match byte {
        b'0'..=b'9' => Some(byte - b'0'),
        b'A'..=b'F' => Some(byte - b'A' + 10),
        b'a'..=b'f' => Some(byte - b'a' + 10),
        _ => None,
    }
}

/// The byte that a text begins with as the log shows bytes, by `\xHH`, or as a backslash before a backslash; and what follows it.
/// None where the text begins with neither.
fn escape(text: &[u8]) -> Option<(u8, &[u8])> {
    if let Some(rest) = text.strip_prefix(b"\\\\".as_slice()) {
        return Some((b'\\', rest));
    }
    let digits = text.strip_prefix(b"\\x".as_slice())?;
    let (high, rest) = digits.split_first()?;
    let (low, rest) = rest.split_first()?;
    Some(((digit(*high)? << 4) | digit(*low)?, rest))
}

/// The control id that the log, `waiting` and `message` show so: `\xHH` is the byte of these hexadecimal digits, and two backslashes
/// are one. All other bytes are their own.
///
/// # Errors
///
/// Where memory is refused.
pub fn unescaped(alloc: Global, shown: &[u8]) -> Result<Vec<u8>, AllocError> {
    let mut id = Vec::new(alloc);
    let mut rest = shown;
    for _ in 0..shown.len() {
        if let Some((byte, after)) = escape(rest) {
            id.push(byte)?;
            rest = after;
        } else if let Some((byte, after)) = rest.split_first() {
            id.push(*byte)?;
            rest = after;
        } else {
            break;
        }
    }
    Ok(id)
}
