//! What the target of a request means.

ghost use Rattle.std.specs.Prelude.{◌≡◌, option_map};
ghost use Rattle.service_http.specs.inner.Targets.{after, asked_by_text, between, number_of, seen, target_of, with_digit};

use std::alloc::{AllocError, Global};

/// What the target of a request means. Texts are of type `T`, still percent-encoded, of at least one byte.
#[derive(Clone, Copy, Debug, PartialEq, Eq)]
pub enum Target<T> {
    /// The page.
    Page,
    /// The numbers for Prometheus.
    Metrics,
    /// Whether the service works.
    Health,
    /// Whether the service takes messages.
    Ready,
    /// The status as text.
    Status,
    /// The status as JSON.
    StatusJson,
    /// Where the message of this number is.
    Message(u32),
    /// The numbers of the messages with this control id (MSH-10).
    Find(T),
    /// What waits for the destination of this name.
    Waiting(T),
    /// What failed at the destination of this name.
    Failed(T),
    /// Nothing that this server has.
    Nothing,
}

/// What follows a prefix, where at least one byte does.
fn after<'a>(target: &'a [u8], beginning: &[u8]) -> Option<&'a [u8]>
    ensures { option_map (λ text. text.now) result ≡ after beginning.now target.now }
{
    match target.strip_prefix(beginning) {
        Some(text) if !text.is_empty() => Some(text),
        _ => None,
    }
}

/// What is between a prefix and a suffix, where at least one byte is.
fn between<'a>(target: &'a [u8], beginning: &[u8], end: &[u8]) -> Option<&'a [u8]>
    ensures { option_map (λ text. text.now) result ≡ between beginning.now end.now target.now }
{
    let rest = after(target, beginning)?;
    match rest.strip_suffix(end) {
        Some(text) if !text.is_empty() => Some(text),
        _ => None,
    }
}

/// A number with a decimal digit appended. None where the byte is no digit, and where the number would be 2^32 or above.
fn with_digit(number: u32, byte: u8) -> Option<u32>
    ensures { result ≡ with_digit number byte }
{
    match byte {
        b'0'..=b'9' => number.checked_mul(10)?.checked_add(u32::from(byte - b'0')),
        _ => None,
    }
}

/// The number below 2^32 that a text writes, where it is one decimal digit or more and nothing else.
fn number_of(text: &[u8]) -> Option<u32>
    ensures { result ≡ number_of text.now }
{
    if text.is_empty() {
        return None;
    }
    let mut number = 0;
    for byte in text {
        number = with_digit(number, *byte)?;
    }
    Some(number)
}

/// What a target means that has a text in it; `Nothing` for any other.
fn asked_by_text(target: &[u8]) -> Target<&[u8]>
    ensures { seen result ≡ asked_by_text target.now }
{
    if let Some(text) = after(target, b"/messages?control_id=") {
        return Target::Find(text);
    }
    if let Some(text) = between(target, b"/destinations/", b"/waiting") {
        return Target::Waiting(text);
    }
    if let Some(text) = between(target, b"/destinations/", b"/failed") {
        return Target::Failed(text);
    }
    if let Some(text) = after(target, b"/messages/") {
        return match number_of(text) {
            Some(number) => Target::Message(number),
            None => Target::Nothing,
        };
    }
    Target::Nothing
}

/// What the target of a request means. Targets are compared byte by byte: nothing is decoded and no `..` is followed before.
pub fn target_of(target: &[u8]) -> Target<&[u8]>
    ensures { seen result ≡ target_of target.now }
{
    if target == b"/".as_slice() {
        Target::Page
    } else if target == b"/metrics".as_slice() {
        Target::Metrics
    } else if target == b"/healthz".as_slice() {
        Target::Health
    } else if target == b"/readyz".as_slice() {
        Target::Ready
    } else if target == b"/status".as_slice() {
        Target::Status
    } else if target == b"/status.json".as_slice() {
        Target::StatusJson
    } else {
        asked_by_text(target)
    }
}

/// The value of a hexadecimal digit.
fn digit(byte: u8) -> Option<u8> {
    match byte {
        b'0'..=b'9' => Some(byte - b'0'),
        b'A'..=b'F' => Some(byte - b'A' + 10),
        b'a'..=b'f' => Some(byte - b'a' + 10),
        _ => None,
    }
}

/// The byte that a text begins with, and what follows it: `%HH` is the byte of these digits. None where a `%` isn't followed by two
/// hexadecimal digits, and where the text is empty.
fn decoded_byte(text: &[u8]) -> Option<(u8, &[u8])> {
    let (byte, rest) = text.split_first()?;
    if *byte != b'%' {
        return Some((*byte, rest));
    }
    let (high, rest) = rest.split_first()?;
    let (low, rest) = rest.split_first()?;
    let value = u16::from(digit(*high)?) * 16 + u16::from(digit(*low)?);
    Some((u8::try_from(value).ok()?, rest))
}

/// The bytes that a percent-encoded text represents. None where a `%` isn't followed by two hexadecimal digits.
///
/// # Errors
///
/// Where memory is refused.
pub fn percent_decoded(alloc: Global, text: &[u8]) -> Result<Option<Vec<u8>>, AllocError> {
    let mut bytes = Vec::new(alloc);
    let mut rest = text;
    for _ in 0..text.len() {
        if rest.is_empty() {
            break;
        }
        match decoded_byte(rest) {
            Some((byte, after)) => {
                bytes.push(byte)?;
                rest = after;
            }
            None => return Ok(None),
        }
    }
    Ok(Some(bytes))
}
