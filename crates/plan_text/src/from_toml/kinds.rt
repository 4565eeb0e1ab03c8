//! The kinds of values.

ghost use Rattle.std.specs.Prelude.{◌≡◌, ℕ, List, Option, IfOk};
ghost use Rattle.std.specs.List.{list_all};
ghost use Rattle.plan_text.specs.Kinds.{is_name_byte, is_plan_name, is_code_byte, is_code, await_word, message_type, processing_id, version_id};

use crate::channel::{MessageType, ProcessingId, VersionId};
use crate::destination::Await;
use crate::literal::Literal;
use std::alloc::{AllocError, Global};

fn is_name_byte(b: u8) -> bool
    ensures { result ≡ is_name_byte b }
{
    matches!(b, b'A'..=b'Z' | b'a'..=b'z' | b'0'..=b'9' | b'_' | b'-')
}

fn has_name_bytes(text: &str) -> bool
    ensures { result ≡ list_all is_name_byte text.now }
{
    text.bytes().all(is_name_byte)
}

/// A name has 1 to 32 letters, digits, `_` and `-`.
pub(crate) fn is_name(text: &str) -> bool
    ensures { result ≡ is_plan_name text.now }
{
    1 <= text.len() && text.len() <= 32 && has_name_bytes(text)
}

fn is_code_byte(b: u8) -> bool
    ensures { result ≡ is_code_byte b }
{
    matches!(b, b'A'..=b'Z' | b'0'..=b'9')
}

fn has_code_bytes(text: &str) -> bool
    ensures { result ≡ list_all is_code_byte text.now }
{
    text.bytes().all(is_code_byte)
}

/// A message code or a trigger event has 1 to 16 capital letters and digits.
fn is_code(text: &str) -> bool
    ensures { result ≡ is_code text.now }
{
    1 <= text.len() && text.len() <= 16 && has_code_bytes(text)
}

/// `ack` or `none`; none of the two for any other text.
pub(crate) fn await_word(text: &str) -> Option<Await>
    ensures { result ≡ await_word text.now }
{
    match text {
        "ack" => Some(Await::Ack),
        "none" => Some(Await::None),
        _ => None,
    }
}

/// What is written as one text.
pub(crate) trait FromText: Sized + Drop {
    ghost form: { List ℕ → Option Self };

    /// What the text says; none where it is of no such form.
    fn from_text(alloc: Global, text: &str) -> Result<Option<Self>, AllocError>
        ensures { IfOk result (λ o. o ≡ form text.now) };
}

/// `*`, `CODE` or `CODE^EVENT`.
impl FromText for MessageType {
    ghost form = { message_type };

    fn from_text(alloc: Global, text: &str) -> Result<Option<MessageType>, AllocError> {
        if text == "*" {
            return Ok(Some(MessageType::Any));
        }
        if is_code(text) {
            return Ok(Some(MessageType::Code(Literal::new(alloc, text)?)));
        }
        match text.split_once('^') {
            Some((code, event)) if is_code(code) && is_code(event) => {
                let code = Literal::new(alloc, code)?;
                Ok(Some(MessageType::CodeAndEvent(code, Literal::new(alloc, event)?)))
            }
            _ => Ok(None),
        }
    }
}

/// `P`, `T` or `D`.
impl FromText for ProcessingId {
    ghost form = { processing_id };

    fn from_text(_alloc: Global, text: &str) -> Result<Option<ProcessingId>, AllocError> {
        match text {
            "P" => Ok(Some(ProcessingId::Production)),
            "T" => Ok(Some(ProcessingId::Training)),
            "D" => Ok(Some(ProcessingId::Debugging)),
            _ => Ok(None),
        }
    }
}

/// `*` or a text of 1 to 16 bytes.
impl FromText for VersionId {
    ghost form = { version_id };

    fn from_text(alloc: Global, text: &str) -> Result<Option<VersionId>, AllocError> {
        if text == "*" {
            return Ok(Some(VersionId::Any));
        }
        if text.is_empty() || text.len() > 16 {
            return Ok(None);
        }
        Ok(Some(VersionId::Exactly(Literal::new(alloc, text)?)))
    }
}
