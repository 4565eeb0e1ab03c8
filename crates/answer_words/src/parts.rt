//! What an answer says, by its fields.

ghost use Rattle.std.specs.Prelude.{◌≡◌, OnOk, IfOk};
ghost use Rattle.answer_words.specs.inner.Words.{behind, said, text_at, with_part, with_text};

use er7_tree::{Message, Path, is_vacant};
use std::alloc::{AllocError, Global};

/// What the piece of an answer at a path says, empty where there is none.
///
/// # Errors
///
/// Where memory is refused.
#[tactic(auto, using(crate::proofs::Paths::parsed, crate::proofs::Paths::unparsed))]
fn text_at(alloc: Global, answer: &Message, path: &str) -> Result<Vec<u8>, AllocError>
    ensures { IfOk result (λ text. text.items ≡ text_at answer.now path.now) }
{
    match Path::parse(path) {
        Ok(place) => answer.get(&place),
        Err(_) => Ok(Vec::new(alloc)),
    }
}

/// Adds a semicolon and a space behind what is said.
///
/// # Errors
///
/// Where memory is refused.
fn separate(said: &mut Vec<u8>) -> Result<(), AllocError>
    ensures { OnOk result (said.new.items ≡ behind said.old.items) }
{
    if said.is_empty() {
        return Ok(());
    }
    said.extend_from_slice(b"; ")
}

/// Adds a path and the text there behind what is said. Nothing is added where the text is empty or null.
///
/// # Errors
///
/// Where memory is refused.
fn add_text(said: &mut Vec<u8>, path: &str, text: &[u8]) -> Result<(), AllocError>
    ensures { OnOk result (said.new.items ≡ with_text said.old.items path.now text.now) }
{
    if is_vacant(text) {
        return Ok(());
    }
    separate(said)?;
    said.extend_from_slice(path.as_bytes())?;
    said.extend_from_slice(b" ")?;
    said.extend_from_slice(text)
}

/// Adds what the piece of an answer at a path says.
///
/// # Errors
///
/// Where memory is refused.
fn add_part(said: &mut Vec<u8>, answer: &Message, path: &str) -> Result<(), AllocError>
    ensures { OnOk result (said.new.items ≡ with_part answer.now said.old.items path.now) }
{
    let text = text_at(*said.allocator(), answer, path)?;
    add_text(said, path, &text)
}

/// What an answer says: MSA-3 and MSA-6, and of the first ERR its ERR-1.4, ERR-3, ERR-7 and ERR-8, each behind its path.
///
/// # Errors
///
/// Where memory is refused.
pub(crate) fn said(alloc: Global, answer: &Message) -> Result<Vec<u8>, AllocError>
    ensures { IfOk result (λ text. text.items ≡ said answer.now) }
{
    let mut text = Vec::new(alloc);
    add_part(&mut text, answer, "MSA-3")?;
    add_part(&mut text, answer, "MSA-6")?;
    add_part(&mut text, answer, "ERR-1.4")?;
    add_part(&mut text, answer, "ERR-3")?;
    add_part(&mut text, answer, "ERR-7")?;
    add_part(&mut text, answer, "ERR-8")?;
    Ok(text)
}
