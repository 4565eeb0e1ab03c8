//! What a shared book says of a message.

ghost use Rattle.std.specs.Prelude.{◌≡◌, IfOk};
ghost use Rattle.book_lock.specs.inner.Reading.{text_for};

use book_core::{Book, BookRows};
use dest_queue::SlotState;
use judge_core::Text;
use row_store::QUEUES;
use std::alloc::AllocError;

/// A message that a book remembers.
#[derive(Drop)]
pub struct Message {
    /// The channel on which it arrived, by its index in the plan.
    pub channel: u32,
    /// The connection over which it arrived, if the book still holds the entry of its arrival: what a pruning
    /// remembers of an arrival has no connection.
    pub conn: Option<u32>,
    /// The bytes received, which the book shares.
    pub raw: Text,
    /// Its state at each destination, by index, if it goes there.
    pub states: [Option<SlotState>; QUEUES as usize],
}

/// What a book says of a message number.
#[derive(Drop)]
pub enum Found {
    /// Fewer messages were accepted so far.
    ToCome,
    /// The message is forgotten.
    Forgotten,
    /// The message is remembered.
    Kept(Message),
}

/// The text of a message for a destination, where the book remembers the message and it goes there.
pub(crate) fn text_of<S: BookRows>(
    book: &Book<S>,
    number: u32,
    d: u32,
) -> Result<Option<Text>, AllocError>
    ensures { IfOk result (λ text. text ≡ text_for book.now number d) }
{
    let Some(letter) = book.message(number) else {
        return Ok(None);
    };
    match letter.payload(d) {
        Some(text) => Ok(Some(text.share()?)),
        None => Ok(None),
    }
}
