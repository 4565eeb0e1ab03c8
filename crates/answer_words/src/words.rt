//! The words of the answer to a message.

ghost use Rattle.std.specs.Prelude.{◌≡◌, find, take, IfOk, option_map};
ghost use Rattle.std.specs.Option.{option_to_list};
ghost use Rattle.mllp_frame.specs.Framing.{blocks};
ghost use Rattle.mllp_frame.specs.inner.Event.{event_of};
ghost use Rattle.answer_words.specs.inner.Words.{is_answer_to, message_in, messages_in, said, shown_within, words_in};

use crate::parts::said;
use crate::showing::shown;
use er7_tree::{Message, Refusal};
use fixed_numbers::MAX_ANSWERS;
use hl7_head::answered;
use mllp_frame::{FrameEvent, Framer};
use std::alloc::{AllocError, Global};
use std::fmt;

/// What a destination says in its answer to a message, as at most 200 bytes of printing ASCII.
#[derive(Drop)]
pub struct AnswerWords {
    text: Vec<u8>,
}

impl AnswerWords {
    /// Whether it says nothing.
    pub fn is_empty(&self) -> bool {
        self.text.is_empty()
    }
}

impl fmt::Display for AnswerWords {
    fn fmt<W: fmt::Write>(&self, f: &mut fmt::Formatter<W>) -> fmt::Result {
        for byte in &self.text {
            f.write_char(char::from(*byte))?;
        }
        Ok(())
    }
}

/// The message in a block of the stream, where it can be read.
fn message_in(alloc: Global, event: FrameEvent) -> Result<Option<Message>, AllocError>
    ensures { IfOk result (λ message. message ≡ message_in (event_of event)) }
{
    let FrameEvent::Block(text) = event else {
        return Ok(None);
    };
    match Message::parse(alloc, &text) {
        Ok(message) => Ok(Some(message)),
        Err(Refusal::NoMemory) => Err(AllocError),
        Err(_) => Ok(None),
    }
}

/// Whether a message acknowledges the one with this control id: MSA-2 is that id.
fn is_answer_to(control_id: &[u8], message: &Message) -> bool
    ensures { result ≡ is_answer_to control_id.now message.now }
{
    match answered(message) {
        Some((_code, id)) => id == control_id,
        None => false,
    }
}

/// The message in a block of the stream, where it acknowledges the one with this control id.
fn answer_in(
    alloc: Global,
    event: FrameEvent,
    control_id: &[u8],
) -> Result<Option<Message>, AllocError>
    ensures { IfOk result (λ answer. answer
        ≡ find (is_answer_to control_id.now) (option_to_list (message_in (event_of event)))) }
{
    let Some(message) = message_in(alloc, event)? else {
        return Ok(None);
    };
    if is_answer_to(control_id, &message) {
        Ok(Some(message))
    } else {
        Ok(None)
    }
}

/// The first message to come that acknowledges the one with this control id, in the first nine blocks.
fn first_answer(
    alloc: Global,
    framer: &mut Framer,
    control_id: &[u8],
) -> Result<Option<Message>, AllocError>
    ensures { IfOk result (λ answer. answer
        ≡ find (is_answer_to control_id.now) (messages_in (take 9 framer.old.to_come))) }
{
    for _ in 0..MAX_ANSWERS {
        let Some(event) = framer.next() else {
            return Ok(None);
        };
        if let Some(answer) = answer_in(alloc, event, control_id)? {
            return Ok(Some(answer));
        }
    }
    Ok(None)
}

/// The first message that acknowledges the one with this control id, in the first nine blocks of what was received.
fn answer_among(
    alloc: Global,
    received: &[u8],
    control_id: &[u8],
) -> Result<Option<Message>, AllocError>
    ensures { IfOk result (λ answer. answer
        ≡ find (is_answer_to control_id.now) (messages_in (take 9 (blocks received.now)))) }
{
    let mut framer = Framer::new(alloc);
    match framer.feed(received) {
        Ok(()) => first_answer(alloc, &mut framer, control_id),
        Err(_) => Err(AllocError),
    }
}

/// What an answer says, as it is shown.
fn words_of(alloc: Global, answer: &Message) -> Result<AnswerWords, AllocError>
    ensures { IfOk result (λ words. words.text.items ≡ shown_within 200 (said answer.now)) }
{
    let said = said(alloc, answer)?;
    Ok(AnswerWords {
        text: shown(alloc, &said)?,
    })
}

/// What a destination says in its answer to the message with this control id, MSH-10: what the first message that acknowledges it
/// says, of those in the first nine blocks of what was received; none where there is no such message.
///
/// # Errors
///
/// Where memory is refused.
pub fn answer_words(
    alloc: Global,
    received: &[u8],
    control_id: &[u8],
) -> Result<Option<AnswerWords>, AllocError>
    ensures { IfOk result (λ words.
        option_map (λ w. w.text.items) words ≡ words_in control_id.now received.now) }
{
    match answer_among(alloc, received, control_id)? {
        Some(answer) => Ok(Some(words_of(alloc, &answer)?)),
        None => Ok(None),
    }
}
