//! An answer of a destination, as it was received.

ghost use Rattle.std.specs.Prelude.{◌≡◌, IfOk, option_copied};
ghost use Rattle.mllp_frame.specs.inner.Event.{event_of};
ghost use Rattle.delivery_worker.specs.Answers.{answer_in};
ghost use Rattle.delivery_worker.specs.inner.Answers.{code_for};

use er7_tree::{Message, Refusal};
use hl7_head::answered;
use mllp_frame::FrameEvent;
use std::alloc::{AllocError, Global};
use std::marker::Model;
use std::sync::Arc;

/// The message that a block held, where it held one. It is seen as its acknowledgment, MSA, which is read from the message's
/// own text: nothing is copied.
#[derive(Drop)]
pub(crate) struct Answer {
    message: Option<Message>,
}

impl Model for Answer {
    ghost use Rattle.std.specs.Prelude.{Option};
    ghost use Rattle.hl7_head.specs.Msa.{MsaFields};
    ghost use Rattle.delivery_worker.specs.inner.Answers.{msa_in};

    ghost Value = { Option MsaFields };

    ghost view = { λ a. msa_in a.message };
}

impl Answer {
    /// The answer that an event of the stream brings: that of a block's text, none where the block is broken or can't be read.
    ///
    /// # Errors
    ///
    /// Where memory is refused.
    pub(crate) fn read(alloc: Global, event: FrameEvent) -> Result<Answer, AllocError>
        ensures { IfOk result (λ answer. answer ≡ answer_in (event_of event)) }
    {
        let FrameEvent::Block(text) = event else {
            return Ok(Answer { message: None });
        };
        let text = Arc::new(alloc, text)?;
        match Message::parse_shared(alloc, &text) {
            Ok(message) => Ok(Answer {
                message: Some(message),
            }),
            Err(Refusal::NoMemory) => Err(AllocError),
            Err(_) => Ok(Answer { message: None }),
        }
    }

    /// Whether it is an acknowledgment, of whichever message.
    pub(crate) fn is_acknowledgment(&self) -> bool {
        self.message
            .as_ref()
            .is_some_and(|message| answered(message).is_some())
    }

    /// MSA-1, where it acknowledges the message with this control id.
    pub(crate) fn code_for(&self, control_id: &[u8]) -> Option<&[u8]>
        ensures { option_copied result ≡ code_for control_id.now self.now }
    {
        let Some(message) = &self.message else {
            return None;
        };
        let Some((code, id)) = answered(message) else {
            return None;
        };
        if id == control_id { Some(code) } else { None }
    }
}
