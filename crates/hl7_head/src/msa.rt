ghost use Rattle.std.specs.Prelude.{◌≡◌, IfOk, None, Ok, option_map};
ghost use Rattle.hl7_head.specs.Msa.{msa};

use crate::places::first_pieces;
use er7_tree::{Message, Span};
use std::alloc::{AllocError, Global};
use std::marker::Model;

/// MSA is read up to its third field; its name precedes the first.
const PIECES_READ: usize = 4;

/// What an answer decides by is read up to its second field.
const ANSWER_READ: usize = 3;

/// The fields of a message acknowledgment segment, MSA, raw.
#[derive(Drop)]
pub struct Msa {
    /// MSA-1, the acknowledgment code (table 0008).
    pub code: Vec<u8>,
    /// MSA-2, the control id of the message that is answered.
    pub control_id: Vec<u8>,
    /// MSA-3, a text.
    pub text: Vec<u8>,
}

impl Model for Msa {
    ghost use Rattle.hl7_head.specs.Msa.{MsaFields};

    ghost Value = { MsaFields };

    ghost view = { λ m. record { code = m.code.items; control_id = m.control_id.items; text = m.text.items } };
}

/// MSA-1 and MSA-2 of the first MSA of a message, where it has one. It exists for speed: they lie in the message's text, and
/// nothing is copied.
pub fn answered(message: &Message) -> Option<(&[u8], &[u8])>
    ensures code { option_map (λ p. p.0.now) result ≡ option_map (λ m. m.code) (msa message.now) }
    ensures control_id { option_map (λ p. p.1.now) result ≡ option_map (λ m. m.control_id) (msa message.now) }
{
    let Some(segment) = message.segment(b"MSA") else {
        return None;
    };
    let [_name, code, control_id] = first_pieces::<ANSWER_READ>(
        segment,
        Span::whole(segment),
        message.delims().field(),
    );
    Some((code.of(segment), control_id.of(segment)))
}

impl Msa {
    ghost use Rattle.hl7_head.specs.Msa.{msa};

    /// The first MSA of a message, where it has one.
    ///
    /// # Errors
    ///
    /// Where memory is refused.
    pub fn read(alloc: Global, message: &Message) -> Result<Option<Msa>, AllocError>
        ensures value { IfOk result (λ found. found ≡ msa message.now) }

        // A message without an MSA takes no memory.
        ensures absent { msa message.now ≡ None → result ≡ Ok None }
    {
        let Some(segment) = message.segment(b"MSA") else {
            return Ok(None);
        };
        let [_name, code, control_id, text] = first_pieces::<PIECES_READ>(
            segment,
            Span::whole(segment),
            message.delims().field(),
        );
        Ok(Some(Msa {
            code: Vec::from_slice(alloc, code.of(segment))?,
            control_id: Vec::from_slice(alloc, control_id.of(segment))?,
            text: Vec::from_slice(alloc, text.of(segment))?,
        }))
    }
}
