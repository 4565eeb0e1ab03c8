ghost use Rattle.std.specs.Prelude.{◌≡◌, find};
ghost use Rattle.std.specs.List.{flat_map};
ghost use Rattle.std.specs.Option.{option_copied, option_map, option_to_list};
ghost use Rattle.delivery_worker.specs.Answers.{answers_to, code_outcome, outcome_of};
ghost use Rattle.delivery_worker.specs.inner.Answers.{code_for};

use crate::answer::Answer;
use dest_queue::Outcome;
use fixed_numbers::MAX_ANSWERS;
use hl7_head::{AckCode, Msa};

/// What the answers after a send say of the message. It is for the log: [`outcome_of`] decides.
#[derive(Clone, Copy, Debug, PartialEq, Eq)]
pub enum Reply {
    /// Nothing was read.
    Nothing,
    /// What was read is no acknowledgment.
    NoAcknowledgment,
    /// All acknowledgments name other messages.
    OfOthers,
    /// The code of the first acknowledgment of the message, MSA-1; none where table 0008 has no such code.
    Code(Option<AckCode>),
}

/// The outcome that an acknowledgment code, MSA-1, means (table 0008).
fn code_outcome(code: &[u8]) -> Outcome
    ensures { result ≡ code_outcome code.now }
{
    match code {
        b"AA" | b"CA" => Outcome::Delivered,
        b"AR" | b"CR" => Outcome::Rejected,
        _ => Outcome::Again,
    }
}

/// The first acknowledgment of the message with this control id.
fn acknowledgment<'a>(control_id: &[u8], answers: &'a [Option<Msa>]) -> Option<&'a Msa>
    ensures { option_copied result ≡ find (answers_to control_id.now) (flat_map option_to_list answers.now) }
{
    for answer in answers {
        if let Some(msa) = answer
            && msa.control_id.as_slice() == control_id
        {
            return Some(msa);
        }
    }
    None
}

/// What the answers after a send mean for the message with this raw control id, MSH-10: the first acknowledgment whose
/// MSA-2 is that id decides, and without one the message is sent again. Only the first [`MAX_ANSWERS`] answers are looked
/// at; `None` is one that can't be read or has no MSA.
pub fn outcome_of(control_id: &[u8], answers: &[Option<Msa>]) -> Outcome
    ensures { result ≡ outcome_of control_id.now answers.now }
{
    let read = &answers[..MAX_ANSWERS.min(answers.len())];
    match acknowledgment(control_id, read) {
        Some(msa) => code_outcome(&msa.code),
        None => Outcome::Again,
    }
}

/// The code of table 0008 that MSA-1 bears.
fn known_code(code: &[u8]) -> Option<AckCode> {
    match code {
        b"AA" => Some(AckCode::AA),
        b"AE" => Some(AckCode::AE),
        b"AR" => Some(AckCode::AR),
        b"CA" => Some(AckCode::CA),
        b"CE" => Some(AckCode::CE),
        b"CR" => Some(AckCode::CR),
        _ => None,
    }
}

/// MSA-1 of the first acknowledgment of the message with this control id.
fn first_code<'a>(control_id: &[u8], answers: &'a [Answer]) -> Option<&'a [u8]>
    ensures { option_copied result ≡ option_map (λ msa. msa.code)
        (find (answers_to control_id.now) (flat_map option_to_list answers.now)) }
{
    for answer in answers {
        if let Some(code) = answer.code_for(control_id) {
            return Some(code);
        }
    }
    None
}

/// What answers say of a message that none of them acknowledges.
fn reply_of_none(answers: &[Answer]) -> Reply {
    if answers.is_empty() {
        Reply::Nothing
    } else if answers.iter().any(|answer| answer.is_acknowledgment()) {
        Reply::OfOthers
    } else {
        Reply::NoAcknowledgment
    }
}

/// What the answers after a send decide of a message, and what they say of it.
#[derive(Clone, Copy)]
pub(crate) struct Decision {
    /// What becomes of the message.
    pub(crate) outcome: Outcome,
    /// What the log says of it.
    pub(crate) reply: Reply,
}

impl Decision {
    /// What the code of an acknowledgment, MSA-1, decides of its message.
    fn by_code(code: &[u8]) -> Decision
        ensures { result.outcome ≡ code_outcome code.now }
    {
        Decision {
            outcome: code_outcome(code),
            reply: Reply::Code(known_code(code)),
        }
    }
}

/// What one answer decides of the message with this raw control id, MSH-10; nothing where it is no acknowledgment of it.
pub(crate) fn decision_of(control_id: &[u8], answer: &Answer) -> Option<Decision>
    ensures { option_map (λ d. d.outcome) result
        ≡ option_map code_outcome (code_for control_id.now answer.now) }
{
    match answer.code_for(control_id) {
        Some(code) => Some(Decision::by_code(code)),
        None => None,
    }
}

/// What the answers that were received decide of the message with this raw control id, MSH-10, as [`outcome_of`] says.
pub(crate) fn decision_by(control_id: &[u8], answers: &[Answer]) -> Decision
    ensures { result.outcome ≡ outcome_of control_id.now answers.now }
{
    let read = &answers[..MAX_ANSWERS.min(answers.len())];
    match first_code(control_id, read) {
        Some(code) => Decision::by_code(code),
        None => Decision {
            outcome: Outcome::Again,
            reply: reply_of_none(read),
        },
    }
}
