//! What a destination says in its answer to a message, for an operator: MSA-3 and MSA-6, and the fields of ERR that say why a message
//! was refused (HL7 v2.5.1, 2.15.8 and 2.15.5), as at most 200 bytes of printing ASCII.
#![tactic(auto)]

mod parts;
mod showing;
mod words;

pub use showing::{WORDS_MAX, shown};
pub use words::{AnswerWords, answer_words};
