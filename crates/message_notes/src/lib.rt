//! Notes about the last messages, beside the book: when and from where each was received, and how its delivery to each destination
//! went. They are in memory alone.
#![tactic(auto)]

mod answer_text;
mod deliveries;
mod notes;

pub use answer_text::AnswerText;
pub use deliveries::{DeliveryNote, MessageNote, Reception};
pub use notes::Notes;
