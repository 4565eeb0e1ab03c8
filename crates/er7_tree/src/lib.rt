//! HL7 v2 messages as text: segments, fields, repetitions, components and subcomponents between delimiters.
#![tactic(auto)]

mod delims;
mod edit_laws;
mod edits;
mod escapes;
mod laws;
mod message;
mod path;
mod pieces;
mod refusal;
mod segments;
mod text_walk;

pub use delims::Delims;
pub use edit_laws::{
    edits_add_no_byte, edits_keep_messages, edits_leave_the_rest, edits_read_back,
};
pub use escapes::{escape, unescape};
pub use fixed_numbers::{CARRIAGE_RETURN, LINE_FEED, MAX_SEGMENTS};
pub use laws::{header_name_rule, lacking_rules, printing_rules};
pub use message::Message;
pub use path::{Part, Path};
pub use pieces::is_vacant;
pub use refusal::Refusal;
pub use segments::{MSH, Span, is_header, is_name};
