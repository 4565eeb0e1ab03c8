//! Conditions on an HL7 v2 message: the rule language of source filters and route filters.
#![tactic(auto)]

mod condition;
mod text;

pub use condition::{Cond, value};
pub use text::Bytes;
