//! Which acknowledgments a message is due, and of what codes.
#![tactic(auto)]

mod mode;
mod rule;
mod verdictum;

pub use mode::{AckMode, AckType};
pub use rule::{enhanced_rules, parts};
pub use verdictum::Verdictum;
