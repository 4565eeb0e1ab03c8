//! The words of the service's command line, and what they ask.
#![tactic(auto)]

mod command_line;
mod help;

pub use command_line::{Keeping, Request, answer_text, http_address, parse_args};
