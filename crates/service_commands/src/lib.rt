//! The commands of the service, as they are read from its standard input: the command that a line is, and the lines
//! themselves, read without any request for memory. Nothing here executes a command.
#![tactic(auto)]

mod answer;
mod command;
mod input;

pub use answer::{HELP, Refused, UNKNOWN};
pub use command::{Command, read_command};
pub use input::{Input, read_line};
