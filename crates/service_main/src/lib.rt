//! What the service does when it is called with words: running, trying messages, checking plans, and answering questions about a store.
#![tactic(auto)]

mod asking;
mod check;
mod trying;
mod words;

pub use engine_report::{Ended, Trouble};
pub use words::{Sockets, finish, perform, words_given};
