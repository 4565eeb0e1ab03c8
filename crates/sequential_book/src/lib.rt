//! The sequential engine, plain and slow: a list of entries and nothing else. Each answer is found by reading the list
//! from its start, as the definition says it, so that a faster engine can be compared with it.
#![tactic(auto)]

mod answers;
mod engine;
mod entries;
mod refusal;

pub use engine::SequentialBook;
pub use refusal::{NotBooked, NotSettled};
