//! What a replay makes of the records of a shared book's log.
#![tactic(auto)]

mod laws;

pub use laws::restart_rules;
