//! A book goes on from an opening: what is remembered of entries that were folded, and what is counted of the others.
#![tactic(auto)]

mod arrivals;
mod book;
mod counters;
mod fault;
mod order;
mod owing;

pub use book::resume;
pub use fault::ResumeFault;
