//! Maps of openings: what a start makes of the opening that it found, before a book goes on from it.
//!
//! An opening is taken whole and a new one is made of it, in time linear in what is remembered. The bytes of the messages are
//! shared, and not copied.
#![tactic(auto)]

mod counters;
mod flights;
mod laws;
mod rebasing;
mod sharing;

pub use counters::{CountsAside, UncountedOpening, uncounted};
pub use flights::given_back;
pub use laws::{given_back_rules, rebased_rules, uncounted_rules};
pub use rebasing::{Lowered, RebasedOpening, rebased};
