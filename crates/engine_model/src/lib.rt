//! The whole engine on one thread, as a theorem for every list of steps: whatever the order of the pieces that are
//! received on its connections, of takes, settlements, cancellations, deployments and prunings, the history is that
//! of the sequential engine, and each connection is sent the acknowledgments of its messages in order, each once.
#![tactic(auto)]

mod connection;
mod converse;
mod laws;
mod step;
mod world;

pub use converse::steps_of;
pub use fixed_numbers::FRAME_EVENTS_MAX;
pub use laws::run_rules;
pub use step::Step;
pub use world::World;
