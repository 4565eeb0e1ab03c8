//! The plan of the engine: the destinations that messages go to, and the channels that they arrive on.
#![tactic(auto)]

mod built_in;
mod channel;
mod destination;
mod fault;
mod from_toml;
mod literal;
mod plan;

pub use channel::{Channel, MessageType, ProcessingId, Route, VersionId};
pub use destination::{Await, Destination};
pub use fault::{PlanFault, PlanFaultKind};
pub use literal::Literal;
pub use plan::Plan;
