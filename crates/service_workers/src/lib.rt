//! The workers of a service: places that accept connections, serve them and end them in order, one after another; posts that
//! deliver, one for each queue; a warden, by which reading pauses where the book has no room; and how all of them end.
//!
//! What the workers share is a site. It has the destinations that an operator holds: a post takes nothing from the queue of one.
//! What is counted there is counted at once, and each counter is read by itself.
//!
//! The book that `close_book` takes out of its lock is traced to the desks and stations at which they worked. No contract says
//! that a connection is served, that a message is delivered, or that a worker ends.
#![tactic(auto)]

mod at_place;
mod draining;
mod ending;
mod gate;
mod half;
mod held;
mod hold;
mod holding;
mod kinds;
mod links;
mod noted_link;
mod noting;
mod operator;
mod pauses;
mod place;
mod post;
mod prunings;
mod site;
mod stage;
mod standard_input;
mod stopping;
mod tallies;
mod warden;
mod way;

pub use ending::close_book;
pub use gate::{Accepted, Gate};
pub use held::HeldNames;
pub use hold::Hold;
pub use links::{LinkNote, LinkState, LinkTrouble};
pub use operator::OperatorDesk;
pub use pauses::{PauseCause, pause_cause, paused_by};
pub use place::{Place, work_place};
pub use post::{Post, PostWork, work_post};
pub use prunings::{PruneRefusal, prune_refusal};
pub use site::{Crew, History, ServiceRows, Site};
pub use stage::Stage;
pub use standard_input::StandardInput;
pub use stopping::{StopMode, has_ended, stop};
pub use tallies::{Dropped, Tallies, Unbooked};
pub use warden::work_warden;
