//! Deliveries: sending the messages of a destination's queue, and what its answers mean.
#![tactic(auto)]

mod answer;
mod answers;
mod connection;
mod data;
mod lately;
mod laws;
mod link;
mod link_log;
mod opening;
mod report;
mod sendings;
mod socket;
mod taking;
mod tcp_link;
mod until;
mod watching;
mod way;
mod words;
mod worker;

pub use answers::{Reply, outcome_of};
pub use laws::delivered_is_sent;
pub use link::{Link, LinkFault};
pub use report::{DeliverEnd, DeliverReport};
pub use taking::TakeRule;
pub use tcp_link::TcpLink;
pub use until::{Halt, deliver_until};
pub use way::{FixedWay, Way};
pub use words::Cause;
pub use worker::deliver;
