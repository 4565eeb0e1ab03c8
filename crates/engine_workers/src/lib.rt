//! The workers of a running engine, each on a thread of its own: for each channel one that opens its door, for each
//! connection one that serves it, and for each destination one that delivers.
//!
//! The threads share the book under its lock, a clock that each has a copy of, and the runtime. What a worker works with is
//! its own while it works: it takes a desk, a door or a station out of its cell, and puts it back with its report. So what
//! the contracts of serving and of delivering say of a connection and of a destination is so on every thread, and each
//! report is returned with the desk or the station that it is of.
//!
//! No contract says that a thread is started, gets on or ends, so none says that a connection is served, that a message is
//! delivered or that `run_workers` returns, nor in which order the threads lock the book.
#![tactic(auto)]

mod connection_work;
mod door;
mod ending;
mod half;
mod inlet;
mod lacks;
mod loan;
mod outlet;
mod site;
mod tcp_door;
mod workers;

pub use connection_work::{ConnectionWork, desks_and_reports};
pub use door::{Door, DoorFault, Incoming};
pub use ending::{RunEnd, close_book};
pub use half::Half;
pub use outlet::{DestinationWork, stations_and_reports};
pub use tcp_door::TcpDoor;
pub use workers::{Finished, StartError, Workers, run_workers};
