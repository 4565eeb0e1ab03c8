//! What a service starts from that keeps its history in a folder: the store of its records, the book that is recovered from it, and
//! numbers for its connections that no earlier start used.
//!
//! The folder has the files `events.db` and `events.db-wal`, the store; `connections`, the first number of a connection that was
//! never reserved; `records`, how many records the store has had at least; and `holds`, the names of the destinations that are held.
//! While a store goes on in a new file, that is `next.db`; the old ones are in the folder `archive`.
#![tactic(auto)]

mod close;
mod fault;
mod folder;
mod holds;
mod keep;
mod next;
mod numbers;
mod open;
mod reading;
mod replacing;
mod start;
mod swap;
mod witness;

pub use close::close_store;
pub use fault::{BookFault, HoldsFault, NextError, NumbersFault, StartError, StartFault};
pub use holds::{HoldsFile, StoredHolds};
pub use numbers::ConnectionNumbers;
pub use open::{Flights, NextFile, ServiceStore, start_in_folder};
pub use reading::{StoppedBook, read_stopped};
pub use start::{OnFlights, StartRequest, Started, start_book};
pub use witness::Witness;
