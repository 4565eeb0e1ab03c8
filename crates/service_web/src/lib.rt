//! The answers of a running service over HTTP: one thread, which waits for all its sockets at once. It answers one request on each
//! connection and ends the connection. It changes nothing in the book, and shows no byte of a message but those that `service_pages`
//! and the commands `status` and `metrics` show.
//!
//! What a peer may take is bounded: a head of 8,192 bytes within 5 seconds, 10 seconds to read the answer, and 32 connections; where a
//! further one is made, the oldest ends. For the page, the status and the metrics the book is looked at 20 times a second at most, a
//! message is looked up once a request, and searches get 200 milliseconds and then a tenth of the time that passes.
//!
//! No contract says that a request is answered, nor what is.
#![tactic(auto)]

mod counting;
mod credit;
mod door;
mod peer;
mod probes;
mod responder;
mod searches;
mod serving;

pub use counting::Counting;
pub use credit::Credit;
pub use door::{Door, HttpSettings, SOCKETS};
pub use probes::{health, readiness};
pub use searches::{
    Failures, SLICE, destination_named, failures_at, numbers_meant, numbers_with, queued,
};
pub use serving::answer_requests;
