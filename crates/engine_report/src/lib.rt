//! The words of hl7_engine's command line, what it answers on a connection of its own, and what it prints at its end: its faults
//! with their exit statuses, the statistics of a book, the size of a plan, and what is wrong with the receipts of the connections.
//! Of hl7_service, how it ends.
#![tactic(auto)]

mod answering;
mod command_line;
mod ended;
mod fault;
mod findings;
mod hashing;
mod limits;
mod listening;
mod plan_file;
mod plan_size;
mod reading;
mod standard;
mod statistics;

pub use answering::{answer_stream, outcome};
pub use command_line::{Request, parse_args};
pub use ended::{Ended, Trouble};
pub use fault::{Fault, Finding};
pub use findings::{add_finding, find};
pub use hashing::hasher;
pub use limits::{connections_of, descriptors_of};
pub use listening::add_listen_fault;
pub use plan_file::{bounded_file, read_plan, warned_plan, warned_service_plan};
pub use plan_size::PlanSize;
pub use reading::{explained_plan, tell_lines};
pub use standard::open_standard;
pub use statistics::statistics_text;
