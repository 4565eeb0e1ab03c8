//! A book is recovered from the records of a store's file: each event is booked again, from the plan and the bound on that the
//! file's header has.
//!
//! The first record of a file is a header or a preface. A header says which plan was in force at first, how many entries the book
//! may hold, and which version of the program began the file. A preface says the same of a book that goes on from an earlier file,
//! by an opening. Behind it is one record of event_records for each change of the book.
#![tactic(auto)]

mod adopting;
mod begin;
mod fault;
mod flights;
mod header;
mod laws;
mod next;
mod opening;
mod preface;
mod run;
mod seen;

pub use adopting::adopt_plan;
pub use begin::{NewFile, begin_file};
pub use fault::{HeaderFault, RecordProblem, RecoveryError, Stop};
pub use flights::{SettledFlights, flying, settle_interrupted};
pub use header::{Header, VERSION_MAX, read_header, write_header};
pub use laws::{going_on_rules, header_rules, preface_rules, recovery_rules};
pub use next::{NextFault, fold_all, next_file};
pub use run::{Recovered, recover};
