//! HTTP/1.x for a small server that only answers questions: one request on each connection, `GET` and `HEAD` alone, no body taken.
//! The request's head is read by `httparse`. What follows a head is never read as a second request, so two parties can't
//! disagree about where one request ends and the next begins.
#![tactic(auto)]

mod document;
mod host;
mod request;
mod response;
mod target;

pub use document::{Document, escape_rules};
pub use request::{FIELDS_MAX, HEAD_BYTES, Request, read_request};
pub use response::{Answer, Kind, Status};
pub use target::{Target, percent_decoded, target_of};
