//! Serving a connection over any reader and writer, wherever its messages are booked: in a book of one's own, or at a desk
//! of a shared one.
#![tactic(auto)]

mod at_desk;
mod clock;
mod counted;
mod dialogue;
mod keeping;
mod lines;
mod report;
mod session;
mod stream;

pub use at_desk::{AtDesk, serve};
pub use clock::{Clock, Running, Steady, Still, nearest};
pub use counted::Counted;
pub use fixed_numbers::TURNS_MAX;
pub use keeping::{DiscardReceipts, ReceiptSink};
pub use lines::{
    log_arrival, log_break, log_cut, log_end, log_fill, log_passed_over, log_repeat, why_ended,
};
pub use report::{ServeEnd, ServeReport};
pub use session::serve_within;
