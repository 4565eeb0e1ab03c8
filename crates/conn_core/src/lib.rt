//! Answering a message that was received in a block: judging it, booking it wherever messages are booked, and making the
//! acknowledgments that it is due. Nothing here reads or writes a device.
#![tactic(auto)]

mod block_outcome;
mod booking;
mod laws;
mod line;
mod replies;

pub use block_outcome::{BlockOutcome, Booked, answer_block, book_and_reply};
pub use booking::{Booking, NotPersisted, Unbooked};
pub use laws::replies_fit_blocks;
pub use line::ConnectionId;
pub use replies::Replies;
