//! The header of a message, and the text of its acknowledgment.
#![tactic(auto)]

mod ack;
mod civil;
mod header;
mod laws;
mod moment;
mod msa;
mod places;
mod reply;
mod stamped_moment;
mod time_stamp;

pub use ack::{AckCode, AckPart, Cause};
pub use fixed_numbers::LAST_MOMENT;
pub use header::Header;
pub use laws::{ack_adds_no_control, ack_reads_back, constant_rules};
pub use moment::{Moment, MomentRange};
pub use msa::{Msa, answered};
pub use reply::{ack_text, append_ack, append_stamped_ack};
pub use stamped_moment::StampedMoment;
pub use time_stamp::stamp;
