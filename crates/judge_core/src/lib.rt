//! What is decided of a message that arrives: whether it is answered, refused, filtered or accepted, and where it goes.
#![tactic(auto)]

mod delivery;
mod judged;
mod laws;
mod text;

pub use delivery::{Deliveries, Delivery, KeptDeliveries, SharedDeliveries};
pub use judged::{Judged, JudgedMessage, Verdict, judge};
pub use laws::{key_rules, verdict_rules};
pub use text::{Text, TextPiece, fits_block, offset_32};
