//! What would become of messages, without booking or sending anything: the verdict on each with its cause, whether each
//! route's filter is true, the payload for each destination, and the acknowledgments.
#![tactic(auto)]

mod explanation;
mod lines;
mod report;
mod text_input;
mod trial;

pub use explanation::{Explanation, Stopped, Way, explain};
pub use report::try_text;
pub use text_input::segments_of;
pub use trial::{Trial, TryFault, try_input};
