//! What the service shows over HTTP beside the texts that its commands have: the page, and JSON. Of a message it shows the number, the
//! state, the length, MSH-3, MSH-4, MSH-9 and MSH-10, and nothing else; the page shows the number and the state alone. No clause says
//! what is shown, but that the page never says that all is well while messages wait for a destination to which there is no connection.
#![tactic(auto)]

mod json;
mod levels;
mod page;
mod view;
mod watch;

pub use json::{failed_json, found_json, message_json, status_json, waiting_json};
pub use page::status_page;
pub use view::{Phase, View};
pub use watch::Watch;
