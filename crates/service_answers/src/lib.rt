//! The answers of a running service to an operator's commands, as texts: its status, its numbers for Prometheus, and
//! what is kept of messages. Each ends with an empty line.
#![tactic(auto)]

mod cancellations;
mod contents;
mod echoes;
mod figures;
mod holds;
mod ids;
mod links;
mod live;
mod messages;
mod metrics;
mod noted;
mod origins;
mod plans;
mod prunings;
mod renames;
mod status;
mod time;

pub use cancellations::{
    Places, Series, cancellable_text, cancelled_text, control_id_of, not_cancelled_at_text,
    not_cancelled_text, series_cancelled_text, several_text,
};
pub use contents::{contents_text, document_text, elsewhere_text, exported_text};
pub use echoes::echo_text;
pub use figures::{Dropped, Figures, StoreNumbers, Unbooked};
pub use holds::{add_held_without, held_already_text, held_text, not_held_text, released_text};
pub use ids::unescaped;
pub use links::{LinkState, LinkView, links_text};
pub use live::{Live, live_of, state_at};
pub use messages::{
    Listed, ListedFailure, SHOWN_MAX, failed_text, found_text, left_behind, message_text,
    waiting_text,
};
pub use metrics::metrics_text;
pub use origins::{Origin, origin_text};
pub use plans::{
    add_listener, bad_plan_text, deployed_text, long_file_text, no_file_text, no_regular_file_text,
    refused_plan_text,
};
pub use prunings::{few_prunings_text, frees_little_text, pruned_text, unpruned_text};
pub use renames::{Rename, rename_at};
pub use status::status_text;
pub use time::Utc;
