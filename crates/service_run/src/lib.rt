//! A running service: its listeners, its threads, the commands that it obeys, and its end.
#![tactic(auto)]

mod cancelling;
mod ending;
mod execution;
mod figures;
mod holding;
mod journaling;
mod listeners;
mod origin;
mod output;
mod questions;
mod service;
mod settings;
mod showing;
mod stored;
mod supervision;
mod threads;
mod workers;

pub use questions::PLAN_BYTES;
pub use service::{RunEnd, run};
pub use service_web::HttpSettings;
pub use settings::Settings;
pub use supervision::Progress;
