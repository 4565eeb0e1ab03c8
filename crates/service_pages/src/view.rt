//! What is seen of a service at one moment.

use crate::watch::Watch;
use book_lock::Status;
use plan_text::Plan;
use service_answers::Figures;

/// How far the end of the service is.
#[derive(Clone, Copy, Debug, PartialEq, Eq)]
pub enum Phase {
    /// Messages are taken.
    Open,
    /// No message is taken, and what waits is delivered.
    Closing,
    /// No further attempt to deliver begins.
    Halted,
}

/// What is seen of a service at one moment, and what was seen of it since it started.
#[derive(Clone, Copy)]
pub struct View<'a> {
    pub plan: &'a Plan,
    pub status: &'a Status,
    pub figures: &'a Figures,
    pub watch: &'a Watch,
    pub phase: Phase,
}
